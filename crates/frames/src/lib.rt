// Frames of the call-hold service: their content and their bytes.
// To the crates above it promises that reading and writing equal their definitions, that what is written reads back, and that no two
// frames have one content nor two contents one frame. It uses `text` for faults, octets and lines of text.
#![tactic(auto)]

mod bits;
mod codes;
mod content;
mod layout;
mod line;
mod numbers;
mod reader;
mod refusal;
mod words;
mod writer;

pub use codes::cause_number;
pub use content::{Body, CallId, Cause, Frame, News, Operation, Verdict};
pub use line::read_line;
pub use reader::read;
pub use refusal::Refusal;
pub use writer::write;
