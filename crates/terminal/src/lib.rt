// The terminal's end of the service: the calls it holds, its one open request, and what an arriving frame does to both.
// To the crates above it promises that each call's outcome and the state after it equal their definitions, over any link.
// It uses `signalling` for what may be asked and for frames sent and taken, `links` and `frames` for what those are, and `text` for faults.
#![tactic(auto)]

mod call;
mod refusal;
mod request;
mod table;
mod terminal;
mod told;

pub use call::Call;
pub use request::Request;
pub use signalling::Ask;
pub use terminal::Terminal;
pub use told::{Received, Reply, Ticked};
