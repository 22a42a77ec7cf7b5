// Bytes as lines of hexadecimal text, and the fault that every layer hands up.
// To the crates above it promises that text read and written equals its definition, that text reads back as the bytes it was written
// of, and that no two lines spell the same bytes. It uses `std` alone.
#![tactic(auto)]

mod buffer;
mod fault;
mod hex;
mod line;
mod refusal;
mod values;
mod words;

pub use buffer::{Buffer, Octets};
pub use fault::{Fault, Layer};
pub use hex::{byte, digit_value, digits};
pub use line::{read_text, write_text};
