// Calls and their outcomes in words, for programs that print them.
// To the crates above it promises the bytes of each text, by equality with definitions. It uses `law` for events.
#![tactic(auto)]

mod command;
mod outcome;
mod parts;
mod told;

pub use command::Command;
pub use outcome::{Answered, Outcome};
pub use told::Told;
