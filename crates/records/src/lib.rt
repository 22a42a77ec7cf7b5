// Call records of the switch: two legs, what each party has yet to be told, and the questions asked of a list of records.
// To the crates above it promises what each change makes of a record and of the channels in use, and what each question answers, by
// equality with definitions. It uses the pool for channels, `register` for users and `frames` for identifiers and news.
#![tactic(auto)]

mod changes;
mod legs;
mod notices;
mod questions;
mod standing;

pub use legs::{HeldLegs, Leg, Record, Side, Standing};
pub use notices::{Notice, next_notice};
pub use questions::{held_by, next_in_line, place_of};
