// The waiting line of a switch: who waits behind a user, who behind that one, and so on.
// To the crates above it promises that the line told and written equals its definition, that it has the meaning of a line (nobody twice,
// each the next of the one before, ended only where nobody new is next), and that 33 places are enough for every line. It uses `switch` for the
// records and what holds of them, and `records` for who is next.
#![tactic(auto)]

mod line;
mod told;
mod walk;

pub use line::waiting_line;
pub use told::WaitingLine;
