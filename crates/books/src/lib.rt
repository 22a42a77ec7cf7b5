// The books of one user: the three sums of the law, kept from the outcomes of calls alone.
// To the crates above it promises that each number is what the law's definitions say of the outcomes noted, whatever these are.
// It uses `law` for the calls and their outcomes, and `terminal` for the calls that a terminal shows.
#![tactic(auto)]

mod books;
mod entry;
mod error;
mod table;

pub use books::Books;
pub use error::NoteError;
