// Runs of a pair, what their outcomes tell, and the law of the three sums.
// To the crates above it promises that the sums stand after every run (`sums_stand`); a run is a list of events from a fresh pair on, each
// a call and its outcome as the contracts of `terminal` and `switch` have it, over links that keep their meaning.
#![tactic(auto)]

mod event;
mod law;

pub use event::Event;
pub use law::sums_stand;
