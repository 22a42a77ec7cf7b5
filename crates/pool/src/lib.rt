// The channels of a switch: a pool of them, and claims on a channel drawn.
// To the crates above it promises that never more channels are in use than the pool has, and that a channel drawn is put to one leg or
// given back: code that forgets a claim, or spends it twice, is not proved. It uses the faults of `text`.
#![tactic(auto)]

mod claim;
mod legs;
mod pool;
mod refusal;

pub use claim::{Bearer, Claim};
pub use legs::{carry_both, carry_one};
pub use pool::Pool;
