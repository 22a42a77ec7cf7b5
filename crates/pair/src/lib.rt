// A pair: a switch, one user's terminal and a link each way, with every call on it, over any register and any links.
// Each call promises its outcome and the state after it, that it is a step of a run, and that the three sums stand after it, whatever run
// led to it. It uses `switch` and `terminal` for the ends, and `law` for runs and the sums.
#![tactic(auto)]

mod call;
mod ends;
mod playing;

pub use call::Call;
pub use ends::Pair;
pub use playing::play;
