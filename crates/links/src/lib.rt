// Links: what waits in them, what they lose, what they hand out twice.
// Those above go by the trait `Link` alone, so that what is proved of one link holds of all. `Ring` and `Line` lose nothing, and
// their promises fix the list that waits; `Faulty` loses and doubles sends over any link. Of text this crate uses faults and digits.
#![tactic(auto)]

mod checks;
mod faulty;
mod line;
mod link;
mod packing;
mod queue;
mod refusal;
mod ring;
mod stored;
mod thinning;

pub use checks::{check_frame, check_memory, check_taking};
pub use faulty::Faulty;
pub use line::{InLines, Line};
pub use link::{Link, Longest};
pub use refusal::Refusal;
pub use ring::{InRing, Ring};
pub use stored::Stored;
pub use thinning::thinning_laws;
