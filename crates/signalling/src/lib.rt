// What the two ends of the service share: what may be asked, and frames put into a link and taken out of it.
// To the crates above it promises that a frame is sent as the writer's bytes, whole, and that a frame taken is read whole, over any link.
// It uses `links` for the frames under way, `frames` for their content and `text` for faults.
#![tactic(auto)]

mod ask;
mod carrying;
mod words;

pub use ask::Ask;
pub use carrying::{post, pull};
