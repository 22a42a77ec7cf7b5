// A link as an integrator writes one, outside the crate of links: it hands out each frame twice and refuses every third send.
#![tactic(auto)]

mod echo;

pub use echo::Echo;
