// The switch on examples: every refusal and their order, each outcome of a frame served, the notices and the waiting line; and its promises
// at the ring.
#![tactic(auto)]

mod at_ring;
#[cfg(test)]
mod connecting;
#[cfg(test)]
mod lines;
#[cfg(test)]
mod notices;
#[cfg(test)]
mod requests;
#[cfg(test)]
mod serving;
#[cfg(test)]
mod sessions;
#[cfg(test)]
mod steps;

pub use at_ring::{notify_at_ring, serve_at_rings};
