// The terminal on examples: every refusal, the ticks of a request, and each outcome of a frame received; and its promises at the ring.
#![tactic(auto)]

mod at_ring;
#[cfg(test)]
mod calls;
#[cfg(test)]
mod receiving;
#[cfg(test)]
mod requests;
#[cfg(test)]
mod steps;

pub use at_ring::{receive_at_ring, request_at_ring, tick_at_ring};
