// The switch's end of the service: sessions, call records, the answers to requests, and the notices.
// To the crates above it promises that each call's outcome and the state after it equal their definitions, over any link and any
// register, and the laws of its state. It uses `records` for calls, `signalling` for frames over links, `register` and `pool`.
#![tactic(auto)]

mod board;
mod refusal;
mod session;
mod switch;
mod told;

pub use refusal::{Refusal, check_user};
pub use session::Session;
pub use switch::{Parts, Switch};
pub use told::{Handled, MakeError, Notified, Served};
