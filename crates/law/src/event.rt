// The calls that can be made on a pair, each with what it told.
use frames::CallId;
use records::HeldLegs;
use register::User;
use signalling::Ask;
use switch::{Notified, Served};
use terminal::{Received, Ticked};
use text::Fault;

// A call that was made, its arguments and its outcome. `Joined` is connecting at the terminal, `Connected` connecting at the switch.
#[derive(Clone, Copy)]
pub enum Event {
    Opened(User, Result<(), Fault>),
    Connected(CallId, User, User, Result<(), Fault>),
    Joined(CallId, Result<(), Fault>),
    Requested(Ask, CallId, Result<Option<Fault>, Fault>),
    Ticked(Ticked),
    Received(Result<Received, Fault>),
    Served(User, Result<Served, Fault>),
    Notified(User, Result<Notified, Fault>),
    Cleared(CallId, Result<HeldLegs, Fault>),
}
