// The request that a terminal keeps until the answer.
ghost use Rattle.std.specs.Prelude.{◌≡◌};
ghost use Rattle.terminal.specs.Asking.{content, pointless, opening, repeated, waited};

use frames::{CallId, Frame};
use signalling::Ask;

// A request that awaits its answer: `countdown` ticks are left until it is sent again, which was done `repeats` times, counted up to 255.
#[derive(Clone, Copy, Debug, PartialEq, Eq)]
pub struct Request {
    pub ask: Ask,
    pub call: CallId,
    pub countdown: u8,
    pub repeats: u8,
}

// The ticks from one sending of a request to the next.
const COUNTDOWN: u8 = 20;

// To hold a call that is on hold, or to retrieve one that is not.
pub(crate) fn is_pointless(ask: Ask, own: bool) -> bool
    ensures { result ≡ pointless ask own }
{
    matches!((ask, own), (Ask::Hold, true) | (Ask::Retrieve, false))
}

impl Request {
    pub(crate) fn opening(ask: Ask, call: CallId) -> Request
        ensures { result ≡ opening ask call }
    {
        Request {
            ask,
            call,
            countdown: COUNTDOWN,
            repeats: 0,
        }
    }

    // The request after a tick that sends its frame again; the count stops at 255.
    pub(crate) fn repeated(self) -> Request
        ensures { result ≡ repeated self }
    {
        Request {
            countdown: COUNTDOWN,
            repeats: self.repeats.saturating_add(1),
            ..self
        }
    }

    // The request after a tick that sends nothing.
    pub(crate) fn waited(self) -> Request
        ensures { result ≡ waited self }
    {
        Request {
            countdown: self.countdown.saturating_sub(1),
            ..self
        }
    }

    // What its frame says.
    pub(crate) fn content(self, exchange: bool) -> Frame
        ensures { result ≡ content self exchange }
    {
        Frame {
            exchange,
            call: self.call,
            body: self.ask.into(),
        }
    }
}
