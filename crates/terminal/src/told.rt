// What a terminal tells of a tick and of a frame received.
ghost use Rattle.std.specs.Prelude.{◌≡◌};
ghost use Rattle.terminal.specs.Arriving.{reply_of};

use frames::{CallId, Cause, News, Verdict};
use signalling::Ask;
use text::Fault;

// `Waiting` has the ticks left; `Repeated` the repeat count, and the link's fault if it refused the frame.
#[derive(Clone, Copy, Debug, PartialEq, Eq)]
pub enum Ticked {
    Idle,
    Waiting(u8),
    Repeated(u8, Option<Fault>),
}

// What came of a request.
#[derive(Clone, Copy, Debug, PartialEq, Eq)]
pub enum Reply {
    Granted,
    Declined(Cause),
    Cleared,
}

// `Stale` is a frame that changes nothing here; `Closed` has the request, its call and what came of it.
#[derive(Clone, Copy, Debug, PartialEq, Eq)]
pub enum Received {
    Nothing,
    Stale,
    Notice(CallId, News),
    Closed(Ask, CallId, Reply),
}

impl From<Verdict> for Reply {
    ghost from_gives = { λ verdict reply. reply ≡ reply_of verdict };

    fn from(verdict: Verdict) -> Reply {
        match verdict {
            Verdict::Granted => Reply::Granted,
            Verdict::Declined(cause) => Reply::Declined(cause),
        }
    }
}
