// What the switch tells of serving and notifying.
ghost use Rattle.std.specs.Prelude.{◌≡◌};
ghost use Rattle.switch.specs.Answer.{answer};
ghost use Rattle.switch.specs.Making.{make_words};
ghost use Rattle.switch.specs.declared.told.MakeError.TheVariants.{Refused, NoMemory};

use frames::{Body, CallId, Frame, News, Operation, Verdict};
use records::HeldLegs;
use std::alloc::AllocError;
use std::error::Error;
use std::fmt;
use text::Fault;

// A request that was carried out: the operation, its call and the verdict; or a clear, its call and the legs that were on hold.
#[derive(Clone, Copy, Debug, PartialEq, Eq)]
pub enum Handled {
    Answered(Operation, CallId, Verdict),
    Cleared(CallId, HeldLegs),
}

// `Fresh` is a request carried out now, `Repeat` one whose kept answer was sent again; with the link's fault if it refused the answer.
#[derive(Clone, Copy, Debug, PartialEq, Eq)]
pub enum Served {
    Nothing,
    Fresh(Handled, Option<Fault>),
    Repeat(Handled, Option<Fault>),
}

// `Notice` has the call and its news, and the link's fault if it refused the notice.
#[derive(Clone, Copy, Debug, PartialEq, Eq)]
pub enum Notified {
    Nothing,
    Notice(CallId, News, Option<Fault>),
}

// Why no switch was made: a size that no pool has, or want of memory.
#[derive(Debug, Drop)]
pub enum MakeError {
    Refused(Fault),
    NoMemory(AllocError),
}

impl fmt::Display for MakeError {
    ghost output = { make_words };

    fn fmt<W: fmt::Write>(&self, f: &mut fmt::Formatter<W>) -> fmt::Result {
        match self {
            MakeError::Refused(fault) => write!(f, "{fault}"),
            MakeError::NoMemory(e) => write!(f, "{e}"),
        }
    }
}

impl Error for MakeError {}

impl From<Fault> for MakeError {
    ghost from_gives = { λ f r. r ≡ Refused f };

    fn from(fault: Fault) -> MakeError {
        MakeError::Refused(fault)
    }
}

impl From<AllocError> for MakeError {
    ghost from_gives = { λ e r. r ≡ NoMemory e };

    fn from(e: AllocError) -> MakeError {
        MakeError::NoMemory(e)
    }
}

impl Handled {
    // The frame that answers the request, with its exchange bit.
    pub(crate) fn answer(self, exchange: bool) -> Frame
        ensures { result ≡ answer exchange self }
    {
        match self {
            Handled::Answered(operation, call, verdict) => Frame {
                exchange,
                call,
                body: Body::Answer(operation, verdict),
            },
            Handled::Cleared(call, _) => Frame {
                exchange,
                call,
                body: Body::ClearAnswer,
            },
        }
    }
}
