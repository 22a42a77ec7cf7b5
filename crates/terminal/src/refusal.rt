// Why a terminal refuses.
ghost use Rattle.std.specs.Prelude.{◌≡◌};
ghost use Rattle.terminal.specs.Refusal.{told};

use text::{Fault, Layer};

// `NoNewIdentifier` is of an identifier that is not from 1 to 16,383 or not above the last; `Pointless` of a hold of a call on hold
// and of a retrieval of one that is not; `NotForTerminals` of a request's frame and a clear request's.
#[derive(Clone, Copy, Debug, PartialEq, Eq)]
pub(crate) enum Refusal {
    CallNotHeld,
    RequestOpen,
    Pointless,
    NoNewIdentifier,
    TableFull,
    NotForTerminals,
}

impl From<Refusal> for Fault {
    ghost from_gives = { λ refusal fault. fault ≡ told refusal };

    fn from(refusal: Refusal) -> Fault {
        Fault::new(
            Layer::Terminal,
            match refusal {
                Refusal::CallNotHeld => 21,
                Refusal::RequestOpen => 22,
                Refusal::Pointless => 23,
                Refusal::NoNewIdentifier => 24,
                Refusal::TableFull => 25,
                Refusal::NotForTerminals => 26,
            },
        )
    }
}
