// Why a switch refuses.
ghost use Rattle.std.specs.Prelude.{◌≡◌};
ghost use Rattle.switch.specs.Refusal.{told, user_checked};

use register::User;
use text::{Fault, Layer};

// `NoNewIdentifier` is of an identifier that is not from 1 to 16,383 or not above the last; `NoChannels` of fewer than two free ones;
// `NothingToRepeat` of a repeat where nothing was answered yet; `FewPlaces` of a waiting line.
#[derive(Clone, Copy, Debug, PartialEq, Eq)]
pub enum Refusal {
    NoUser,
    NoSession,
    HasSession,
    SessionsFull,
    OneUserTwice,
    NoNewIdentifier,
    RecordsFull,
    NoChannels,
    NotLive,
    NoRequest,
    NothingToRepeat,
    FewPlaces,
}

impl From<Refusal> for Fault {
    ghost from_gives = { λ refusal fault. fault ≡ told refusal };

    fn from(refusal: Refusal) -> Fault {
        Fault::new(
            Layer::Switch,
            match refusal {
                Refusal::NoUser => 30,
                Refusal::NoSession => 31,
                Refusal::HasSession => 32,
                Refusal::SessionsFull => 33,
                Refusal::OneUserTwice => 34,
                Refusal::NoNewIdentifier => 35,
                Refusal::RecordsFull => 36,
                Refusal::NoChannels => 37,
                Refusal::NotLive => 38,
                Refusal::NoRequest => 39,
                Refusal::NothingToRepeat => 40,
                Refusal::FewPlaces => 44,
            },
        )
    }
}

// A switch's calls are a user's, whose number is in range.
pub fn check_user(user: User) -> Result<(), Refusal>
    ensures { result ≡ user_checked user.0 }
{
    if user.is_user() {
        Ok(())
    } else {
        Err(Refusal::NoUser)
    }
}
