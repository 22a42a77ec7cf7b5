// Why no register is made.
ghost use Rattle.std.specs.Prelude.{◌≡◌};
ghost use Rattle.register.specs.Refusal.{told};

use text::{Fault, Layer};

pub(crate) enum Refusal {
    LimitOutOfRange,
    UsersDoNotRise,
}

impl From<Refusal> for Fault {
    ghost from_gives = { λ refusal fault. fault ≡ told refusal };

    fn from(refusal: Refusal) -> Fault {
        Fault::new(
            Layer::Making,
            match refusal {
                Refusal::LimitOutOfRange => 51,
                Refusal::UsersDoNotRise => 52,
            },
        )
    }
}
