// Why no pool is made.
ghost use Rattle.std.specs.Prelude.{◌≡◌};
ghost use Rattle.pool.specs.Refusal.{told};

use text::{Fault, Layer};

pub(crate) enum Refusal {
    SizeOutOfRange,
}

impl From<Refusal> for Fault {
    ghost from_gives = { λ refusal fault. fault ≡ told refusal };

    fn from(refusal: Refusal) -> Fault {
        Fault::new(
            Layer::Making,
            match refusal {
                Refusal::SizeOutOfRange => 53,
            },
        )
    }
}
