// What a link refuses, as those who make links name it.
ghost use Rattle.std.specs.Prelude.{◌≡◌};
ghost use Rattle.links.specs.Refusal.{told};

use text::{Fault, Layer};

#[derive(Clone, Copy, Debug, PartialEq, Eq)]
pub enum Refusal {
    // The frame is empty or over the longest.
    FrameLength,
    // Fewer than 32 bytes were handed over for taking.
    TakingLength,
    // A frame that fits is not accepted.
    Declined,
    // A ring or a line cannot be made with so many bytes.
    MemoryLength,
}

impl From<Refusal> for Fault {
    ghost from_gives = { λ r f. f ≡ told r };

    fn from(refusal: Refusal) -> Fault {
        match refusal {
            Refusal::FrameLength => Fault::new(Layer::Link, 41),
            Refusal::TakingLength => Fault::new(Layer::Link, 42),
            Refusal::Declined => Fault::new(Layer::Link, 43),
            Refusal::MemoryLength => Fault::new(Layer::Making, 54),
        }
    }
}
