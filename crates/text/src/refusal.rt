// Why a line of text is refused, and where.
ghost use Rattle.std.specs.Prelude.{◌≡◌};
ghost use Rattle.text.specs.Refusal.{told};

use crate::fault::{Fault, Layer};

#[derive(Clone, Copy, Debug, PartialEq, Eq)]
pub enum LineRefusal {
    TooLong,
    // Empty, or with an odd number of bytes, this many.
    NotInPairs(usize),
    // The index of the first byte that is no digit.
    NoDigit(usize),
}

impl From<LineRefusal> for Fault {
    ghost from_gives = { λ r f. f ≡ told r };

    fn from(refusal: LineRefusal) -> Fault {
        let (number, place) = match refusal {
            LineRefusal::TooLong => (1, 64),
            LineRefusal::NotInPairs(len) => (2, len),
            LineRefusal::NoDigit(at) => (3, at),
        };
        Fault::at(Layer::Line, number, place)
    }
}
