// Why no frame is read or written: each reason with the number and the place of its fault.
ghost use Rattle.std.specs.Prelude.{◌≡◌};
ghost use Rattle.frames.specs.Refusal.{told};

use text::{Fault, Layer};

#[derive(Clone, Copy, Debug, PartialEq, Eq)]
pub enum Refusal {
    // So many bytes are no frame.
    ByteCount(usize),
    // No kind, a bit that is not zero, or a notice with exchange bit 1.
    Header,
    // A call identifier that no frame has.
    Call,
    // Another number of bytes than that of the PDU bits asks for, or a filling bit that is not zero.
    Length,
    // No PDU of the service.
    Service,
    PduType,
    // What the PDU says is nothing that its type allows.
    Content,
}

impl From<Refusal> for Fault {
    ghost from_gives = { λ r f. f ≡ told r };

    fn from(refusal: Refusal) -> Fault {
        let (number, place) = match refusal {
            Refusal::ByteCount(count) => (11, count),
            Refusal::Header => (12, 0),
            Refusal::Call => (13, 1),
            Refusal::Length => (14, 3),
            Refusal::Service => (15, 4),
            Refusal::PduType => (16, 4),
            Refusal::Content => (17, 3),
        };
        Fault::at(Layer::Frame, number, place)
    }
}
