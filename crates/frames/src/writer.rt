// From content to bytes.
ghost use Rattle.std.specs.Prelude.{◌≡◌, IfOk};
ghost use Rattle.frames.specs.Laws.{Encoding};
ghost use Rattle.frames.specs.Refusal.{faults};
ghost use Rattle.frames.specs.Write.{writes, header_octets};
ghost use Rattle.text.specs.Octets.{held};
ghost use Rattle.text.specs.Text.{told_octets};

mod pdu;

use crate::bits::{Field, join};
use crate::codes::Kind;
use crate::content::Frame;
use crate::layout::bars_bit;
use crate::refusal::Refusal;
use pdu::Pdu;
use text::{Fault, Octets};

fn header_octets(frame: &Frame, bits: u8) -> [u8; 4]
    ensures { result ≡ header_octets frame.now bits }
{
    let number = join(&[
        Field::new(4, Kind::from(frame.body).into()),
        Field::new(3, 0),
        Field::new(1, frame.exchange.into()),
        Field::new(16, frame.call.0),
        Field::new(8, bits.into()),
    ]);
    (number as u32).to_be_bytes()
}

fn encode(frame: &Frame) -> Result<Octets, Refusal>
    ensures { told_octets (faults result) ≡ writes frame.now }
{
    if bars_bit(Kind::from(frame.body), frame.exchange) {
        return Err(Refusal::Header);
    }
    if !frame.call.is_in_range() {
        return Err(Refusal::Call);
    }
    let pdu = Pdu::try_from(frame.body)?;
    let mut octets = Octets::empty();
    octets.append(&header_octets(frame, pdu.bits));
    octets.append(pdu.octets.as_slice());
    Ok(octets)
}

// The bytes of a content. They read back as it, and no other content has them.
// Faults, in the order of their checks: 12 for a notice with exchange bit 1, 13 for the call identifier, 17 for a cause that the operation does not list.
pub fn write(frame: &Frame) -> Result<Octets, Fault>
    ensures outcome { told_octets result ≡ writes frame.now }
    ensures encoding { IfOk result (λ o. Encoding frame.now (held o)) }
{
    Ok(encode(frame)?)
}
