// The layout of frames: which fields stand one after the other, how wide each is, and what they may hold.
ghost use Rattle.std.specs.Prelude.{◌≡◌};
ghost use Rattle.frames.specs.Layout.{bars_bit};

use crate::codes::Kind;

// Kind, three zero bits, exchange bit, call identifier, number of PDU bits.
pub(crate) const HEADER: [u32; 5] = [4, 3, 1, 16, 8];

// SS-type, PDU type, result, cause; the last bit is always filling.
pub(crate) const PDU: [u32; 5] = [6, 5, 1, 3, 1];

// A notice has exchange bit 0.
pub(crate) fn bars_bit(kind: Kind, exchange: bool) -> bool
    ensures { result ≡ bars_bit kind exchange }
{
    kind == Kind::Notice && exchange
}
