// From bytes to content.
ghost use Rattle.std.specs.Prelude.{◌≡◌, IfOk};
ghost use Rattle.frames.specs.Laws.{Encoding};
ghost use Rattle.frames.specs.Read.{reads, reads_header};
ghost use Rattle.frames.specs.Refusal.{faults};

mod pdu;

use crate::bits::split;
use crate::codes::Kind;
use crate::content::{CallId, Frame};
use crate::layout::{HEADER, bars_bit};
use crate::refusal::Refusal;
use pdu::Pdu;
use text::Fault;

#[derive(Clone, Copy)]
pub struct Header {
    kind: Kind,
    exchange: bool,
    call: CallId,
    bits: u8,
}

// The first four bytes: refused for the kind, the zero bits and the bit of a notice, then for the call identifier.
fn read_header(octets: [u8; 4]) -> Result<Header, Refusal>
    ensures { faults result ≡ reads_header octets }
{
    let number = u32::from_be_bytes(octets);
    let [kind, zero, exchange, call, bits] = split(&HEADER, u64::from(number));
    let kind = Kind::try_from(kind)?;
    let exchange = exchange == 1;
    if zero != 0 || bars_bit(kind, exchange) {
        return Err(Refusal::Header);
    }
    let call = CallId(call);
    if !call.is_in_range() {
        return Err(Refusal::Call);
    }
    Ok(Header {
        kind,
        exchange,
        call,
        bits: bits as u8,
    })
}

fn decode(bytes: &[u8]) -> Result<Frame, Refusal>
    ensures { faults result ≡ reads bytes.now }
{
    if !(4..=32).contains(&bytes.len()) {
        return Err(Refusal::ByteCount(bytes.len()));
    }
    let header = read_header([bytes[0], bytes[1], bytes[2], bytes[3]])?;
    let pdu = Pdu::within(bytes, header.bits)?;
    let body = pdu.body(header.kind)?;
    Ok(Frame {
        exchange: header.exchange,
        call: header.call,
        body,
    })
}

// The content of a frame. The bytes that are accepted are the encoding of their content, and no other bytes have it.
// Faults, in the order of their checks: 11 byte count, 12 and 13 header, 14 length and filling, 15 to 17 PDU.
pub fn read(bytes: &[u8]) -> Result<Frame, Fault>
    ensures outcome { result ≡ reads bytes.now }
    ensures encoding { IfOk result (λ f. Encoding f bytes.now) }
{
    Ok(decode(bytes)?)
}
