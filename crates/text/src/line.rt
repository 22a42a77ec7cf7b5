// Bytes as a line of text: pairs of hexadecimal digits.
ghost use Rattle.std.specs.Prelude.{◌≡◌, ◌<◌, ◌≤◌, ◌++◌, length, IfOk, string_bytes, OnOk};
ghost use Rattle.text.specs.Laws.{Spelling};
ghost use Rattle.text.specs.Octets.{held};
ghost use Rattle.text.specs.Text.{reads_text, text, checks_size, digit_at, byte_at, told_octets};
ghost use Rattle.text.specs.Hex.{pair};

use crate::buffer::Octets;
use crate::fault::Fault;
use crate::hex;
use crate::refusal::LineRefusal;
use std::alloc::{AllocError, Global};

// The value of a digit at a place, or fault 3 with that place.
fn digit_at(digit: u8, at: usize) -> Result<u8, Fault>
    ensures value { result ≡ digit_at at digit }
    ensures small { IfOk result (λ v. v < 16) }
{
    Ok(hex::digit_value(digit).ok_or(LineRefusal::NoDigit(at))?)
}

// 1 for a line of over 64 bytes, 2 for an empty or odd one.
fn check_size(len: usize) -> Result<(), Fault>
    ensures { result ≡ checks_size len }
{
    if len > 64 {
        return Err(LineRefusal::TooLong.into());
    }
    if len == 0 || len % 2 == 1 {
        return Err(LineRefusal::NotInPairs(len).into());
    }
    Ok(())
}

// The byte that two digits at a place and the next spell.
fn byte_at(high: u8, low: u8, at: usize) -> Result<u8, Fault>
    requires { at < usize.MAX }
    ensures { result ≡ byte_at at high low }
{
    let high = digit_at(high, at)?;
    let low = digit_at(low, at + 1)?;
    Ok(high * 16 + low)
}

// The bytes that a line of text spells. No other line spells them.
// Faults, in the order of their checks: 1 over 64 bytes (place 64), 2 empty or odd (its byte count), 3 no digit (the index of the first).
pub fn read_text(line: &[u8]) -> Result<Octets, Fault>
    ensures outcome { told_octets result ≡ reads_text line.now }
    ensures spelling { IfOk result (λ o. Spelling (held o) line.now) }
{
    check_size(line.len())?;
    let (pairs, _) = line.as_chunks::<2>();
    let mut octets = Octets::empty();
    for (i, &[high, low]) in pairs.iter().enumerate() {
        octets.push(byte_at(high, low, 2 * i)?);
    }
    Ok(octets)
}

fn push_byte(out: &mut String, byte: u8) -> Result<(), AllocError>
    ensures { OnOk result (string_bytes out.new ≡ string_bytes out.old ++ pair byte) }
{
    let [high, low] = hex::digits(byte);
    out.push(high as char)?;
    out.push(low as char)?;
    Ok(())
}

// The digits of bytes, two for each, the high one first. As many bytes as a frame may have read back from them.
pub fn write_text(heap: Global, bytes: &[u8]) -> Result<String, AllocError>
    ensures outcome { IfOk result (λ s. string_bytes s ≡ text bytes.now) }
    ensures spelling { 0 < length bytes.now → length bytes.now ≤ 32 → IfOk result (λ s. Spelling bytes.now (string_bytes s)) }
{
    let mut out = String::new(heap);
    for b in bytes {
        push_byte(&mut out, *b)?;
    }
    Ok(out)
}
