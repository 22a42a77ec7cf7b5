// Hexadecimal digits: bytes as pairs of the digits 0–9 and A–F, and back.
ghost use Rattle.std.specs.Prelude.{◌≡◌, ◌<◌, true, length};
ghost use Rattle.text.specs.Hex.{digit, digit_of, entry_says, every, right, pair, byte_of};

use crate::values::{NO_DIGIT, VALUES};

// The entry for a byte of a table that passes the test at every entry.
fn entry(values: &[u8; 256], byte: u8) -> u8
    requires tested { every right 0 values.now ≡ true }
    requires long { length values.now ≡ 256 }
    ensures { entry_says result ≡ digit_of byte }
{
    values[byte as usize]
}

// The value of a digit; none for a byte that is no digit.
pub fn digit_value(byte: u8) -> Option<u8>
    ensures { result ≡ digit_of byte }
{
    let value = entry(&VALUES, byte);
    (value != NO_DIGIT).then_some(value)
}

// The digit of a value below 16.
fn digit_for(value: u8) -> u8
    requires { value < 16 }
    ensures { result ≡ digit value }
{
    if value < 10 {
        b'0' + value
    } else {
        b'A' + (value - 10)
    }
}

// The two digits of a byte, the high one first.
pub fn digits(byte: u8) -> [u8; 2]
    ensures { result ≡ pair byte }
{
    [digit_for(byte / 16), digit_for(byte % 16)]
}

// The byte that two digits write; none where one of them is no digit.
pub fn byte(high: u8, low: u8) -> Option<u8>
    ensures { result ≡ byte_of high low }
{
    let high = digit_value(high)?;
    let low = digit_value(low)?;
    Some(high * 16 + low)
}
