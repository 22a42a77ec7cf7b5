// Fields of bits one after the other, the first bit highest: joined into a number, and taken out of one again.
ghost use Rattle.std.specs.Prelude.{◌≡◌, ◌^◌, ◌<◌, ◌≤◌, length};
ghost use Rattle.frames.specs.Bits.{field, Fit, Narrow, total, joined, sum, parts};

#[derive(Clone, Copy)]
pub struct Field {
    pub width: u32,
    pub value: u16,
}

impl Field {
    pub(crate) fn new(width: u32, value: u16) -> Field
        ensures { result ≡ field width value }
    {
        Field { width, value }
    }
}

// How many bits the fields have together.
pub(crate) fn total(fields: &[Field]) -> u32
    requires { total fields.now ≤ 32 }
    ensures { result ≡ total fields.now }
{
    fields.iter().map(|f| f.width).sum()
}

// The number whose bits are those of the fields.
pub(crate) fn join(fields: &[Field]) -> u64
    requires fit { Fit fields.now }
    requires short { total fields.now ≤ 32 }
    ensures value { result ≡ joined fields.now }
    ensures small { result < 2 ^ total fields.now }
{
    // A loop, since the closure of a `fold` would have to know of every field that its width can be shifted by.
    let mut number = 0;
    for f in fields {
        number = (number << f.width) + u64::from(f.value);
    }
    number
}

// The fields of these widths that the bits of a number are.
pub(crate) fn split<const N: usize>(widths: &[u32; N], number: u64) -> [u16; N]
    requires narrow { Narrow widths.now }
    requires short { sum widths.now ≤ 32 }
    requires small { number < 2 ^ sum widths.now }
    ensures { result ≡ parts widths.now number }
{
    let mut left: u32 = widths.iter().sum();
    let mut rest = number;
    let mut out = [0u16; N];
    // By index: of places lent by an adapter of `iter_mut`, as `zip`, a proof knows no more than how many there are.
    for (i, width) in widths.iter().enumerate() {
        left -= *width;
        out[i] = (rest >> left) as u16;
        rest %= 1 << left;
    }
    out
}
