// Up to N bytes. The array is the value's own, since no call may want memory once things are made.
ghost use Rattle.std.specs.Prelude.{◌≡◌, ◌≤◌, length};

mod ops;

#[derive(Clone, Copy)]
pub struct Buffer<const N: usize> {
    bytes: [u8; N],
    len: usize,
    ghost size: { length bytes ≡ N },
    ghost fits: { len ≤ N },
}

// As many bytes as a frame may have.
pub type Octets = Buffer<32>;
