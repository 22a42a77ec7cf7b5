// Filling a buffer, and reading it as a slice.
ghost use Rattle.std.specs.Prelude.{◌≡◌, ◌+◌, ◌<◌, [], ◌∷◌, ◌++◌, take};
ghost use Rattle.text.specs.Octets.{held};

use super::Buffer;

impl<const N: usize> Buffer<N> {
    pub fn empty() -> Self
        ensures { held result ≡ [] }
    {
        Buffer {
            bytes: [0; N],
            len: 0,
        }
    }

    // The bytes held.
    pub fn as_slice(&self) -> &[u8]
        ensures { result.now ≡ held self.now }
    {
        &self.bytes[..self.len]
    }

    // The bytes held, followed by more of them, as far as there is room.
    pub fn append(&mut self, more: &[u8])
        ensures { held self.new ≡ take N (held self.old ++ more.now) }
    {
        let count = more.len().min(N - self.len);
        let end = self.len + count;
        let bytes = &mut self.bytes[..];
        bytes[self.len..end].copy_from_slice(&more[..count]);
        self.len = end;
    }

    // One byte more, where there is room.
    pub fn push(&mut self, byte: u8)
        ensures { held self.new ≡ take N (held self.old ++ byte ∷ []) }
    {
        // By itself and not by `append`, whose copy costs more than the byte.
        if self.len < N {
            self.bytes[self.len] = byte;
            self.len += 1;
        }
    }
}
