// Lists the lines of an input that comes in chunks.
ghost use Rattle.std.specs.Prelude.{◌≡◌, [], length, string_bytes, OnOk, nat_le, nat_lt};
ghost use Rattle.lister.specs.Kept.{front};
ghost use Rattle.lister.specs.Lines.{most};
ghost use Rattle.lister.specs.Steps.{progress, ended, stepped, fed, finished, Stands, Feeds, Finishes};

use crate::listing::listed;
use std::alloc::{AllocError, Global};
use text::Buffer;

// As many lines are listed at most.
const MOST: u32 = 9_999;

// How many lines have been told, and the first bytes of the line that has not ended: one more than a frame's text may have,
// so that a longer line shows.
#[derive(Clone, Copy)]
pub struct Lister {
    told: u32,
    kept: Buffer<65>,
}

impl Lister {
    // Before any input.
    pub fn new() -> Lister
        ensures { Stands result [] }
    {
        Lister {
            told: 0,
            kept: Buffer::empty(),
        }
    }

    // Whether as many lines as are listed have been told.
    pub fn is_done(&self) -> bool
        ensures { result ≡ nat_le most self.now.told }
    {
        self.told >= MOST
    }

    // Whether the line that has not ended has a byte.
    fn is_open(&self) -> bool
        ensures { result ≡ nat_lt 0 (length (front self.now.kept)) }
    {
        !self.kept.as_slice().is_empty()
    }

    // A line ends: prints it, unless as many as are listed have been told.
    fn end_line(&mut self, heap: Global, out: &mut String) -> Result<(), AllocError>
        ensures { OnOk result (progress self.new (string_bytes out.new) ≡ ended (progress self.old (string_bytes out.old))) }
    {
        if self.told < MOST {
            let number = self.told + 1;
            let text = listed(heap, number, self.kept.as_slice())?;
            out.push_str(text.as_str())?;
            out.push('\n')?;
            self.told = number;
        }
        self.kept = Buffer::empty();
        Ok(())
    }

    // The next byte of the input.
    #[tactic(auto, using(crate::proofs::Inputs::kept_byte))]
    fn step(&mut self, heap: Global, byte: u8, out: &mut String) -> Result<(), AllocError>
        ensures { OnOk result (progress self.new (string_bytes out.new) ≡ stepped (progress self.old (string_bytes out.old)) byte) }
    {
        if byte == b'\n' {
            return self.end_line(heap, out);
        }
        self.kept.push(byte);
        Ok(())
    }

    // The next bytes of the input: appends what is printed of the lines that they end, each with a line feed.
    // Where memory fails, nothing is said of the lister and the text.
    pub fn feed(&mut self, heap: Global, chunk: &[u8], out: &mut String) -> Result<(), AllocError>
        ensures exact { OnOk result (progress self.new (string_bytes out.new) ≡ fed (progress self.old (string_bytes out.old)) chunk.now) }
        ensures law { OnOk result (Feeds self.old self.new chunk.now (string_bytes out.old) (string_bytes out.new)) }
    {
        for byte in chunk {
            self.step(heap, *byte, out)?;
        }
        Ok(())
    }

    // The end of the input: appends what is printed of a last line that has a byte.
    pub fn finish(&mut self, heap: Global, out: &mut String) -> Result<(), AllocError>
        ensures exact { OnOk result (progress self.new (string_bytes out.new) ≡ finished (progress self.old (string_bytes out.old))) }
        ensures law { OnOk result (Finishes self.old self.new (string_bytes out.old) (string_bytes out.new)) }
    {
        if self.is_open() {
            return self.end_line(heap, out);
        }
        Ok(())
    }
}
