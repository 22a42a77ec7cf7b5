// A frame as a line of text.
ghost use Rattle.std.specs.Prelude.{◌≡◌, IfOk, Ok};
ghost use Rattle.frames.specs.Examples.{examples, HoldTrue};
ghost use Rattle.frames.specs.Line.{reads_line, writes_line};

use crate::content::Frame;
use crate::reader::read;
use text::{Fault, read_text};

// The content of a frame that a line of text spells; the line is the text of its encoding.
// Faults: those of the text, then those of the frame.
pub fn read_line(line: &[u8]) -> Result<Frame, Fault>
    ensures outcome { result ≡ reads_line line.now }
    ensures anew { IfOk result (λ f. writes_line f ≡ Ok line.now) }
    ensures examples { HoldTrue examples }
{
    let octets = read_text(line)?;
    read(octets.as_slice())
}
