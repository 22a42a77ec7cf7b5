// Frames put into a link and taken out of it.
ghost use Rattle.std.specs.Prelude.{◌≡◌, ◌≤◌, length, Some};
ghost use Rattle.signalling.specs.Carrying.{pulled, Pulling, Posting};

use frames::{Frame, read, write};
use links::Link;
use text::Fault;

// The frame that a take left in the first bytes of the memory.
fn read_first(memory: &[u8], count: usize) -> Result<Option<Frame>, Fault>
    requires { count ≤ length memory.now }
    ensures { result ≡ pulled memory.now (Some count) }
{
    read(&memory[..count]).map(Some)
}

// Takes one frame from a link and reads it; nothing if none waits.
// Faults, for which the frame is taken: 11 to 17 of a frame that cannot be read.
pub fn pull<L: Link>(link: &mut L) -> Result<Option<Frame>, Fault>
    ensures { Pulling L.Link.takes link.old link.new result }
{
    let mut memory = [0u8; 32];
    let Some(count) = link.take(&mut memory)? else {
        return Ok(None);
    };
    read_first(&memory, count)
}

// Writes a frame and sends it.
// Faults: 12, 13 and 17 of a frame that cannot be written, which leave the link alone; then the link's.
pub fn post<L: Link>(link: &mut L, frame: Frame) -> Result<(), Fault>
    ensures { Posting L.Link.sends frame link.old link.new result }
{
    let octets = write(&frame)?;
    link.send(octets.as_slice())
}
