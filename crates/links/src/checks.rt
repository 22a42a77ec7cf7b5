// The refusals that links share.
ghost use Rattle.std.specs.Prelude.{◌≡◌};
ghost use Rattle.links.specs.Checks.{frame_checked, taking_checked, memory_checked};

use crate::refusal::Refusal;
use text::Fault;

// The least bytes that a link must be handed for taking, however short its frames.
const TAKING: usize = 32;

// A frame that a link may be sent. Fault 41 for one that is empty or over the longest.
pub fn check_frame(frame: &[u8], longest: usize) -> Result<(), Fault>
    ensures { result ≡ frame_checked longest frame.now }
{
    if !(1..=longest).contains(&frame.len()) {
        return Err(Refusal::FrameLength.into());
    }
    Ok(())
}

// Bytes handed over for taking. Fault 42 for fewer than 32.
pub fn check_taking(out: &[u8]) -> Result<(), Fault>
    ensures { result ≡ taking_checked out.now }
{
    if out.len() < TAKING {
        return Err(Refusal::TakingLength.into());
    }
    Ok(())
}

// How many bytes a ring or a line may be made with. Fault 54 for fewer than 64 or more than 4,096.
pub fn check_memory(bytes: usize) -> Result<(), Fault>
    ensures { result ≡ memory_checked bytes }
{
    if !(64..=4096).contains(&bytes) {
        return Err(Refusal::MemoryLength.into());
    }
    Ok(())
}
