// The queue as a link.
ghost use Rattle.std.specs.Prelude.{◌≡◌, [], IfOk};
ghost use Rattle.links.specs.Meaning.{Sent, Taken};
ghost use Rattle.outside_link.specs.Echo.{waiting};
ghost use Rattle.outside_link.specs.Framed;
ghost use Rattle.std.proofs.Math.Dec.{lit≤};

use super::Echo;
use links::{Link, Longest, Refusal};
use std::alloc::{AllocError, Global};
use text::{Buffer, Fault};

impl Echo {
    // An empty queue, with memory for four frames; no later call wants any.
    pub fn new(heap: Global) -> Result<Echo, AllocError>
        ensures { IfOk result (λ e. waiting e ≡ []) }
    {
        let letters = Vec::with_capacity(heap, 4)?;
        Ok(Echo {
            letters,
            turn: 0,
            again: false,
        })
    }
}

impl Link for Echo {
    const LONGEST: Longest = Longest { bytes: 8 };

    ghost longest = { 8 };

    ghost waits = { waiting };

    ghost sends = { λ a f b r. Sent 8 f (waiting a) (waiting b) r };

    ghost takes = { λ a m b n r. Taken 8 m n (waiting a) (waiting b) r };

    ghost low = { lit≤ tt };

    ghost high = { lit≤ tt };

    ghost framed = { λ a. Framed.framed a.letters.items a.some };

    ghost sent = { λ a f b r k. k };

    ghost taken = { λ a m b n r k. k };

    fn longest_frame() -> usize {
        Self::LONGEST.bytes
    }

    fn send(&mut self, frame: &[u8]) -> Result<(), Fault> {
        links::check_frame(frame, 8)?;
        let third = self.turn == 2;
        self.turn = (self.turn + 1) % 3;
        if third {
            return Err(Refusal::Declined.into());
        }
        if self.letters.len() == 4 {
            return Err(Refusal::Declined.into());
        }
        let mut letter = Buffer::empty();
        letter.append(frame);
        self.letters.push_reserved(letter);
        Ok(())
    }

    fn take(&mut self, out: &mut [u8]) -> Result<Option<usize>, Fault> {
        links::check_taking(out)?;
        let Some(&first) = self.letters.first() else {
            return Ok(None);
        };
        let frame = first.as_slice();
        out[..frame.len()].copy_from_slice(frame);
        if self.again {
            self.letters.remove(0);
        }
        self.again = !self.again;
        Ok(Some(frame.len()))
    }
}
