// The fault layer as a link.
ghost use Rattle.std.specs.Prelude.{◌≡◌};
ghost use Rattle.links.specs.Faulty.{Faulted, PassedOn};
ghost use Rattle.links.specs.Layer.{faulted};

use super::Faulty;
use crate::checks;
use crate::link::{Link, Longest};
use text::Fault;

impl<L: Link> Faulty<L> {
    // The layer over a link, before its first send.
    pub fn new(lower: L, lost: u64, doubled: u64) -> Faulty<L>
        ensures lower { result.lower ≡ lower }
        ensures lost { result.lost ≡ lost }
        ensures doubled { result.doubled ≡ doubled }
        ensures count { result.count ≡ 0 }
    {
        Faulty {
            lower,
            lost,
            doubled,
            count: 0,
        }
    }

    // The link below.
    pub fn into_lower(self) -> L
        ensures { result ≡ self.lower }
    {
        let Faulty {
            lower,
            lost: _,
            doubled: _,
            count: _,
        } = self;
        lower
    }
}

impl<L: Link> Link for Faulty<L> {
    const LONGEST: Longest = L::LONGEST;

    ghost longest = { L.Link.longest };

    ghost waits = { λ a. L.Link.waits a.lower };

    ghost sends = { λ a f b r. Faulted L.Link.sends L.Link.longest a f b r };

    ghost takes = { λ a m b n r. PassedOn L.Link.takes a m b n r };

    ghost low = { L.Link.low };

    ghost high = { L.Link.high };

    ghost framed = { λ a. L.Link.framed a.lower };

    ghost sent = { λ a f b r k. faulted L.Link.sends L.Link.waits L.Link.longest L.Link.sent a f b r k };

    ghost taken = { λ a m b n r k. L.Link.taken a.lower m b.lower n r k.below };

    fn longest_frame() -> usize {
        L::longest_frame()
    }

    // A lost send is accepted; a doubled one answers as its first copy, without a second if that is refused.
    // Faults: 41 for a frame that is empty or over the longest, which is not counted; then those of the link below.
    fn send(&mut self, frame: &[u8]) -> Result<(), Fault> {
        checks::check_frame(frame, L::longest_frame())?;
        let k = self.count;
        self.count = (k + 1) % 64;
        if (self.lost >> k) & 1 == 1 {
            return Ok(());
        }
        self.lower.send(frame)?;
        if (self.doubled >> k) & 1 == 1 {
            let _ = self.lower.send(frame);
        }
        Ok(())
    }

    // Passed on to the link below, and not counted.
    fn take(&mut self, out: &mut [u8]) -> Result<Option<usize>, Fault> {
        self.lower.take(out)
    }
}
