// The ring link: a frame stands in the memory as its length and its bytes.
ghost use Rattle.std.specs.Prelude.{refl, ◌≡◌};
ghost use Rattle.links.specs.Packing.{frames};
ghost use Rattle.links.specs.Ring.{in_ring};
ghost use Rattle.links.specs.RingLaws.{lawful};
ghost use Rattle.links.specs.SoundFrames;
ghost use Rattle.links.specs.Store.{Stores, HandsOut};
ghost use Rattle.links.specs.Stores.{stores_sent, hands_taken};

use crate::link::{Link, Longest};
use crate::packing::Packing;
use crate::queue::ByteQueue;
use crate::stored::Stored;
use text::Fault;

// Its longest frame is 16 bytes; a frame costs its length and 1.
pub type Ring = Stored<InRing>;

// The length of a frame, then its bytes.
pub struct InRing;

impl Packing for InRing {
    const LONGEST: usize = 16;

    ghost packing = { in_ring };

    ghost LONGEST = { 16 };

    ghost longest = { refl };

    ghost lawful = { lawful };

    fn cost(frame: &[u8]) -> usize {
        frame.len() + 1
    }

    fn put(queue: &mut ByteQueue, frame: &[u8]) {
        queue.push(frame.len() as u8);
        for &byte in frame {
            queue.push(byte);
        }
    }

    fn get(queue: &mut ByteQueue, out: &mut [u8]) -> usize {
        let n = usize::from(queue.pop());
        for slot in out[..n].iter_mut() {
            *slot = queue.pop();
        }
        n
    }
}

// By itself, as that of the line: no clause reads the constant of an `impl` that is generic over the packing.
impl Link for Ring {
    const LONGEST: Longest = Longest { bytes: 16 };

    ghost longest = { 16 };

    ghost waits = { λ a. frames in_ring a.queue };

    ghost sends = { λ a f b r. Stores in_ring a.queue f b.queue r };

    ghost takes = { λ a m b n r. HandsOut in_ring a.queue m b.queue n r };

    ghost low = { lawful.low };

    ghost high = { lawful.high };

    ghost framed = { λ a. SoundFrames.framed in_ring (frames in_ring a.queue) lawful.high a.packed.framed };

    ghost sent = { λ a f b r k. stores_sent in_ring a.queue f b.queue r k };

    ghost taken = { λ a m b n r k. hands_taken in_ring a.queue m b.queue n r a.packed.framed k };

    fn longest_frame() -> usize {
        Self::LONGEST.bytes
    }

    fn send(&mut self, frame: &[u8]) -> Result<(), Fault> {
        self.enqueue(frame)
    }

    fn take(&mut self, out: &mut [u8]) -> Result<Option<usize>, Fault> {
        self.dequeue(out)
    }
}
