// What the ring and the line do with their queue of bytes, at any packing of frames: an accepted frame waits once and is handed out once.
ghost use Rattle.std.specs.Prelude.{◌≡◌, ◌-◌, ◌≤◌, false, [], ◌∷◌, ◌++◌, vec_len};
ghost use Rattle.links.specs.Checks.{unfit, short};
ghost use Rattle.links.specs.Packing.{Packed, costs, frames};
ghost use Rattle.links.specs.Queue.{room, SameMemory};
ghost use Rattle.links.specs.Store.{Stores, HandsOut};

use crate::checks;
use crate::packing::Packing;
use crate::queue::ByteQueue;
use crate::refusal::Refusal;
use std::marker::PhantomData;
use text::Fault;

#[derive(Drop)]
pub struct Stored<P: Packing> {
    queue: ByteQueue,
    packing: PhantomData<P>,
    ghost packed: { Packed P.packing queue },
}

impl<P: Packing> Stored<P> {
    // An empty link in the memory; memory that `check_memory` refuses counts as 0 bytes.
    pub fn new(memory: Vec<u8>) -> Stored<P>
        ensures waits { frames P.packing result.queue ≡ [] }
        ensures size { result.queue.size ≡ room (vec_len memory) }
        ensures memory { result.queue.memory ≡ memory }
    {
        Stored {
            queue: ByteQueue::new(memory),
            packing: PhantomData,
        }
    }

    // The memory that was handed over; what waits is lost.
    pub fn into_memory(self) -> Vec<u8>
        ensures { result ≡ self.queue.memory }
    {
        self.queue.into_memory()
    }

    // How many bytes are free.
    fn free(&self) -> usize
        ensures { result ≡ self.now.queue.size - costs P.packing (frames P.packing self.now.queue) }
    {
        self.queue.free()
    }

    // One frame more at the end, where there is room.
    fn put(&mut self, frame: &[u8])
        requires fit { unfit P.packing.longest frame.now ≡ false }
        requires room { P.packing.cost frame.now ≤ self.old.queue.size - costs P.packing (frames P.packing self.old.queue) }
        ensures waits { frames P.packing self.new.queue ≡ frames P.packing self.old.queue ++ frame.now ∷ [] }
        ensures memory { SameMemory self.old.queue self.new.queue }
    {
        P::put(&mut self.queue, frame);
    }

    // The first frame, if there is one, to the start of `out`: its length.
    fn get(&mut self, out: &mut [u8]) -> Option<usize>
        requires { short out.old ≡ false }
        ensures { HandsOut P.packing self.old.queue out.old self.new.queue out.new (Ok result) }
    {
        if self.queue.is_empty() {
            return None;
        }
        Some(P::get(&mut self.queue, out))
    }

    // One frame more, after the others.
    // Faults: 41 for a frame that is empty or over the longest; 43 where it costs more than is free. A fault changes nothing.
    pub(crate) fn enqueue(&mut self, frame: &[u8]) -> Result<(), Fault>
        ensures { Stores P.packing self.old.queue frame.now self.new.queue result }
    {
        checks::check_frame(frame, P::LONGEST)?;
        if P::cost(frame) > self.free() {
            return Err(Refusal::Declined.into());
        }
        self.put(frame);
        Ok(())
    }

    // The first of the frames that wait, or nothing if none does.
    // Fault 42 for fewer than 32 bytes; it changes nothing.
    pub(crate) fn dequeue(&mut self, out: &mut [u8]) -> Result<Option<usize>, Fault>
        ensures { HandsOut P.packing self.old.queue out.old self.new.queue out.new result }
    {
        checks::check_taking(out)?;
        Ok(self.get(out))
    }
}
