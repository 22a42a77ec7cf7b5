// A queue of bytes: made, filled and emptied.
ghost use Rattle.std.specs.Prelude.{◌≡◌, ◌+◌, ◌-◌, ◌<◌, ◌≤◌, [], ◌∷◌, ◌++◌, vec_len, ◌==◌};
ghost use Rattle.links.specs.Queue.{held, place, room, Joined, Left};

use super::ByteQueue;
use crate::checks;

impl ByteQueue {
    // An empty queue; memory that would be turned down counts as 0 bytes.
    pub(crate) fn new(memory: Vec<u8>) -> ByteQueue
        ensures empty { held result ≡ [] }
        ensures size { result.size ≡ room (vec_len memory) }
        ensures kept { result.memory ≡ memory }
    {
        let bytes = memory.len();
        let fit = checks::check_memory(bytes).is_ok();
        ByteQueue {
            memory,
            size: if fit { bytes } else { 0 },
            head: 0,
            used: 0,
        }
    }

    // The memory that was handed over.
    pub(crate) fn into_memory(self) -> Vec<u8>
        ensures { result ≡ self.memory }
    {
        self.memory
    }

    pub(crate) fn free(&self) -> usize
        ensures { result ≡ self.now.size - self.now.used }
    {
        self.size - self.used
    }

    pub(crate) fn is_empty(&self) -> bool
        ensures { result ≡ (self.now.used == 0) }
    {
        self.used == 0
    }

    // The place that stands so many after the first.
    fn place_after(&self, count: usize) -> usize
        requires { count ≤ self.now.size }
        ensures { result ≡ place self.now count }
    {
        let at = self.head + count;
        if at < self.size { at } else { at - self.size }
    }

    // One byte more at the end, where there is room.
    pub(crate) fn push(&mut self, byte: u8)
        requires { self.old.used < self.old.size }
        ensures { Joined self.old self.new (byte ∷ []) }
    {
        let at = self.place_after(self.used);
        self.memory[at] = byte;
        self.used += 1;
    }

    // The first byte, where there is one.
    pub(crate) fn pop(&mut self) -> u8
        requires { 0 < self.old.used }
        ensures { Left self.old self.new (result ∷ []) }
    {
        let byte = self.memory[self.head];
        self.head = self.place_after(1);
        self.used -= 1;
        byte
    }
}
