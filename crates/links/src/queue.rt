// Bytes that wait in memory handed over, first in, first out; what goes past the end of the memory goes on at its start.
ghost use Rattle.std.specs.Prelude.{◌-◌, ◌≤◌, vec_len};

mod ops;

// The memory is the caller's, taken at the making and handed back at the end, so the queue is this crate's own and no `VecDeque`. It has no model: a refused call
// leaves every byte of it as it was, those that do not wait too. `size` bytes of the memory count, `used` of them are taken, from `head` on.
#[derive(Drop)]
pub struct ByteQueue {
    memory: Vec<u8>,
    size: usize,
    head: usize,
    used: usize,
    ghost small: { size ≤ 4096 },
    ghost within: { size ≤ vec_len memory },
    ghost start: { head ≤ size - 1 },
    ghost fits: { used ≤ size },
}
