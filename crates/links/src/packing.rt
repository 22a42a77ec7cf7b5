// How frames stand in a queue of bytes. Only this crate has packings, since the queue is its own.
ghost use Rattle.std.specs.Prelude.{◌≡◌, ℕ, ◌+◌, ◌≤◌, ◌++◌, length, drop};
ghost use Rattle.links.specs.Lawful.{Lawful};
ghost use Rattle.links.specs.Packing as specs;
ghost use Rattle.links.specs.Queue.{held, Joined, Left};

use crate::queue::ByteQueue;

pub trait Packing {
    // The bytes of the longest frame.
    const LONGEST: usize;

    ghost LONGEST: { ℕ };

    ghost packing: { specs.Packing };

    // What a frame costs.
    fn cost(frame: &[u8]) -> usize
        requires { length frame.now ≤ packing.longest }
        ensures { result ≡ packing.cost frame.now };

    // One frame more at the end, where there is room.
    fn put(queue: &mut ByteQueue, frame: &[u8])
        requires short { length frame.now ≤ packing.longest }
        requires fits { queue.old.used + packing.cost frame.now ≤ queue.old.size }
        ensures { Joined queue.old queue.new (packing.written frame.now) };

    // The first frame, written to the start of `out`: its length.
    fn get(queue: &mut ByteQueue, out: &mut [u8]) -> usize
        requires begins { specs.Begins packing (held queue.old) }
        requires room { 32 ≤ length out.old }
        ensures long { result ≡ length (packing.first (held queue.old)) }
        ensures out { out.new ≡ packing.first (held queue.old) ++ drop result out.old }
        ensures left { Left queue.old queue.new (packing.written (packing.first (held queue.old))) };

    ghost longest: { LONGEST ≡ packing.longest };

    ghost lawful: { Lawful packing };
}
