// The line link: a frame stands in the memory as a line of text.
ghost use Rattle.std.specs.Prelude.{refl, ◌≡◌, ◌+◌, ◌≤◌};
ghost use Rattle.text.specs.Hex.{pair};
ghost use Rattle.links.specs.Line.{Rest, NextByte, in_lines};
ghost use Rattle.links.specs.LineLaws.{lawful};
ghost use Rattle.links.specs.Packing.{frames};
ghost use Rattle.links.specs.Queue.{held, Joined};
ghost use Rattle.links.specs.SoundFrames;
ghost use Rattle.links.specs.Store.{Stores, HandsOut};
ghost use Rattle.links.specs.Stores.{stores_sent, hands_taken};

use crate::link::{Link, Longest};
use crate::packing::Packing;
use crate::queue::ByteQueue;
use crate::stored::Stored;
use text::Fault;

// Its longest frame is 32 bytes; a frame costs twice its length and 1.
pub type Line = Stored<InLines>;

// Two hexadecimal digits for each byte of a frame, then a line feed.
pub struct InLines;

const LINE_FEED: u8 = b'\n';

// The two digits of a byte, where there is room.
fn put_digits(queue: &mut ByteQueue, byte: u8)
    requires fits { queue.old.used + 2 ≤ queue.old.size }
    ensures { Joined queue.old queue.new (pair byte) }
{
    let [high, low] = text::digits(byte);
    queue.push(high);
    queue.push(low);
}

// The next byte of a line, or nothing at its line feed.
fn pop_byte(queue: &mut ByteQueue) -> Option<u8>
    requires { Rest (held queue.old) }
    ensures { NextByte queue.old queue.new result }
{
    let high = queue.pop();
    if high == LINE_FEED {
        return None;
    }
    text::byte(high, queue.pop())
}

impl Packing for InLines {
    const LONGEST: usize = 32;

    ghost packing = { in_lines };

    ghost LONGEST = { 32 };

    ghost longest = { refl };

    ghost lawful = { lawful };

    fn cost(frame: &[u8]) -> usize {
        2 * frame.len() + 1
    }

    fn put(queue: &mut ByteQueue, frame: &[u8]) {
        for &byte in frame {
            put_digits(queue, byte);
        }
        queue.push(LINE_FEED);
    }

    fn get(queue: &mut ByteQueue, out: &mut [u8]) -> usize {
        // Counted by hand: an iterator over `out` would end before the line feed of a frame that fills it.
        let mut n = 0;
        while let Some(byte) = pop_byte(queue) {
            out[n] = byte;
            n += 1;
        }
        n
    }
}

impl Link for Line {
    const LONGEST: Longest = Longest { bytes: 32 };

    ghost longest = { 32 };

    ghost waits = { λ a. frames in_lines a.queue };

    ghost sends = { λ a f b r. Stores in_lines a.queue f b.queue r };

    ghost takes = { λ a m b n r. HandsOut in_lines a.queue m b.queue n r };

    ghost low = { lawful.low };

    ghost high = { lawful.high };

    ghost framed = { λ a. SoundFrames.framed in_lines (frames in_lines a.queue) lawful.high a.packed.framed };

    ghost sent = { λ a f b r k. stores_sent in_lines a.queue f b.queue r k };

    ghost taken = { λ a m b n r k. hands_taken in_lines a.queue m b.queue n r a.packed.framed k };

    fn longest_frame() -> usize {
        Self::LONGEST.bytes
    }

    fn send(&mut self, frame: &[u8]) -> Result<(), Fault> {
        self.enqueue(frame)
    }

    fn take(&mut self, out: &mut [u8]) -> Result<Option<usize>, Fault> {
        self.dequeue(out)
    }
}
