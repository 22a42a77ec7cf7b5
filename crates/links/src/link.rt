// The meaning of a link, as a trait that links from anywhere may meet.
ghost use Rattle.std.specs.Prelude.{◌≡◌, ℕ, ◌≤◌, List};
ghost use Rattle.links.specs.Meaning.{Framed, Sent, Taken, SendAnswer, TakeAnswer};

use text::Fault;

// How many bytes the longest frame of a link has: 6 to 32.
#[derive(Clone, Copy)]
pub struct Longest {
    pub bytes: usize,
    ghost low: { 6 ≤ bytes },
    ghost high: { bytes ≤ 32 },
}

// A link means the list of frames that wait in it. It may lose frames and hand them out more than once, and keeps their order.
pub trait Link {
    // The longest frame that the link is sent.
    const LONGEST: Longest;

    // the bytes of the longest frame
    ghost longest: { ℕ };

    // the frames that wait
    ghost waits: { Self → List (List ℕ) };

    // what a send may do: the link before, the frame, the link after, the answer
    ghost sends: { Self → List ℕ → Self → SendAnswer → Type 0 };

    // what a take may do: the link and the memory before, both after, and the answer
    ghost takes: { Self → List ℕ → Self → List ℕ → TakeAnswer → Type 0 };

    // The bytes of `LONGEST`, where a clause speaks of them.
    fn longest_frame() -> usize
        ensures { result ≡ longest };

    // Puts a frame after those that wait; the list may be thinned, on a fault too.
    // Faults: 41 for a frame that is empty or over the longest; 43 for any other reason.
    fn send(&mut self, frame: &[u8]) -> Result<(), Fault>
        ensures { sends self.old frame.now self.new result };

    // Writes the first of the frames that wait to the start of `out` and answers its length, or nothing; the list may be thinned.
    // Fault 42 for fewer than 32 bytes, whatever the longest frame; it changes nothing.
    fn take(&mut self, out: &mut [u8]) -> Result<Option<usize>, Fault>
        ensures { takes self.old out.old self.new out.new result };

    ghost low: { 6 ≤ longest };

    ghost high: { longest ≤ 32 };

    ghost framed: { (a : Self) → Framed (waits a) };

    ghost sent: { (a : Self) (f : List ℕ) (b : Self) (r : SendAnswer) → sends a f b r → Sent longest f (waits a) (waits b) r };

    ghost taken: { (a : Self) (m : List ℕ) (b : Self) (n : List ℕ) (r : TakeAnswer) → takes a m b n r → Taken longest m n (waits a) (waits b) r };
}
