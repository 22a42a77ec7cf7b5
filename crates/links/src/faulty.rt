// The fault layer: a link over any link that loses and doubles sends by two patterns of 64 bits.
ghost use Rattle.std.specs.Prelude.{◌<◌};

use crate::link::Link;

mod link;

// Sends are counted from 0 and start over after 63. Send k is lost if bit k of `lost` is set, 0 the lowest; else it is sent twice if bit k of `doubled` is.
#[derive(Drop)]
pub struct Faulty<L: Link> {
    lower: L,
    lost: u64,
    doubled: u64,
    count: u32,
    ghost below: { count < 64 },
}
