// A pool of 1 to 128 channels, and how many of them are in use.
ghost use Rattle.std.specs.Prelude.{◌≤◌};

mod ops;

#[derive(Drop)]
pub struct Pool {
    size: u8,
    used: u8,
    ghost some: { 1 ≤ size },
    ghost most: { size ≤ 128 },
    ghost within: { used ≤ size },
}
