// A register with one limit for everybody.
ghost use Rattle.std.specs.Prelude.{◌≤◌};

mod ops;

#[derive(Drop)]
pub struct General {
    limit: u8,
    ghost some: { 1 ≤ limit },
    ghost most: { limit ≤ 7 },
}
