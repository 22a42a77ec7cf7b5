// A queue of at most four frames that hands out each twice and refuses every third send.
ghost use Rattle.std.specs.Prelude.{◌<◌, ◌≤◌, length, vec_items, vec_len, vec_capacity};
ghost use Rattle.std.specs.List.{All};
ghost use Rattle.text.specs.Octets.{held};

use text::Buffer;

mod link;

// `turn` counts the sends since the last that was the third; `again` is set once the first frame has been handed out.
#[derive(Drop)]
pub struct Echo {
    letters: Vec<Buffer<8>>,
    turn: u8,
    again: bool,
    ghost few: { vec_len letters ≤ 4 },
    ghost room: { 4 ≤ vec_capacity letters },
    ghost some: { All (λ l. 0 < length (held l)) (vec_items letters) },
    ghost turns: { turn < 3 },
}
