// A switch's state.
ghost use Rattle.std.specs.Prelude.{◌≡◌, true, vec_len};
ghost use Rattle.switch.specs.Tables.{WithinLimits, lawful, legs_not_on_hold};

use crate::board::Board;
use register::Register;

mod calls;
mod making;
mod reading;

// What a switch is made of, but for its register: an empty board.
#[derive(Drop)]
pub struct Parts {
    pub(crate) board: Board,
    ghost sessions: { vec_len board.sessions ≡ 0 },
    ghost records: { vec_len board.records ≡ 0 },
    ghost last: { board.last ≡ 0 },
    ghost used: { board.pool.used ≡ 0 },
}

#[derive(Drop)]
pub struct Switch<R: Register> {
    register: R,
    board: Board,
    ghost legs: { lawful board.sessions.items board.records.items ≡ true },
    ghost used: { board.pool.used ≡ legs_not_on_hold board.records.items },
    ghost limits: { WithinLimits (R.Register.limit register) board.records.items },
}
