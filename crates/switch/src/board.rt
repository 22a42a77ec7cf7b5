// The tables of a switch: sessions, call records and channels, with what holds of each by itself.
ghost use Rattle.std.specs.Prelude.{◌≡◌, ◌≤◌, true, vec_len, vec_capacity};
ghost use Rattle.records.specs.Questions.{rising};
ghost use Rattle.switch.specs.Tables.{all_answerable, apart};

use crate::session::Session;
use pool::Pool;
use records::Record;

mod calls;
mod clearing;
mod notifying;
mod requests;
mod serving;
mod sessions;

// The most sessions and the most records.
pub(crate) const SESSIONS: usize = 32;

pub(crate) const RECORDS: usize = 64;

// `last` is the highest identifier ever connected, or 0, which is below every one.
#[derive(Drop)]
pub(crate) struct Board {
    pub(crate) pool: Pool,
    pub(crate) sessions: Vec<Session>,
    pub(crate) records: Vec<Record>,
    pub(crate) last: u16,
    ghost few_sessions: { vec_len sessions ≤ 32 },
    ghost seats: { vec_capacity sessions ≡ 32 },
    ghost users: { apart sessions.items ≡ true },
    ghost answers: { all_answerable sessions.items ≡ true },
    ghost few_records: { vec_len records ≤ 64 },
    ghost room: { vec_capacity records ≡ 64 },
    ghost ids: { rising last records.items ≡ true },
    ghost top: { last ≤ 16383 },
}
