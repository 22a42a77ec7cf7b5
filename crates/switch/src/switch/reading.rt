// What a switch shows of its state.
ghost use Rattle.std.specs.Prelude.{◌≡◌, ◌≤◌, true, length};
ghost use Rattle.records.specs.Questions.{rising};
ghost use Rattle.switch.specs.Laws.{Within};
ghost use Rattle.switch.specs.State.{state};
ghost use Rattle.switch.specs.Tables.{apart, lawful, legs_not_on_hold};

use super::Switch;
use crate::session::Session;
use records::Record;
use register::Register;

impl<R: Register> Switch<R> {
    // The sessions, at most 32, no two of one user.
    pub fn sessions(&self) -> &[Session]
        ensures sessions { result.now ≡ (state self.now).sessions }
        ensures few { length result.now ≤ 32 }
        ensures apart { apart result.now ≡ true }
    {
        self.board.sessions.as_slice()
    }

    // The records, at most 64, in rising identifiers; a leg on hold is a user's with a session, a cleared call has no channel, and nobody
    // has more calls on hold than his limit.
    pub fn records(&self) -> &[Record]
        ensures records { result.now ≡ (state self.now).records }
        ensures few { length result.now ≤ 64 }
        ensures rising { rising (state self.now).last result.now ≡ true }
        ensures lawful { lawful (state self.now).sessions result.now ≡ true }
        ensures limits { Within (R.Register.limit self.now.register) (state self.now) }
    {
        self.board.records.as_slice()
    }

    // The channels in use: as many as there are legs not on hold in live calls, and never more than the pool has.
    pub fn channels_in_use(&self) -> u8
        ensures used { result ≡ (state self.now).used }
        ensures legs { result ≡ legs_not_on_hold (state self.now).records }
        ensures within { result ≤ (state self.now).size }
    {
        self.board.pool.in_use()
    }

    // The channels of the pool.
    pub fn channels(&self) -> u8
        ensures { result ≡ (state self.now).size }
    {
        self.board.pool.size()
    }

    // The highest identifier ever connected, 0 before the first.
    pub fn last_identifier(&self) -> u16
        ensures { result ≡ (state self.now).last }
    {
        self.board.last
    }
}
