// The call records of a board: connecting a call, and where users stand.
ghost use Rattle.std.specs.Prelude.{◌≡◌};
ghost use Rattle.records.specs.Changes.{find};
ghost use Rattle.records.specs.Questions.{placed};
ghost use Rattle.switch.specs.Connecting.{connect_checked, connected, place_checked};
ghost use Rattle.switch.specs.Serving.{standing_at};
ghost use Rattle.switch.specs.State.{model};
ghost use Rattle.switch.specs.Tables.{leg_place};

use crate::board::{Board, RECORDS};
use crate::refusal::{Refusal, check_user};
use frames::CallId;
use records::{Record, Side, Standing, place_of};
use register::User;
use text::Fault;

impl Board {
    pub(super) fn record_place(&self, call: CallId) -> Option<usize>
        ensures { result ≡ placed call.0 self.now.records.items }
    {
        place_of(self.records.as_slice(), call)
    }

    // The place of a call's record, and the side of a user who is a party of it.
    pub(super) fn leg_place(&self, user: User, call: CallId) -> Option<(usize, Side)>
        ensures { result ≡ leg_place user.0 call.0 self.now.records.items }
    {
        let i = self.record_place(call)?;
        let side = self.records[i].side_of(user)?;
        Some((i, side))
    }

    pub(super) fn record_of(&self, call: CallId) -> Option<Record>
        ensures { result ≡ find call.0 self.now.records.items }
    {
        let i = self.record_place(call)?;
        Some(self.records[i])
    }

    pub(super) fn standing(&self, user: User, call: CallId) -> Standing
        ensures { result ≡ standing_at (model self.now) user.0 call.0 }
    {
        match self.record_of(call) {
            None => Standing::Absent,
            Some(record) => record.standing(user),
        }
    }

    fn check_place(&self, call: CallId, first: User, second: User) -> Result<(), Fault>
        ensures { result ≡ place_checked (model self.now) call first second }
    {
        check_user(first)?;
        check_user(second)?;
        if first == second {
            return Err(Refusal::OneUserTwice.into());
        }
        if !call.is_in_range() || call.0 <= self.last {
            return Err(Refusal::NoNewIdentifier.into());
        }
        if self.records.len() >= RECORDS {
            return Err(Refusal::RecordsFull.into());
        }
        Ok(())
    }

    pub(crate) fn connect(&mut self, call: CallId, first: User, second: User) -> Result<(), Fault>
        ensures outcome { result ≡ connect_checked (model self.old) call first second }
        ensures state { model self.new ≡ connected (model self.old) call first second }
    {
        self.check_place(call, first, second)?;
        let connected = Record::connect(call, first, second, &mut self.pool);
        let record = connected.ok_or(Refusal::NoChannels)?;
        self.records.push_reserved(record);
        self.last = call.0;
        Ok(())
    }
}
