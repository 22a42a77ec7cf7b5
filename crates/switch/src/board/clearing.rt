// Clearing calls.
ghost use Rattle.std.specs.Prelude.{◌≡◌, true};
ghost use Rattle.records.specs.Changes.{cleared, cleared_by, find, for_user};
ghost use Rattle.switch.specs.Clearing.{clear_told, clears, freeing, legs_in, party_clears, party_legs, takes_part};
ghost use Rattle.switch.specs.Serving.{standing_at};
ghost use Rattle.switch.specs.State.{model};

use crate::board::Board;
use crate::refusal::Refusal;
use frames::CallId;
use records::{HeldLegs, Standing};
use register::User;
use text::Fault;

impl Board {
    // Ends a call, if it is there: both parties have the news of it.
    fn end(&mut self, call: CallId)
        ensures state { model self.new ≡ freeing cleared call.0 (model self.old) }
    {
        if let Some(i) = self.record_place(call) {
            self.records[i].clear(&mut self.pool);
        }
    }

    fn end_for(&mut self, user: User, call: CallId)
        requires party { takes_part (standing_at (model self.old) user.0 call.0) ≡ true }
        ensures state { model self.new ≡ freeing (for_user cleared_by user.0) call.0 (model self.old) }
    {
        if let Some((i, side)) = self.leg_place(user, call) {
            self.records[i].clear_by(side, &mut self.pool);
        }
    }

    // Which legs of a call are on hold; neither of one that is not there.
    fn legs_of(&self, call: CallId) -> HeldLegs
        ensures { result ≡ legs_in (find call.0 self.now.records.items) }
    {
        match self.record_of(call) {
            None => HeldLegs::Neither,
            Some(record) => record.held_legs(),
        }
    }

    // Clears a call for a user; of a call not there it does nothing, and neither leg was on hold.
    pub(super) fn clear_for(&mut self, user: User, call: CallId) -> HeldLegs
        ensures outcome { result ≡ party_legs (standing_at (model self.old) user.0 call.0) (find call.0 self.old.records.items) }
        ensures state { model self.new ≡ party_clears (standing_at (model self.old) user.0 call.0) user.0 call.0 (model self.old) }
    {
        match self.standing(user, call) {
            Standing::Absent => HeldLegs::Neither,
            Standing::Talking | Standing::OnHold => {
                let held = self.legs_of(call);
                self.end_for(user, call);
                held
            }
        }
    }

    // Clears a call for the network; 38 for one that is not live.
    pub(crate) fn clear(&mut self, call: CallId) -> Result<HeldLegs, Fault>
        ensures outcome { result ≡ clear_told (model self.old) call }
        ensures state { model self.new ≡ clears (model self.old) call }
    {
        match self.record_of(call) {
            Some(record) if record.live => {
                self.end(call);
                Ok(record.held_legs())
            }
            _ => Err(Refusal::NotLive.into()),
        }
    }
}
