// Carrying out requests.
ghost use Rattle.std.specs.Prelude.{◌≡◌, true, false, not, Some, ◌==◌};
ghost use Rattle.frames.specs.Layout.{no_call};
ghost use Rattle.frames.specs.declared.content.Verdict.TheVariants.{Granted};
ghost use Rattle.records.specs.declared.legs.Standing.TheVariants.{Talking, OnHold};
ghost use Rattle.switch.specs.Serving.{handled_of, holds, on_hold, on_retrieve, retrieve_verdict, retrieves, standing_at, state_of};
ghost use Rattle.switch.specs.State.{model};
ghost use Rattle.switch.specs.Tables.{answerable};

use crate::board::Board;
use crate::told::Handled;
use frames::{CallId, Cause, Operation, Verdict};
use records::{Standing, held_by};
use register::User;
use signalling::Ask;

impl Board {
    fn put_on_hold(&mut self, user: User, call: CallId)
        requires talking { standing_at (model self.old) user.0 call.0 ≡ Talking }
        ensures state { model self.new ≡ holds Granted user.0 call.0 (model self.old) }
    {
        if let Some((i, side)) = self.leg_place(user, call) {
            self.records[i].hold(side, &mut self.pool);
        }
    }

    // Gives the leg of a user on hold a channel, if one is free; answers whether it has one.
    fn take_off_hold(&mut self, user: User, call: CallId) -> bool
        requires held { standing_at (model self.old) user.0 call.0 ≡ OnHold }
        ensures outcome { result ≡ not (self.old.pool.used == self.old.pool.size) }
        ensures state { model self.new ≡ retrieves (retrieve_verdict OnHold (self.old.pool.used == self.old.pool.size)) user.0 call.0 (model self.old) }
    {
        match self.leg_place(user, call) {
            None => false,
            Some((i, side)) => self.records[i].retrieve(side, &mut self.pool),
        }
    }

    fn hold(&mut self, limit: u8, user: User, call: CallId) -> Verdict
        ensures outcome { result ≡ on_hold limit (model self.old) user.0 call.0 }
        ensures state { model self.new ≡ holds (on_hold limit (model self.old) user.0 call.0) user.0 call.0 (model self.old) }
    {
        match self.standing(user, call) {
            Standing::Absent => Verdict::Declined(Cause::CallNotThere),
            Standing::OnHold => Verdict::Declined(Cause::AlreadyOnHold),
            Standing::Talking if limit == 0 => Verdict::Declined(Cause::NotSubscribed),
            Standing::Talking if held_by(self.records.as_slice(), user) >= usize::from(limit) => {
                Verdict::Declined(Cause::LimitReached)
            }
            Standing::Talking => {
                self.put_on_hold(user, call);
                Verdict::Granted
            }
        }
    }

    fn retrieve(&mut self, user: User, call: CallId) -> Verdict
        ensures outcome { result ≡ on_retrieve (model self.old) user.0 call.0 }
        ensures state { model self.new ≡ retrieves (on_retrieve (model self.old) user.0 call.0) user.0 call.0 (model self.old) }
    {
        match self.standing(user, call) {
            Standing::Absent => Verdict::Declined(Cause::CallNotThere),
            Standing::Talking => Verdict::Declined(Cause::NotOnHold),
            Standing::OnHold => {
                if self.take_off_hold(user, call) {
                    Verdict::Granted
                } else {
                    Verdict::Declined(Cause::NoChannel)
                }
            }
        }
    }

    pub(super) fn carry_out(&mut self, limit: u8, user: User, call: CallId, ask: Ask) -> Handled
        requires call { no_call call.0 ≡ false }
        ensures outcome { result ≡ handled_of limit (model self.old) user.0 call ask }
        ensures state { model self.new ≡ state_of limit (model self.old) user.0 call ask }
        ensures answers { answerable (Some result) ≡ true }
    {
        match ask {
            Ask::Hold => Handled::Answered(Operation::Hold, call, self.hold(limit, user, call)),
            Ask::Retrieve => Handled::Answered(
                Operation::Retrieve,
                call,
                self.retrieve(user, call),
            ),
            Ask::Clear => Handled::Cleared(call, self.clear_for(user, call)),
        }
    }
}
