// The calls on a switch.
ghost use Rattle.std.specs.Prelude.{◌≡◌};
ghost use Rattle.switch.specs.Clearing.{clear_told, clears};
ghost use Rattle.switch.specs.Connecting.{connect_checked, connected};
ghost use Rattle.switch.specs.Notifying.{Notifying};
ghost use Rattle.switch.specs.Opening.{open_checked, opened};
ghost use Rattle.switch.specs.Serving.{Serving};
ghost use Rattle.switch.specs.State.{state};

use super::Switch;
use crate::told::{Notified, Served};
use frames::CallId;
use links::Link;
use records::HeldLegs;
use register::{Register, User};
use text::Fault;

impl<R: Register> Switch<R> {
    fn limit_of(&self, user: User) -> u8
        ensures { result ≡ R.Register.limit self.now.register user.0 }
    {
        self.register.limit_of(user)
    }

    // Opens a session for a user.
    // Faults: 30 for a user out of range, 32 where he has a session, 33 where there are 32 sessions.
    pub fn open_session(&mut self, user: User) -> Result<(), Fault>
        ensures outcome { result ≡ open_checked (state self.old) user }
        ensures state { state self.new ≡ opened (state self.old) user }
        ensures register { self.new.register ≡ self.old.register }
    {
        self.board.open_session(user)
    }

    // Connects a call between two users, each leg with a channel. It needs no session.
    // Faults: 30 for a user out of range, 34 for one user twice, 35 for an identifier that is not from 1 to 16,383 or not above the last,
    // 36 where there are 64 records, 37 where fewer than two channels are free.
    pub fn connect(&mut self, call: CallId, first: User, second: User) -> Result<(), Fault>
        ensures outcome { result ≡ connect_checked (state self.old) call first second }
        ensures state { state self.new ≡ connected (state self.old) call first second }
        ensures register { self.new.register ≡ self.old.register }
    {
        self.board.connect(call, first, second)
    }

    // Takes one frame of a user and answers it; a repeat, known by its exchange bit alone, gets the last answer again.
    // Faults: 30 for a user out of range and 31 for one without a session, before anything is taken; then, with the frame taken, its own
    // (11 to 17), 39 for one that is no request, 40 for a repeat where nothing was answered yet.
    pub fn serve<U: Link, D: Link>(
        &mut self,
        user: User,
        up: &mut U,
        down: &mut D,
    ) -> Result<Served, Fault>
        ensures outcome { Serving U.Link.takes D.Link.sends (R.Register.limit self.old.register user.0) user (state self.old) (state self.new) up.old up.new down.old down.new result }
        ensures register { self.new.register ≡ self.old.register }
    {
        let limit = self.limit_of(user);
        self.board.serve(limit, user, up, down)
    }

    // Sends a user his next notice and drops that news, sent or not. It needs no session.
    // Fault 30 for a user out of range.
    pub fn notify<D: Link>(&mut self, user: User, down: &mut D) -> Result<Notified, Fault>
        ensures outcome { Notifying D.Link.sends user (state self.old) (state self.new) down.old down.new result }
        ensures register { self.new.register ≡ self.old.register }
    {
        self.board.notify(user, down)
    }

    // Clears a call for the network; both parties have the news of it.
    // Fault 38 for a call that is not live.
    pub fn clear(&mut self, call: CallId) -> Result<HeldLegs, Fault>
        ensures outcome { result ≡ clear_told (state self.old) call }
        ensures state { state self.new ≡ clears (state self.old) call }
        ensures register { self.new.register ≡ self.old.register }
    {
        self.board.clear(call)
    }
}
