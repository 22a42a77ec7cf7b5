// Calls at the switch: opening a session, connecting, clearing by the network.
ghost use Rattle.std.specs.Prelude.{◌≡◌};
ghost use Rattle.law.specs.declared.event.Event.TheVariants.{Opened, Connected, Cleared};
ghost use Rattle.switch.specs.Clearing.{clear_told, clears};
ghost use Rattle.switch.specs.Connecting.{connect_checked, connected};
ghost use Rattle.switch.specs.Opening.{open_checked, opened};
ghost use Rattle.switch.specs.State.{state};
ghost use Rattle.pair.specs.View.{Lawful, SamePair, SwitchOnly};

use super::Pair;
use frames::CallId;
use links::Link;
use records::HeldLegs;
use register::{Register, User};
use text::Fault;

impl<R: Register, U: Link, D: Link> Pair<R, U, D> {
    // Opens a session for any user; faults as at the switch.
    pub fn open_session(&mut self, user: User) -> Result<(), Fault>
        ensures outcome { result ≡ open_checked (state self.old.switch) user }
        ensures state { state self.new.switch ≡ opened (state self.old.switch) user }
        ensures rest { SwitchOnly self.old self.new }
        ensures same { SamePair self.old self.new }
        ensures law { Lawful R.Register.limit U.Link.waits D.Link.waits self.old (Opened user result) self.new }
    {
        self.switch.open_session(user)
    }

    // Connects a call at the switch; faults as there.
    pub fn connect(&mut self, call: CallId, first: User, second: User) -> Result<(), Fault>
        ensures outcome { result ≡ connect_checked (state self.old.switch) call first second }
        ensures state { state self.new.switch ≡ connected (state self.old.switch) call first second }
        ensures rest { SwitchOnly self.old self.new }
        ensures same { SamePair self.old self.new }
        ensures law { Lawful R.Register.limit U.Link.waits D.Link.waits self.old (Connected call first second result) self.new }
    {
        self.switch.connect(call, first, second)
    }

    // Clears a call for the network; fault as at the switch.
    pub fn clear(&mut self, call: CallId) -> Result<HeldLegs, Fault>
        ensures outcome { result ≡ clear_told (state self.old.switch) call }
        ensures state { state self.new.switch ≡ clears (state self.old.switch) call }
        ensures rest { SwitchOnly self.old self.new }
        ensures same { SamePair self.old self.new }
        ensures law { Lawful R.Register.limit U.Link.waits D.Link.waits self.old (Cleared call result) self.new }
    {
        self.switch.clear(call)
    }
}
