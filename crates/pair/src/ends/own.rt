// Calls at the terminal, over the pair's own links.
ghost use Rattle.std.specs.Prelude.{◌≡◌};
ghost use Rattle.law.specs.declared.event.Event.TheVariants.{Joined, Requested, Ticked as event_ticked, Received as event_received};
ghost use Rattle.terminal.specs.Arriving.{Receiving};
ghost use Rattle.terminal.specs.Asking.{Requesting, Ticking, requested, ticked};
ghost use Rattle.terminal.specs.State.{connect_checked, connected};
ghost use Rattle.pair.specs.View.{Lawful, SamePair, TerminalOnly, TerminalUp, TerminalDown};

use super::Pair;
use frames::CallId;
use links::Link;
use register::Register;
use signalling::Ask;
use terminal::{Received, Ticked};
use text::Fault;

impl<R: Register, U: Link, D: Link> Pair<R, U, D> {
    // Connects a call at the terminal; faults as there.
    pub fn join(&mut self, call: CallId) -> Result<(), Fault>
        ensures outcome { result ≡ connect_checked self.old.terminal call }
        ensures state { self.new.terminal ≡ connected self.old.terminal call }
        ensures rest { TerminalOnly self.old self.new }
        ensures law { Lawful R.Register.limit U.Link.waits D.Link.waits self.old (Joined call result) self.new }
    {
        self.terminal.connect(call)
    }

    // Opens a request of the terminal; faults as there.
    pub fn request(&mut self, ask: Ask, call: CallId) -> Result<Option<Fault>, Fault>
        ensures outcome { Requesting U.Link.sends self.old.terminal ask call self.old.up self.new.up result }
        ensures state { self.new.terminal ≡ requested self.old.terminal ask call }
        ensures rest { TerminalUp self.old self.new }
        ensures law { Lawful R.Register.limit U.Link.waits D.Link.waits self.old (Requested ask call result) self.new }
    {
        self.terminal.request(&mut self.up, ask, call)
    }

    // A tick of the terminal.
    pub fn tick(&mut self) -> Ticked
        ensures outcome { Ticking U.Link.sends self.old.terminal self.old.up self.new.up result }
        ensures state { self.new.terminal ≡ ticked self.old.terminal }
        ensures rest { TerminalUp self.old self.new }
        ensures law { Lawful R.Register.limit U.Link.waits D.Link.waits self.old (event_ticked result) self.new }
    {
        self.terminal.tick(&mut self.up)
    }

    // Receives one frame at the terminal; faults as there.
    pub fn receive(&mut self) -> Result<Received, Fault>
        ensures outcome { Receiving D.Link.takes self.old.terminal self.old.down self.new.terminal self.new.down result }
        ensures rest { TerminalDown self.old self.new }
        ensures law { Lawful R.Register.limit U.Link.waits D.Link.waits self.old (event_received result) self.new }
    {
        self.terminal.receive(&mut self.down)
    }
}
