// Serving and notifying: the pair's user over the pair's links, and any other over links of his own.
ghost use Rattle.std.specs.Prelude.{◌≡◌};
ghost use Rattle.law.specs.declared.event.Event.TheVariants.{Served as event_served, Notified as event_notified};
ghost use Rattle.pair.specs.Serving.{Notifies, Serves};
ghost use Rattle.pair.specs.View.{Lawful, SamePair};

use super::Pair;
use links::Link;
use register::{Register, User};
use switch::{Notified, Served};
use text::Fault;

impl<R: Register, U: Link, D: Link> Pair<R, U, D> {
    // Serves a user: the pair's over the pair's own links, any other over the links handed in; faults as at the switch.
    pub fn serve<V: Link, E: Link>(
        &mut self,
        user: User,
        up: &mut V,
        down: &mut E,
    ) -> Result<Served, Fault>
        ensures outcome { Serves R.Register.limit U.Link.takes D.Link.sends V.Link.takes E.Link.sends user self.old self.new up.old up.new down.old down.new result }
        ensures same { SamePair self.old self.new }
        ensures law { Lawful R.Register.limit U.Link.waits D.Link.waits self.old (event_served user result) self.new }
    {
        if user == self.user {
            self.switch.serve(user, &mut self.up, &mut self.down)
        } else {
            self.switch.serve(user, up, down)
        }
    }

    // Notifying by whose link is used, apart from what it is to a run: a wrong link is refused here, and not for the type of a proof's term.
    fn plain_notify<E: Link>(&mut self, user: User, down: &mut E) -> Result<Notified, Fault>
        ensures outcome { Notifies D.Link.sends E.Link.sends user self.old self.new down.old down.new result }
        ensures same { SamePair self.old self.new }
    {
        if user == self.user {
            self.switch.notify(user, &mut self.down)
        } else {
            self.switch.notify(user, down)
        }
    }

    // Notifies a user: the pair's over the pair's own link, any other over the link handed in; fault as at the switch.
    pub fn notify<E: Link>(&mut self, user: User, down: &mut E) -> Result<Notified, Fault>
        ensures outcome { Notifies D.Link.sends E.Link.sends user self.old self.new down.old down.new result }
        ensures same { SamePair self.old self.new }
        ensures law { Lawful R.Register.limit U.Link.waits D.Link.waits self.old (event_notified user result) self.new }
    {
        self.plain_notify(user, down)
    }
}
