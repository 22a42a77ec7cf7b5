// Any call on a pair.
ghost use Rattle.std.specs.Prelude.{◌≡◌};
ghost use Rattle.pair.specs.View.{Lawful, SamePair, call_of};

use super::Pair;
use crate::call::Call;
use law::Event;
use links::Link;
use register::Register;

impl<R: Register, U: Link, D: Link> Pair<R, U, D> {
    // Makes a call; `up` and `down` are the links of whoever is not the pair's user.
    pub fn call<V: Link, E: Link>(&mut self, call: Call, up: &mut V, down: &mut E) -> Event
        ensures which { call_of result ≡ call }
        ensures same { SamePair self.old self.new }
        ensures law { Lawful R.Register.limit U.Link.waits D.Link.waits self.old result self.new }
    {
        match call {
            Call::Open(user) => Event::Opened(user, self.open_session(user)),
            Call::Connect(id, first, second) => Event::Connected(
                id,
                first,
                second,
                self.connect(id, first, second),
            ),
            Call::Join(id) => Event::Joined(id, self.join(id)),
            Call::Request(ask, id) => Event::Requested(ask, id, self.request(ask, id)),
            Call::Tick => Event::Ticked(self.tick()),
            Call::Receive => Event::Received(self.receive()),
            Call::Serve(user) => Event::Served(user, self.serve(user, up, down)),
            Call::Notify(user) => Event::Notified(user, self.notify(user, down)),
            Call::Clear(id) => Event::Cleared(id, self.clear(id)),
        }
    }
}
