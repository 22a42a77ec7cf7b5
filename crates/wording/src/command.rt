// A call in words.
ghost use Rattle.std.specs.Prelude.{Some};
ghost use Rattle.wording.specs.Commands.{command_words};

use law::Event;
use register::User;
use std::fmt;

// The call that an event is of, as the command that makes it; `user` is that of the terminal.
#[derive(Clone, Copy)]
pub struct Command {
    pub user: User,
    pub event: Event,
}

impl fmt::Display for Command {
    ghost output = { λ c. Some (command_words c.user c.event) };

    fn fmt<W: fmt::Write>(&self, f: &mut fmt::Formatter<W>) -> fmt::Result {
        let at = self.user;
        match self.event {
            Event::Opened(user, _) => write!(f, "open {user}"),
            Event::Connected(call, first, second, _) => write!(
                f,
                "connect {call} {first} {second}"
            ),
            Event::Joined(call, _) => write!(f, "at {at} connect {call}"),
            Event::Requested(ask, call, _) => write!(f, "at {at} {ask} {call}"),
            Event::Ticked(_) => write!(f, "at {at} tick"),
            Event::Received(_) => write!(f, "at {at} receive"),
            Event::Served(user, _) => write!(f, "serve {user}"),
            Event::Notified(user, _) => write!(f, "notify {user}"),
            Event::Cleared(call, _) => write!(f, "clear {call}"),
        }
    }
}
