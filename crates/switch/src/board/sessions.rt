// The sessions of a board.
ghost use Rattle.std.specs.Prelude.{◌≡◌, true, Some};
ghost use Rattle.switch.specs.Opening.{open_checked, opened};
ghost use Rattle.switch.specs.Serving.{handled_by, noted, serve_checked};
ghost use Rattle.switch.specs.State.{model, with_sessions};
ghost use Rattle.switch.specs.Tables.{answerable, session, session_placed};

use crate::board::{Board, SESSIONS};
use crate::refusal::{Refusal, check_user};
use crate::session::Session;
use crate::told::Handled;
use register::User;
use text::Fault;

impl Board {
    fn session_place(&self, user: User) -> Option<usize>
        ensures { result ≡ session_placed user.0 self.now.sessions.items }
    {
        self.sessions
            .iter()
            .position(|session| session.user == user)
    }

    fn session_of(&self, user: User) -> Option<Session>
        ensures { result ≡ session user.0 self.now.sessions.items }
    {
        let i = self.session_place(user)?;
        Some(self.sessions[i])
    }

    fn check_open(&self, user: User) -> Result<(), Fault>
        ensures { result ≡ open_checked (model self.now) user }
    {
        check_user(user)?;
        if self.session_of(user).is_some() {
            return Err(Refusal::HasSession.into());
        }
        if self.sessions.len() >= SESSIONS {
            return Err(Refusal::SessionsFull.into());
        }
        Ok(())
    }

    pub(crate) fn open_session(&mut self, user: User) -> Result<(), Fault>
        ensures outcome { result ≡ open_checked (model self.old) user }
        ensures state { model self.new ≡ opened (model self.old) user }
    {
        self.check_open(user)?;
        self.sessions.push_reserved(Session {
            user,
            exchange: true,
            handled: None,
        });
        Ok(())
    }

    // The session in which a user is served; 30 for one out of range, 31 for one without.
    pub(crate) fn check_serve(&self, user: User) -> Result<Session, Fault>
        ensures { result ≡ serve_checked (model self.now) user }
    {
        check_user(user)?;
        self.session_of(user).ok_or(Refusal::NoSession.into())
    }

    // Keeps what came of a user's request, with its exchange bit.
    pub(crate) fn note(&mut self, user: User, exchange: bool, handled: Handled)
        requires { answerable (Some handled) ≡ true }
        ensures state { model self.new ≡ with_sessions (noted (handled_by user exchange handled) self.old.sessions.items) (model self.old) }
    {
        if let Some(i) = self.session_place(user) {
            self.sessions[i] = Session {
                user,
                exchange,
                handled: Some(handled),
            };
        }
    }
}
