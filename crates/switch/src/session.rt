// A session: what the switch keeps of its exchange with a user.
use crate::told::Handled;
use register::User;

// `exchange` is the bit of the last request handled, 1 at first; `handled` is what came of that, and so the last answer.
#[derive(Clone, Copy, Debug, PartialEq, Eq)]
pub struct Session {
    pub user: User,
    pub exchange: bool,
    pub handled: Option<Handled>,
}
