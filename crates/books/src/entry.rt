// What the books have of a call, and of a leg.
ghost use Rattle.books.specs.Tables.{is_call, is_leg};

use crate::table::Row;
use frames::CallId;
use register::User;

// A call that was connected: its parties at the latest connecting, and whether it is live.
#[derive(Clone, Copy)]
pub(crate) struct Entry {
    pub(crate) call: CallId,
    pub(crate) first: User,
    pub(crate) second: User,
    pub(crate) live: bool,
}

impl Row for Entry {
    type Key = CallId;

    ghost key_of = { λ entry. entry.call };

    ghost is_at = { λ call entry. is_call call.0 entry };

    fn key(&self) -> CallId {
        self.call
    }

    fn is_at(&self, call: CallId) -> bool {
        self.call == call
    }
}

// A leg that was put on hold, and whether it still is.
#[derive(Clone, Copy)]
pub(crate) struct Mark {
    pub(crate) user: User,
    pub(crate) call: CallId,
    pub(crate) held: bool,
}

impl Row for Mark {
    type Key = (User, CallId);

    ghost key_of = { λ mark. (mark.user, mark.call) };

    ghost is_at = { λ leg mark. is_leg leg.0.0 leg.1.0 mark };

    fn key(&self) -> (User, CallId) {
        (self.user, self.call)
    }

    fn is_at(&self, leg: (User, CallId)) -> bool {
        (self.user, self.call) == leg
    }
}
