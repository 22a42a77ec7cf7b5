// The counts over the tables.
ghost use Rattle.std.specs.Prelude.{◌≡◌, ◌+◌, ◌≤◌, ◌&&◌, sum_by};
ghost use Rattle.register.specs.User.{same};
ghost use Rattle.law.specs.Law.{shows};
ghost use Rattle.books.specs.Tables.{call_in, legs_one, marked, missed_one, within, wrong_one};

use super::Books;
use crate::entry::{Entry, Mark};
use crate::table::find;
use frames::CallId;
use register::User;
use terminal::Call;

// Whether a number is below all that are no identifiers.
fn is_within(call: CallId) -> bool
    ensures { result ≡ within call.0 }
{
    call.0 < 16_384
}

// Whether a terminal shows a call as held by its user.
fn is_shown(shown: &[Call], call: CallId) -> bool
    ensures { result ≡ shows shown.now call.0 }
{
    shown
        .iter()
        .find(|line| line.id == call)
        .is_some_and(|line| line.own)
}

impl Books {
    // What the books have of a call.
    pub(super) fn entry(&self, call: CallId) -> Option<Entry>
        ensures { result ≡ call_in call.0 self.now.calls }
    {
        find(&self.calls, call)
    }

    // Whether a user's leg in a call is on hold.
    fn is_held(&self, user: User, call: CallId) -> bool
        ensures { result ≡ marked user.0 call.0 self.now.marks }
    {
        find(&self.marks, (user, call)).is_some_and(|mark| mark.held)
    }

    // Whether a mark is of the user's leg in a call.
    pub(super) fn is_own(&self, mark: &Mark) -> bool
        ensures { result ≡ (same mark.now.user.0 self.now.user && within mark.now.call.0) }
    {
        mark.user == self.user && is_within(mark.call)
    }

    // The legs not on hold in a call, if it is live.
    pub(super) fn legs_of(&self, entry: &Entry) -> usize
        ensures value { result ≡ legs_one self.now.marks entry.now }
        ensures few { result ≤ 2 }
    {
        if !entry.live || !is_within(entry.call) {
            return 0;
        }
        usize::from(!self.is_held(entry.first, entry.call))
            + usize::from(!self.is_held(entry.second, entry.call))
    }

    // The calls that the user has on hold and a terminal does not show so.
    fn count_missed(&self, shown: &[Call]) -> usize
        ensures value { result ≡ sum_by (missed_one shown.now self.now.user) self.now.marks }
        ensures few { result ≤ 9223372036854775807 }
    {
        self.marks
            .iter()
            .filter(|mark| self.is_own(mark) && mark.held && !is_shown(shown, mark.call))
            .count()
    }

    // The live calls that a terminal shows as held and the user does not have on hold.
    fn count_wrong(&self, shown: &[Call]) -> usize
        ensures value { result ≡ sum_by (wrong_one self.now.marks shown.now self.now.user) self.now.calls }
        ensures few { result ≤ 9223372036854775807 }
    {
        self.calls
            .iter()
            .filter(|entry| {
                is_within(entry.call)
                    && entry.live
                    && is_shown(shown, entry.call)
                    && !self.is_held(self.user, entry.call)
            })
            .count()
    }

    // The calls on which the tables and a terminal differ about the user's hold.
    pub(super) fn count_differing(&self, shown: &[Call]) -> usize
        ensures { result ≡ sum_by (missed_one shown.now self.now.user) self.now.marks + sum_by (wrong_one self.now.marks shown.now self.now.user) self.now.calls }
    {
        self.count_missed(shown) + self.count_wrong(shown)
    }
}
