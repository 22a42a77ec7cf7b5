// Questions asked of a list of records.
ghost use Rattle.std.specs.Prelude.{◌≡◌};
ghost use Rattle.records.specs.Legs.{is_on_hold, standing};
ghost use Rattle.records.specs.Questions.{behind, held_by, next_in_line, placed};

use crate::legs::{Record, Standing};
use frames::CallId;
use register::User;

// The place of a call's record, if there is one.
pub fn place_of(records: &[Record], call: CallId) -> Option<usize>
    ensures { result ≡ placed call.0 records.now }
{
    records.iter().position(|record| record.id == call)
}

// How many calls a user has on hold.
pub fn held_by(records: &[Record], user: User) -> usize
    ensures { result ≡ held_by user.0 records.now }
{
    records
        .iter()
        .filter(|record| record.is_held_by(user))
        .count()
}

impl Record {
    // Whether the user has the call on hold.
    fn is_held_by(&self, user: User) -> bool
        ensures { result ≡ is_on_hold (standing user.0 self.now) }
    {
        self.standing(user) == Standing::OnHold
    }

    // The other party, where the user talks and the other's leg is on hold.
    fn behind(&self, user: User) -> Option<User>
        ensures { result ≡ behind user.0 self.now }
    {
        let side = self.side_of(user)?;
        let (own, other) = (self.leg(side), self.leg(side.other()));
        let waits = self.live && own.bearer.channel && !other.bearer.channel;
        waits.then_some(other.user)
    }
}

// Who comes next in the waiting line after a user: the other party of his lowest call where he talks and the other's leg is on hold.
pub fn next_in_line(records: &[Record], user: User) -> Option<User>
    ensures { result ≡ next_in_line user.0 records.now }
{
    records.iter().find_map(|record| record.behind(user))
}
