// What the books say.
ghost use Rattle.std.specs.Prelude.{◌≡◌};
ghost use Rattle.law.specs.History.{calls_on_hold, held_calls_cleared, holds_granted, retrievals_granted};
ghost use Rattle.books.specs.Kept.{differing, legs, Says};

use super::Books;
use register::User;
use terminal::Call;

impl Books {
    // Whose books they are.
    pub fn user(&self) -> User
        ensures { result.0 ≡ self.now.user }
    {
        self.user
    }

    // The holds that the user was granted.
    pub fn granted(&self) -> u64
        ensures { Says holds_granted self.now result }
    {
        self.granted
    }

    // The retrievals that he was granted.
    pub fn retrieved(&self) -> u64
        ensures { Says retrievals_granted self.now result }
    {
        self.retrieved
    }

    // The calls cleared that he had on hold.
    pub fn cleared(&self) -> u64
        ensures { Says held_calls_cleared self.now result }
    {
        self.cleared
    }

    // The calls that he has on hold.
    pub fn held(&self) -> usize
        ensures { Says calls_on_hold self.now result }
    {
        self.marks
            .iter()
            .filter(|mark| self.is_own(mark) && mark.held)
            .count()
    }

    // The legs not on hold in live calls, of all users.
    pub fn legs(&self) -> usize
        ensures { Says legs self.now result }
    {
        self.calls.iter().map(|entry| self.legs_of(entry)).sum()
    }

    // The calls on which the outcomes and the calls that the user's terminal shows differ about his hold.
    pub fn differing(&self, shown: &[Call]) -> usize
        ensures { Says (differing shown.now) self.now result }
    {
        self.count_differing(shown)
    }
}
