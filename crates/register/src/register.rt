// The meaning of a subscriber register, as a trait that registers from anywhere may meet.
ghost use Rattle.std.specs.Prelude.{◌≡◌, ℕ, ◌≤◌};

use crate::user::User;

// A register means the limit of each user: 0 is not subscribed, 1 to 7 is the most calls that he may have on hold.
// 0 is a number and no `None`: a table has it as a limit like the others.
pub trait Register {
    // the limit of the user with a number
    ghost limit: { Self → ℕ → ℕ };

    // The limit of a user. Reading changes nothing.
    fn limit_of(&self, user: User) -> u8
        ensures { result ≡ limit self.now user.0 };

    // it is at most 7
    ghost range: { (a : Self) (user : ℕ) → limit a user ≤ 7 };
}
