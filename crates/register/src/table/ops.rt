// Making a table register, and reading it.
ghost use Rattle.std.specs.Prelude.{◌≡◌, ◌≤◌, IfOk, IfSome};
ghost use Rattle.std.proofs.Math.Nat.{min-le_right};
ghost use Rattle.std.specs.Option.{unwrap_or};
ghost use Rattle.register.specs.Entries.{found, limit_in, Means};
ghost use Rattle.register.specs.Table.{makes_table, told_table};

use super::{Entry, Table};
use crate::register::Register;
use crate::table::checks;
use crate::user::User;
use text::Fault;

impl<'a> Table<'a> {
    // A register that gives each user the limit that the entries have for him, and 0 to a user who is absent.
    // Faults, in the order of their checks: 51 a limit over 7, 52 a user out of range or not after the one before him.
    pub fn new(entries: &'a [Entry]) -> Result<Table<'a>, Fault>
        ensures outcome { told_table result ≡ makes_table entries.now }
        ensures meaning { IfOk result (λ t. Means entries.now (λ user. limit_in user t.entries.now)) }
    {
        checks::check(entries)?;
        Ok(Table { entries })
    }

    // The limit that the entries have for a user; none for one who is absent.
    fn find(&self, user: User) -> Option<u8>
        ensures limit { result ≡ found user.0 self.now.entries.now }
        ensures range { IfSome result (λ n. n ≤ 7) }
    {
        match self.entries.binary_search_by_key(&user, |entry| entry.user) {
            Ok(at) => Some(self.entries[at].limit),
            Err(_) => None,
        }
    }
}

impl<'a> Register for Table<'a> {
    ghost limit = { λ t user. limit_in user t.entries.now };

    ghost range = { λ t user. min-le_right (unwrap_or (found user t.entries.now) 0) 7 };

    fn limit_of(&self, user: User) -> u8
        ensures { result ≡ limit_in user.0 self.now.entries.now }
    {
        self.find(user).unwrap_or(0)
    }
}
