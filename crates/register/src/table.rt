// A register read from a table of users and limits, which is lent to it.
ghost use Rattle.std.specs.Prelude.{◌≡◌, true};
ghost use Rattle.register.specs.Entries.{limits_fit, users_rise};

mod checks;
mod ops;

use crate::user::User;

// A user with his limit.
#[derive(Clone, Copy)]
pub struct Entry {
    pub user: User,
    pub limit: u8,
}

#[derive(Drop)]
pub struct Table<'a> {
    entries: &'a [Entry],
    ghost limits: { limits_fit entries.now ≡ true },
    ghost order: { users_rise 0 entries.now ≡ true },
}
