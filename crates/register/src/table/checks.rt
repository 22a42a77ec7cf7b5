// What a table is checked for.
ghost use Rattle.std.specs.Prelude.{◌≡◌};
ghost use Rattle.register.specs.Entries.{checks_table, fits, limits_fit, users_rise};
ghost use Rattle.register.specs.User.{before};

use super::Entry;
use crate::refusal::Refusal;
use crate::user::User;
use text::Fault;

// Whether a limit is 0 to 7.
fn limit_fits(limit: u8) -> bool
    ensures { result ≡ fits limit }
{
    limit <= 7
}

// Whether each limit is 0 to 7.
fn limits_fit(entries: &[Entry]) -> bool
    ensures { result ≡ limits_fit entries.now }
{
    entries.iter().all(|entry| limit_fits(entry.limit))
}

// Whether two neighbours stand in order.
fn in_order(one: &Entry, next: &Entry) -> bool
    ensures { result ≡ before one.now.user.0 next.now.user.0 }
{
    one.user < next.user
}

// Whether each user is in range, and comes after the one before him.
fn users_rise(entries: &[Entry]) -> bool
    ensures { result ≡ users_rise 0 entries.now }
{
    entries.iter().all(|entry| entry.user.is_user()) && entries.is_sorted_by(in_order)
}

// 51 for a limit over 7 anywhere in the table, then 52 for users that are out of range or do not rise.
pub(crate) fn check(entries: &[Entry]) -> Result<(), Fault>
    ensures { result ≡ checks_table entries.now }
{
    if !limits_fit(entries) {
        return Err(Refusal::LimitOutOfRange.into());
    }
    if !users_rise(entries) {
        return Err(Refusal::UsersDoNotRise.into());
    }
    Ok(())
}
