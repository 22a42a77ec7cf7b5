// The waiting line of a user.
ghost use Rattle.std.specs.Prelude.{◌≡◌, length, take, IfOk};
ghost use Rattle.switch.specs.State.{state};
ghost use Rattle.waiting.specs.Law.{LineLaw};
ghost use Rattle.waiting.specs.Line.{checks, line_checked, line_told, line_written};

use crate::told::WaitingLine;
use crate::walk::{LONGEST, walk};
use register::{Register, User};
use switch::{Refusal, Switch, check_user};
use text::Fault;

// The checks before a line is told: a user out of range, too few places.
fn check(user: User, places: usize) -> Result<(), Fault>
    ensures { result ≡ checks user places }
{
    check_user(user)?;
    if places < LONGEST {
        return Err(Refusal::FewPlaces.into());
    }
    Ok(())
}

// Writes the waiting line of a user to the first places of `line`, and tells its length and whether it is a ring. It starts with the user,
// and after each stands the other party of his lowest live call where his own leg is not on hold and the other's is; it ends where
// nobody is next, or before a user would stand twice, which is a ring. The places past its length are untouched.
// Faults, which write nothing: 30 for a user out of range, 44 where fewer than 33 places are handed over.
pub fn waiting_line<R: Register>(
    switch: &Switch<R>,
    user: User,
    line: &mut [User],
) -> Result<WaitingLine, Fault>
    ensures outcome { result ≡ line_told (line_checked (state switch.now) user (length line.old)) }
    ensures after { line.new ≡ line_written (line_checked (state switch.now) user (length line.old)) line.old }
    ensures law { IfOk result (λ told. LineLaw (state switch.now).records user told.length (take told.length line.new) told.ring) }
{
    check(user, line.len())?;
    Ok(walk(switch.records(), user, line))
}
