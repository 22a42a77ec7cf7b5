// Noting an outcome in the books.
ghost use Rattle.std.specs.Prelude.{◌≡◌, ◌+◌, true, false, [], ◌∷◌, MatchResult};
ghost use Rattle.records.specs.Legs.{one};
ghost use Rattle.register.specs.User.{same};
ghost use Rattle.law.specs.History.Deed.{connected, hold_granted, retrieval_granted};
ghost use Rattle.law.specs.History.{deed, first_among, handled_deeds, leg_among, party_of, second_among};
ghost use Rattle.books.specs.Kept.{Kept, Notes};
ghost use Rattle.books.specs.Model.{after_clear, clear_at_end, ends_count, fresh, Enters, EntersBy};
ghost use Rattle.books.specs.Tables.{parties_by};
ghost use Rattle.books.specs.declared.error.NoteError.TheVariants.{Full};

use super::Books;
use crate::entry::{Entry, Mark};
use crate::error::NoteError;
use crate::table::{change, put, renew};
use frames::{CallId, Operation, Verdict};
use law::Event;
use records::HeldLegs;
use register::User;
use std::alloc::Global;
use switch::{Handled, Served};

// A count with one more, if there is one more.
fn counted(count: u64, more: bool) -> Result<u64, NoteError>
    ensures { MatchResult result (λ n. (n ≡ count + one more) × (ends_count count more ≡ false)) (λ e. (e ≡ Full) × (ends_count count more ≡ true)) }
{
    count.checked_add(u64::from(more)).ok_or(NoteError::Full)
}

// Whether the leg of the party named first, and of the other, is among those on hold: two functions, as the law has two definitions.
fn first_among(legs: HeldLegs) -> bool
    ensures { result ≡ first_among legs }
{
    matches!(legs, HeldLegs::First | HeldLegs::Both)
}

fn second_among(legs: HeldLegs) -> bool
    ensures { result ≡ second_among legs }
{
    matches!(legs, HeldLegs::Second | HeldLegs::Both)
}

// Whether the leg of a user is among those on hold.
fn leg_among(legs: HeldLegs, user: User, found: Option<Entry>) -> bool
    ensures { result ≡ leg_among legs user.0 (parties_by found) }
{
    found.is_some_and(|entry| {
        (entry.first == user && first_among(legs)) || (entry.second == user && second_among(legs))
    })
}

fn is_party(user: User, found: Option<Entry>) -> bool
    ensures { result ≡ party_of user.0 (parties_by found) }
{
    found.is_some_and(|entry| entry.first == user || entry.second == user)
}

impl Books {
    // Empty books of a user.
    pub fn new(heap: Global, user: User) -> Books
        ensures kept { Kept [] result }
        ensures start { result ≡ fresh user.0 }
    {
        Books {
            user,
            calls: Vec::new(heap),
            marks: Vec::new(heap),
            granted: 0,
            retrieved: 0,
            cleared: 0,
        }
    }

    // Notes a call and its outcome. `Full` where a count that would go up is at its end, then `NoMemory` where a call or a leg
    // that is not in the books yet finds no memory; either leaves the books as they were.
    pub fn note(&mut self, event: &Event) -> Result<(), NoteError>
        ensures { Notes event.now self.old self.new result }
    {
        self.enter(event)
    }

    fn enter(&mut self, event: &Event) -> Result<(), NoteError>
        ensures { Enters (deed event.now) self.old self.new result }
    {
        match *event {
            Event::Connected(call, first, second, Ok(())) => self.connect(call, first, second),
            Event::Served(user, Ok(Served::Fresh(handled, _))) => self.handle(user, handled),
            Event::Cleared(call, Ok(legs)) => self.clear(call, legs, true),
            _ => Ok(()),
        }
    }

    fn is_owner(&self, user: User) -> bool
        ensures { result ≡ same user.0 self.now.user }
    {
        user == self.user
    }

    // What was carried out for a user.
    fn handle(&mut self, user: User, handled: Handled) -> Result<(), NoteError>
        ensures { Enters (handled_deeds user.0 handled) self.old self.new result }
    {
        match handled {
            Handled::Answered(Operation::Hold, call, Verdict::Granted) => self.hold(user, call),
            Handled::Answered(Operation::Retrieve, call, Verdict::Granted) => self.retrieve(
                user, call,
            ),
            Handled::Answered(_, _, Verdict::Declined(_)) => Ok(()),
            Handled::Cleared(call, legs) => {
                let ends = is_party(user, self.entry(call));
                self.clear(call, legs, ends)
            }
        }
    }

    fn connect(&mut self, call: CallId, first: User, second: User) -> Result<(), NoteError>
        ensures { Enters (connected call.0 first.0 second.0 ∷ []) self.old self.new result }
    {
        let entry = Entry {
            call,
            first,
            second,
            live: true,
        };
        put(&mut self.calls, entry)?;
        Ok(())
    }

    fn hold(&mut self, user: User, call: CallId) -> Result<(), NoteError>
        ensures { Enters (hold_granted user.0 call.0 ∷ []) self.old self.new result }
    {
        let granted = counted(self.granted, self.is_owner(user))?;
        let mark = Mark {
            user,
            call,
            held: true,
        };
        put(&mut self.marks, mark)?;
        self.granted = granted;
        Ok(())
    }

    fn retrieve(&mut self, user: User, call: CallId) -> Result<(), NoteError>
        ensures { Enters (retrieval_granted user.0 call.0 ∷ []) self.old self.new result }
    {
        self.retrieved = counted(self.retrieved, self.is_owner(user))?;
        let mark = Mark {
            user,
            call,
            held: false,
        };
        renew(&mut self.marks, mark);
        Ok(())
    }

    // A clear, with the legs that were on hold, and whether it ends the call.
    fn clear(&mut self, call: CallId, legs: HeldLegs, ends: bool) -> Result<(), NoteError>
        ensures { EntersBy (after_clear ends call.0 legs self.old) (clear_at_end call.0 legs self.old) false self.old self.new result }
    {
        let counts = leg_among(legs, self.user, self.entry(call));
        self.cleared = counted(self.cleared, counts)?;
        if ends {
            change(
                &mut self.calls,
                |entry| Entry {
                    live: entry.live && entry.call != call,
                    ..entry
                },
            );
            change(
                &mut self.marks,
                |mark| Mark {
                    held: mark.held && mark.call != call,
                    ..mark
                },
            );
        }
        Ok(())
    }
}
