// The walk along a waiting line, from each user to the next.
ghost use Rattle.std.specs.Prelude.{◌≡◌, ◌≤◌, length};
ghost use Rattle.records.specs.Questions.{next_in_line};
ghost use Rattle.waiting.specs.Law.{Short};
ghost use Rattle.waiting.specs.Line.{line_of, tells, written};

use crate::told::WaitingLine;
use records::{Record, next_in_line};
use register::User;

// The most users that stand in a line.
pub(crate) const LONGEST: usize = 33;

// Writes the line of a user to the first places, and tells it. Where 33 stand in it, whoever is next stands in it too.
pub(crate) fn walk(records: &[Record], user: User, line: &mut [User]) -> WaitingLine
    requires places { 33 ≤ length line.old }
    requires short { Short records.now }
    ensures outcome { result ≡ tells (line_of records.now user) }
    ensures after { line.new ≡ written (line_of records.now user) line.old }
{
    line[0] = user;
    let mut last = user;
    // By index: each turn reads the places before the one that it writes.
    for length in 1..LONGEST {
        let Some(next) = next_in_line(records, last) else {
            return WaitingLine {
                length,
                ring: false,
            };
        };
        if line[..length].contains(&next) {
            return WaitingLine { length, ring: true };
        }
        line[length] = next;
        last = next;
    }
    WaitingLine {
        length: LONGEST,
        ring: next_in_line(records, last).is_some(),
    }
}
