// Parts of what is told, in words.
ghost use Rattle.std.specs.Prelude.{◌≡◌, Some};
ghost use Rattle.wording.specs.Outcomes.{operation_of, reply_words};
ghost use Rattle.wording.specs.Words.{beside, verdict_words};

use frames::{Operation, Verdict, cause_number};
use signalling::Ask;
use std::fmt;
use terminal::Reply;
use text::Fault;

// ` fault` and the link's fault, or nothing.
#[derive(Clone, Copy)]
pub(crate) struct Beside(pub(crate) Option<Fault>);

impl fmt::Display for Beside {
    ghost output = { λ b. Some (beside b.0) };

    fn fmt<W: fmt::Write>(&self, f: &mut fmt::Formatter<W>) -> fmt::Result {
        match self.0 {
            None => Ok(()),
            Some(fault) => write!(f, " fault {fault}"),
        }
    }
}

// `granted`, or `declined` and the cause's number.
#[derive(Clone, Copy)]
pub(crate) struct VerdictOn(pub(crate) Operation, pub(crate) Verdict);

impl fmt::Display for VerdictOn {
    ghost output = { λ v. Some (verdict_words v.0 v.1) };

    fn fmt<W: fmt::Write>(&self, f: &mut fmt::Formatter<W>) -> fmt::Result {
        match self.1 {
            Verdict::Granted => f.write_str("granted"),
            Verdict::Declined(cause) => {
                // The ends decline by listed causes alone.
                let number = cause_number(self.0, cause).unwrap_or(0);
                write!(f, "declined {number}")
            }
        }
    }
}

// The operation whose causes a request's are numbered by.
// Whose list of causes the cause of a reply is read in; a clear is never declined.
fn operation_of(ask: Ask) -> Operation
    ensures { result ≡ operation_of ask }
{
    match ask {
        Ask::Hold | Ask::Clear => Operation::Hold,
        Ask::Retrieve => Operation::Retrieve,
    }
}

// What came of a request, at the terminal.
#[derive(Clone, Copy)]
pub(crate) struct ReplyTo(pub(crate) Ask, pub(crate) Reply);

impl fmt::Display for ReplyTo {
    ghost output = { λ r. Some (reply_words r.0 r.1) };

    fn fmt<W: fmt::Write>(&self, f: &mut fmt::Formatter<W>) -> fmt::Result {
        match self.1 {
            Reply::Granted => f.write_str("granted"),
            Reply::Declined(cause) => {
                VerdictOn(operation_of(self.0), Verdict::Declined(cause)).fmt(f)
            }
            Reply::Cleared => f.write_str("cleared"),
        }
    }
}
