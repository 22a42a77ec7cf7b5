// What the two ends tell, in words.
ghost use Rattle.std.specs.Prelude.{Some};
ghost use Rattle.wording.specs.Outcomes.{handled_words, notified_words, received_words, served_words, ticked_words};

use crate::parts::{Beside, ReplyTo, VerdictOn};
use signalling::Ask;
use std::fmt;
use switch::{Handled, Notified, Served};
use terminal::{Received, Ticked};

// Printed as the words of what it holds.
#[derive(Clone, Copy)]
pub struct Told<T>(pub T);

impl fmt::Display for Told<Ticked> {
    ghost output = { λ t. Some (ticked_words t.0) };

    fn fmt<W: fmt::Write>(&self, f: &mut fmt::Formatter<W>) -> fmt::Result {
        match self.0 {
            Ticked::Idle => f.write_str("idle"),
            Ticked::Waiting(left) => write!(f, "waiting {left}"),
            Ticked::Repeated(count, fault) => write!(f, "repeated {count}{}", Beside(fault)),
        }
    }
}

impl fmt::Display for Told<Received> {
    ghost output = { λ t. Some (received_words t.0) };

    fn fmt<W: fmt::Write>(&self, f: &mut fmt::Formatter<W>) -> fmt::Result {
        match self.0 {
            Received::Nothing => f.write_str("nothing"),
            Received::Stale => f.write_str("stale"),
            Received::Notice(call, news) => write!(f, "notice {call} {}", u16::from(news)),
            Received::Closed(ask, call, reply) => {
                write!(f, "closed {ask} {call} {}", ReplyTo(ask, reply))
            }
        }
    }
}

impl fmt::Display for Told<Handled> {
    ghost output = { λ t. Some (handled_words t.0) };

    fn fmt<W: fmt::Write>(&self, f: &mut fmt::Formatter<W>) -> fmt::Result {
        match self.0 {
            Handled::Answered(operation, call, verdict) => {
                let ask = Ask::from(operation);
                write!(f, "{ask} {call} {}", VerdictOn(operation, verdict))
            }
            Handled::Cleared(call, legs) => write!(f, "clear {call} {}", u8::from(legs)),
        }
    }
}

impl fmt::Display for Told<Served> {
    ghost output = { λ t. Some (served_words t.0) };

    fn fmt<W: fmt::Write>(&self, f: &mut fmt::Formatter<W>) -> fmt::Result {
        match self.0 {
            Served::Nothing => f.write_str("nothing"),
            Served::Fresh(handled, fault) => write!(f, "fresh {}{}", Told(handled), Beside(fault)),
            Served::Repeat(handled, fault) => {
                write!(f, "repeat {}{}", Told(handled), Beside(fault))
            }
        }
    }
}

impl fmt::Display for Told<Notified> {
    ghost output = { λ t. Some (notified_words t.0) };

    fn fmt<W: fmt::Write>(&self, f: &mut fmt::Formatter<W>) -> fmt::Result {
        match self.0 {
            Notified::Nothing => f.write_str("nothing"),
            Notified::Notice(call, news, fault) => {
                write!(f, "notified {call} {}{}", u16::from(news), Beside(fault))
            }
        }
    }
}
