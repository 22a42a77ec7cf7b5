// The outcome of a call in words.
ghost use Rattle.std.specs.Prelude.{◌++◌, Some, codes};
ghost use Rattle.wording.specs.Outcomes.{answered_output, outcome_words};
ghost use Rattle.wording.specs.Words.{beside};

use crate::parts::Beside;
use crate::told::Told;
use law::Event;
use std::fmt;
use switch::Handled;
use text::Fault;

// `OK` and what was told, or `NO` and the fault.
#[derive(Clone, Copy)]
pub struct Answered<T>(pub Result<T, Fault>);

impl<T: fmt::Display> fmt::Display for Answered<T> {
    ghost output = { λ a. answered_output T.output a.0 };

    fn fmt<W: fmt::Write>(&self, f: &mut fmt::Formatter<W>) -> fmt::Result {
        match &self.0 {
            Ok(told) => write!(f, "OK {told}"),
            Err(fault) => write!(f, "NO {fault}"),
        }
    }
}

// `requested`, and the link's fault.
#[derive(Clone, Copy)]
struct Requested(Option<Fault>);

impl fmt::Display for Requested {
    ghost output = { λ r. Some (codes "requested" ++ beside r.0) };

    fn fmt<W: fmt::Write>(&self, f: &mut fmt::Formatter<W>) -> fmt::Result {
        write!(f, "requested{}", Beside(self.0))
    }
}

// What a call told: `OK` and it, or `NO` and the fault with its layer and place.
#[derive(Clone, Copy)]
pub struct Outcome(pub Event);

impl fmt::Display for Outcome {
    ghost output = { λ o. Some (outcome_words o.0) };

    fn fmt<W: fmt::Write>(&self, f: &mut fmt::Formatter<W>) -> fmt::Result {
        match self.0 {
            Event::Opened(_, outcome) => Answered(outcome.map(|()| "opened")).fmt(f),
            Event::Connected(_, _, _, outcome) | Event::Joined(_, outcome) => {
                Answered(outcome.map(|()| "connected")).fmt(f)
            }
            Event::Requested(_, _, outcome) => Answered(outcome.map(Requested)).fmt(f),
            Event::Ticked(told) => Answered(Ok(Told(told))).fmt(f),
            Event::Received(outcome) => Answered(outcome.map(Told)).fmt(f),
            Event::Served(_, outcome) => Answered(outcome.map(Told)).fmt(f),
            Event::Notified(_, outcome) => Answered(outcome.map(Told)).fmt(f),
            Event::Cleared(call, outcome) => {
                Answered(outcome.map(|legs| Told(Handled::Cleared(call, legs)))).fmt(f)
            }
        }
    }
}
