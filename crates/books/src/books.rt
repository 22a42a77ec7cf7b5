// The books, and what noting an outcome does to them.
use crate::entry::{Entry, Mark};
use register::User;
use std::marker::Model;

mod asking;
mod counting;
mod noting;

// `granted`, `retrieved` and `cleared` are the holds and the retrievals that the user was granted, and the calls cleared that he had on hold.
#[derive(Drop)]
pub struct Books {
    user: User,
    calls: Vec<Entry>,
    marks: Vec<Mark>,
    granted: u64,
    retrieved: u64,
    cleared: u64,
}

impl Model for Books {
    ghost use Rattle.books.specs.Model.{Model};

    ghost Value = { Model };

    ghost view = { λ b. record { user = b.user.0; calls = b.calls.items; marks = b.marks.items; granted = b.granted; retrieved = b.retrieved; cleared = b.cleared } };
}
