// A terminal's state.
use crate::request::Request;
use crate::table::Table;
use std::marker::Model;

mod asking;
mod calls;
mod receiving;

// `last` is the highest identifier ever accepted, or 0, which is below every one and what `last_identifier` tells; `exchange` is the exchange bit of the open request, or of the next one.
#[derive(Drop)]
pub struct Terminal {
    table: Table,
    last: u16,
    request: Option<Request>,
    exchange: bool,
}

impl Model for Terminal {
    ghost use Rattle.terminal.specs.Calls.{Sound};
    ghost use Rattle.terminal.specs.State.{Model};

    ghost Value = { Model };

    ghost view = { λ t. record { calls = t.table; last = t.last; request = t.request; exchange = t.exchange } };

    ghost invariant = { λ t. Sound t.last t.table t.request };
}
