// The calls of a terminal: connecting them, finding, marking and removing them.
ghost use Rattle.std.specs.Prelude.{◌≡◌, ◌≤◌, true, length, IfOk};
ghost use Rattle.terminal.specs.Calls.{rising, known, mark, mark_other, without};
ghost use Rattle.terminal.specs.State.{fresh, with_calls, connect_checked, connected};

use super::Terminal;
use crate::call::Call;
use crate::refusal::Refusal;
use crate::request::Request;
use crate::table::Table;
use frames::CallId;
use std::alloc::{AllocError, Global};
use text::Fault;

impl Terminal {
    // A terminal with no calls, with room for 8 of them.
    pub fn new(heap: Global) -> Result<Terminal, AllocError>
        ensures { IfOk result (λ t. t ≡ fresh) }
    {
        let table = Table::new(heap)?;
        Ok(Terminal {
            table,
            last: 0,
            request: None,
            exchange: false,
        })
    }

    // The calls held, in rising identifiers, none of them above the last that was accepted.
    pub fn calls(&self) -> &[Call]
        ensures calls { result.now ≡ self.now.calls }
        ensures few { length result.now ≤ 8 }
        ensures rising { rising self.now.last result.now ≡ true }
    {
        self.table.as_slice()
    }

    // The request that awaits its answer.
    pub fn open_request(&self) -> Option<Request>
        ensures open { result ≡ self.now.request }
        ensures known { known self.now.last result ≡ true }
    {
        self.request
    }

    // The exchange bit of the open request, or of the next one.
    pub fn exchange_bit(&self) -> bool
        ensures { result ≡ self.now.exchange }
    {
        self.exchange
    }

    // The highest identifier ever accepted, 0 before the first.
    pub fn last_identifier(&self) -> u16
        ensures last { result ≡ self.now.last }
        ensures top { result ≤ 16383 }
    {
        self.last
    }

    fn check_connect(&self, call: CallId) -> Result<(), Fault>
        ensures { result ≡ connect_checked self.now call }
    {
        if !call.is_in_range() || call.0 <= self.last {
            return Err(Refusal::NoNewIdentifier.into());
        }
        if self.table.is_full() {
            return Err(Refusal::TableFull.into());
        }
        Ok(())
    }

    // Holds a call more, with no mark set.
    // Faults: 24 for an identifier that is not from 1 to 16,383 or not above the last, 25 where eight calls are held.
    pub fn connect(&mut self, call: CallId) -> Result<(), Fault>
        ensures outcome { result ≡ connect_checked self.old call }
        ensures state { self.new ≡ connected self.old call }
    {
        self.check_connect(call)?;
        self.last = call.0;
        self.table.push(Call {
            id: call,
            own: false,
            other: false,
        });
        Ok(())
    }

    // Sets or drops the own mark of a call, if it is held.
    pub(super) fn set_own(&mut self, call: CallId, on: bool)
        ensures { self.new ≡ with_calls (mark call.0 on self.old.calls) self.old }
    {
        self.table.change(call, |held| held.own = on);
    }

    // Sets or drops the other party's mark of a call, if it is held.
    pub(super) fn set_other(&mut self, call: CallId, on: bool)
        ensures { self.new ≡ with_calls (mark_other call.0 on self.old.calls) self.old }
    {
        self.table.change(call, |held| held.other = on);
    }

    // Removes a call, if it is held.
    pub(super) fn remove(&mut self, call: CallId)
        ensures { self.new ≡ with_calls (without call.0 self.old.calls) self.old }
    {
        self.table.remove(call);
    }
}
