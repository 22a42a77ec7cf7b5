// The table of the calls that a terminal holds.
ghost use Rattle.std.specs.Prelude.{◌≡◌, ◌<◌, ◌≤◌, [], ◌∷◌, ◌++◌, IfOk, length, set, slice_index_or, nat_le};
ghost use Rattle.std.specs.Borrow.{sem, Lends};
ghost use Rattle.std.specs.Fn.{FnOnceReturnsAtMut};
ghost use Rattle.terminal.specs.Calls.{held_at, find, change, without};
ghost use Rattle.terminal.specs.contracts.call.Call.{the_row as call-row};
ghost use Rattle.terminal.specs.contracts.table.Table.{the_row};

use crate::call::Call;
use frames::CallId;
use std::alloc::{AllocError, Global};
use std::marker::Model;

// How many calls there is room for, from the start.
const ROOM: usize = 8;

#[derive(Drop)]
pub(crate) struct Table {
    calls: Vec<Call>,
}

impl Model for Table {
    ghost use Rattle.std.specs.Prelude.{List, ◌≡◌, ◌≤◌, vec_len, vec_capacity};
    ghost use Rattle.terminal.specs.declared.call.Call.{Call};

    ghost Value = { List Call };

    ghost view = { λ t. t.calls.items };

    ghost invariant = { λ t. (vec_len t.calls ≤ 8) × (vec_capacity t.calls ≡ 8) };
}

impl Table {
    // An empty table.
    pub(crate) fn new(heap: Global) -> Result<Table, AllocError>
        ensures { IfOk result (λ t. t ≡ []) }
    {
        let calls = Vec::with_capacity(heap, ROOM)?;
        Ok(Table { calls })
    }

    pub(crate) fn is_full(&self) -> bool
        ensures { result ≡ nat_le 8 (length self.now) }
    {
        self.calls.len() >= ROOM
    }

    pub(crate) fn as_slice(&self) -> &[Call]
        ensures calls { result.now ≡ self.now }
        ensures few { length result.now ≤ 8 }
    {
        self.calls.as_slice()
    }

    // The place of the call with an identifier.
    pub(crate) fn place_of(&self, id: CallId) -> Option<usize>
        ensures { result ≡ held_at id.0 self.now }
    {
        self.calls.iter().position(|c| c.id == id)
    }

    // The call with an identifier.
    pub(crate) fn find(&self, id: CallId) -> Option<Call>
        ensures { result ≡ find id.0 self.now }
    {
        self.calls.iter().find(|c| c.id == id).copied()
    }

    // Lends one call.
    fn at(&mut self, i: usize) -> &mut Call
        requires { i < length self.old }
        ensures* lends { sem 𝓛 (Lends the_row call-row self.entry result (λ w. set self.old i w)) }
        ensures value { result.now ≡ slice_index_or self.old i result.now }
    {
        &mut self.calls[i]
    }

    // Has `f` change the call with an identifier, if it is held. Where `f` makes `made c` of each call `c`, that call is changed by `made`.
    pub(crate) fn change<F: FnOnce(&mut Call)>(&mut self, id: CallId, f: F)
        requires { F.IsAlwaysCallable f }
        ensures { (made : Call → Call) → ((c d : Call) → FnOnceReturnsAtMut F.FnOnce f c tt d → d ≡ made c) → self.new ≡ change made id.0 self.old }
    {
        if let Some(i) = self.place_of(id) {
            f(self.at(i));
        }
    }

    // One call more, where there is room.
    pub(crate) fn push(&mut self, call: Call)
        requires { length self.old < 8 }
        ensures { self.new ≡ self.old ++ call ∷ [] }
    {
        self.calls.push_reserved(call);
    }

    // Removes the call with an identifier, if it is held.
    pub(crate) fn remove(&mut self, id: CallId)
        ensures { self.new ≡ without id.0 self.old }
    {
        if let Some(i) = self.place_of(id) {
            self.calls.remove(i);
        }
    }
}
