// Making a switch.
ghost use Rattle.std.specs.Prelude.{◌≡◌};
ghost use Rattle.switch.specs.Making.{MadeParts};
ghost use Rattle.switch.specs.State.{fresh, model, state};

use super::{Parts, Switch};
use crate::board::{Board, RECORDS, SESSIONS};
use crate::told::MakeError;
use pool::Pool;
use register::Register;
use std::alloc::Global;

impl Parts {
    // A pool of so many channels, none of them in use, and memory for 32 sessions and 64 records.
    // Fault 53 for a size that is not 1 to 128; then want of memory.
    #[tactic(auto, unfolding(crate::specs::Tables::all_answerable))]
    pub fn new(heap: Global, channels: u8) -> Result<Parts, MakeError>
        ensures { MadeParts channels result }
    {
        let pool = Pool::new(channels)?;
        let sessions = Vec::with_capacity(heap, SESSIONS)?;
        let records = Vec::with_capacity(heap, RECORDS)?;
        Ok(Parts {
            board: Board {
                pool,
                sessions,
                records,
                last: 0,
            },
        })
    }
}

impl<R: Register> Switch<R> {
    // A switch with no session and no call, which keeps its register from now on.
    pub fn new(register: R, parts: Parts) -> Self
        ensures state { state result ≡ fresh parts.board.pool.size }
        ensures register { result.register ≡ register }
    {
        let Parts { board } = parts;
        Switch { register, board }
    }
}
