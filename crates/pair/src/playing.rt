// Playing a list of calls on a pair.
ghost use Rattle.std.specs.Prelude.{◌≡◌, MatchResult};
ghost use Rattle.pair.specs.Playing.{Plays};

use crate::call::Call;
use crate::ends::Pair;
use law::Event;
use links::Link;
use register::Register;
use std::alloc::{AllocError, Global};

// Makes the calls one after another and answers what each told; `up` and `down` are the links of whoever is not the pair's user.
// Memory is reserved first: for want of it no call is made.
pub fn play<R: Register, U: Link, D: Link, V: Link, E: Link>(
    heap: Global,
    pair: &mut Pair<R, U, D>,
    up: &mut V,
    down: &mut E,
    calls: &[Call],
) -> Result<Vec<Event>, AllocError>
    ensures { MatchResult result (λ log. Plays R.Register.limit U.Link.waits D.Link.waits pair.old calls.now log.items pair.new) (λ _. pair.new ≡ pair.old) }
{
    let mut log = Vec::with_capacity(heap, calls.len())?;
    for &call in calls {
        log.push_reserved(pair.call(call, up, down));
    }
    Ok(log)
}
