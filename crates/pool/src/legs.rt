// Channels for the legs of a call.
ghost use Rattle.std.specs.Prelude.{◌≡◌};
ghost use Rattle.pool.specs.Pool.{bearers_if, carries, drawn_both, drawn_for, leaves_two};

use crate::claim::Bearer;
use crate::pool::Pool;

// Both legs of a new call with a channel each, or nothing where fewer than two are free; the pool is then as before.
pub fn carry_both(pool: &mut Pool) -> Option<(Bearer, Bearer)>
    ensures legs { result ≡ bearers_if (leaves_two pool.old) }
    ensures used { pool.new.used ≡ drawn_both pool.old }
    ensures size { pool.new.size ≡ pool.old.size }
{
    let mut first = Bearer::bare();
    let mut second = Bearer::bare();
    let mut one = pool.draw()?;
    let Some(mut other) = pool.draw() else {
        pool.give_back(&mut one);
        return None;
    };
    one.put(&mut first);
    other.put(&mut second);
    Some((first, second))
}

// A channel for a leg that is retrieved; answers whether the leg has one now. A leg that has one keeps it, and none is drawn.
pub fn carry_one(pool: &mut Pool, leg: &mut Bearer) -> bool
    ensures granted { result ≡ leg.new.channel }
    ensures leg { leg.new ≡ carries pool.old leg.old }
    ensures used { pool.new.used ≡ drawn_for pool.old leg.old }
    ensures size { pool.new.size ≡ pool.old.size }
{
    if leg.channel {
        return true;
    }
    let Some(mut claim) = pool.draw() else {
        return false;
    };
    claim.put(leg);
    true
}
