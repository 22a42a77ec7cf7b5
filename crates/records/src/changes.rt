// The changes of a record, with the channels that they draw and give back.
ghost use Rattle.std.specs.Prelude.{◌≡◌, ◌-◌};
ghost use Rattle.pool.specs.Pool.{drawn_both, drawn_for, freed, leaves_two};
ghost use Rattle.records.specs.Changes.{can_carry, cleared, cleared_by, connected_if, hushed, joined, put_on_hold, retrieved_if};
ghost use Rattle.records.specs.Legs.{channels, leg_on};

use crate::legs::{Leg, Record, Side};
use frames::{CallId, News};
use pool::{Bearer, Pool, carry_both, carry_one};
use register::User;

impl Leg {
    fn joined(user: User, bearer: Bearer) -> Leg
        ensures { result ≡ joined user bearer }
    {
        Leg {
            user,
            bearer,
            news: None,
        }
    }
}

impl Record {
    // The record of a new call, each leg with a channel; none where fewer than two are free, and the pool is then as before.
    pub fn connect(id: CallId, first: User, second: User, pool: &mut Pool) -> Option<Record>
        ensures record { result ≡ connected_if (leaves_two pool.old) id first second }
        ensures used { pool.new.used ≡ drawn_both pool.old }
        ensures size { pool.new.size ≡ pool.old.size }
    {
        let (one, other) = carry_both(pool)?;
        Some(Record {
            id,
            live: true,
            first: Leg::joined(first, one),
            second: Leg::joined(second, other),
        })
    }

    // Puts a leg on hold: its channel goes back, and the other party has news of it.
    pub fn hold(&mut self, side: Side, pool: &mut Pool)
        ensures record { self.new ≡ put_on_hold side self.old }
        ensures used { pool.new.used ≡ freed (leg_on side self.old).bearer pool.old }
        ensures size { pool.new.size ≡ pool.old.size }
    {
        pool.release(&mut self.leg_mut(side).bearer);
        self.leg_mut(side.other()).news = Some(News::PutOnHold);
    }

    // Retrieves a leg: it gets a channel, if one is free, and the other party has news of it; answers whether it has one now.
    pub fn retrieve(&mut self, side: Side, pool: &mut Pool) -> bool
        ensures granted { result ≡ can_carry (leg_on side self.old).bearer pool.old }
        ensures record { self.new ≡ retrieved_if (can_carry (leg_on side self.old).bearer pool.old) side self.old }
        ensures used { pool.new.used ≡ drawn_for pool.old (leg_on side self.old).bearer }
        ensures size { pool.new.size ≡ pool.old.size }
    {
        let granted = carry_one(pool, &mut self.leg_mut(side).bearer);
        if granted {
            self.leg_mut(side.other()).news = Some(News::Retrieved);
        }
        granted
    }

    // Clears the call for the party on a side: his own news is dropped, and the other has the news of it.
    pub fn clear_by(&mut self, side: Side, pool: &mut Pool)
        ensures record { self.new ≡ cleared_by side self.old }
        ensures used { pool.new.used ≡ pool.old.used - channels self.old }
        ensures size { pool.new.size ≡ pool.old.size }
    {
        self.clear(pool);
        self.hush(side);
    }

    // Clears the call for the network: the channels of the legs that have one go back, and both parties have the news of it.
    pub fn clear(&mut self, pool: &mut Pool)
        ensures record { self.new ≡ cleared self.old }
        ensures used { pool.new.used ≡ pool.old.used - channels self.old }
        ensures size { pool.new.size ≡ pool.old.size }
    {
        pool.release(&mut self.first.bearer);
        pool.release(&mut self.second.bearer);
        self.live = false;
        self.first.news = Some(News::Released);
        self.second.news = Some(News::Released);
    }

    // The party on a side was told his news.
    pub fn hush(&mut self, side: Side)
        ensures { self.new ≡ hushed side self.old }
    {
        self.leg_mut(side).news = None;
    }
}
