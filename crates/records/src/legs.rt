// A call record and its two legs.
ghost use Rattle.std.specs.Prelude.{◌≡◌};
ghost use Rattle.std.specs.Borrow.{sem};
ghost use Rattle.records.specs.Legs.{leg_on, legs_number, other_side};
ghost use Rattle.records.specs.Lending.{LendsLeg};

use frames::{CallId, News};
use pool::Bearer;
use register::User;

// A party's leg: without a channel while it is on hold; `news` is what the party has yet to be told.
#[derive(Clone, Copy, Debug, PartialEq, Eq)]
pub struct Leg {
    pub user: User,
    pub bearer: Bearer,
    pub news: Option<News>,
}

// `live` is false of a call that was cleared and is kept until both parties are told.
#[derive(Clone, Copy, Debug, PartialEq, Eq)]
pub struct Record {
    pub id: CallId,
    pub live: bool,
    pub first: Leg,
    pub second: Leg,
}

// One of the two legs; the first is that of the party named first.
#[derive(Clone, Copy, Debug, PartialEq, Eq)]
pub enum Side {
    First,
    Second,
}

// Where a user stands in a call: he is no party of it or it is not live; his leg has a channel; or it is on hold.
#[derive(Clone, Copy, Debug, PartialEq, Eq)]
pub enum Standing {
    Absent,
    Talking,
    OnHold,
}

// Which legs of a call were on hold.
#[derive(Clone, Copy, Debug, PartialEq, Eq)]
pub enum HeldLegs {
    Neither,
    First,
    Second,
    Both,
}

impl From<HeldLegs> for u8 {
    ghost from_gives = { λ legs n. n ≡ legs_number legs };

    // 0 for neither, 1 for the first, 2 for the second, 3 for both.
    fn from(legs: HeldLegs) -> u8 {
        match legs {
            HeldLegs::Neither => 0,
            HeldLegs::First => 1,
            HeldLegs::Second => 2,
            HeldLegs::Both => 3,
        }
    }
}

impl Side {
    pub(crate) fn other(self) -> Side
        ensures { result ≡ other_side self }
    {
        match self {
            Side::First => Side::Second,
            Side::Second => Side::First,
        }
    }
}

impl Record {
    pub(crate) fn leg(&self, side: Side) -> &Leg
        ensures { result.now ≡ leg_on side self.now }
    {
        match side {
            Side::First => &self.first,
            Side::Second => &self.second,
        }
    }

    pub(crate) fn leg_mut(&mut self, side: Side) -> &mut Leg
        ensures* writes_back { sem 𝓛 (LendsLeg side self.entry result) }
        ensures value { result.now ≡ leg_on side self.old }
    {
        match side {
            Side::First => &mut self.first,
            Side::Second => &mut self.second,
        }
    }
}
