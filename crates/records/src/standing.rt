// Where users stand in a call.
ghost use Rattle.std.specs.Prelude.{◌≡◌};
ghost use Rattle.records.specs.Legs.{held_legs, side_of, standing};
ghost use Rattle.records.specs.Changes.{is_spent};
ghost use Rattle.records.specs.Notices.{news_for};

use crate::legs::{HeldLegs, Record, Side, Standing};
use frames::News;
use register::User;

impl Record {
    // Which leg is the user's; none if he is no party.
    pub fn side_of(&self, user: User) -> Option<Side>
        ensures { result ≡ side_of user.0 self.now }
    {
        if self.first.user == user {
            Some(Side::First)
        } else if self.second.user == user {
            Some(Side::Second)
        } else {
            None
        }
    }

    // Where a user stands in the call.
    pub fn standing(&self, user: User) -> Standing
        ensures { result ≡ standing user.0 self.now }
    {
        if !self.live {
            return Standing::Absent;
        }
        match self.side_of(user) {
            None => Standing::Absent,
            Some(side) if self.leg(side).bearer.channel => Standing::Talking,
            Some(_) => Standing::OnHold,
        }
    }

    // Which legs are on hold; of a call that was cleared, neither.
    pub fn held_legs(&self) -> HeldLegs
        ensures { result ≡ held_legs self.now }
    {
        let first = self.live && !self.first.bearer.channel;
        let second = self.live && !self.second.bearer.channel;
        match (first, second) {
            (false, false) => HeldLegs::Neither,
            (true, false) => HeldLegs::First,
            (false, true) => HeldLegs::Second,
            (true, true) => HeldLegs::Both,
        }
    }

    // Whether the call was cleared and nobody has news of it any more.
    pub fn is_spent(&self) -> bool
        ensures { result ≡ is_spent self.now }
    {
        !self.live && self.first.news.is_none() && self.second.news.is_none()
    }

    // The news that a user has of the call.
    pub fn news_for(&self, user: User) -> Option<News>
        ensures { result ≡ news_for user.0 self.now }
    {
        let side = self.side_of(user)?;
        self.leg(side).news
    }
}
