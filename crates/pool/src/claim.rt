// A channel on its way from the pool to a leg.
ghost use Rattle.std.specs.Prelude.{◌≡◌, true, false};
ghost use Rattle.pool.specs.Pool.{bare, carried, fresh_claim, spent_claim};

// What a leg has of the pool: a channel, or none while it is on hold.
#[derive(Clone, Copy, Debug, PartialEq, Eq)]
pub struct Bearer {
    pub channel: bool,
}

impl Bearer {
    // A leg without a channel.
    pub fn bare() -> Bearer
        ensures { result ≡ bare }
    {
        Bearer { channel: false }
    }
}

// A channel drawn from the pool, until it is put to a leg or given back. One that is not spent cannot be let go.
pub struct Claim {
    spent: bool,
}

impl Drop for Claim {
    fn drop(self)
        requires { self.spent ≡ true }
    {
        let Claim { spent: _ } = self;
    }
}

impl Claim {
    // A claim on a channel just drawn.
    pub(crate) fn fresh() -> Claim
        ensures { result ≡ fresh_claim }
    {
        Claim { spent: false }
    }

    // Puts the channel to a leg that has none. This spends the claim.
    pub fn put(&mut self, leg: &mut Bearer)
        requires fresh { self.old.spent ≡ false }
        requires bare { leg.old ≡ bare }
        ensures spent { self.new ≡ spent_claim }
        ensures leg { leg.new ≡ carried }
    {
        self.spent = true;
        leg.channel = true;
    }

    // Spends the claim as the pool takes the channel back.
    pub(crate) fn spend(&mut self)
        requires { self.old.spent ≡ false }
        ensures { self.new ≡ spent_claim }
    {
        self.spent = true;
    }
}
