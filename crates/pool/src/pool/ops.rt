// Making a pool, drawing its channels and taking them back.
// Size and use are clauses apart: a definition of the whole pool would have to make its proofs, and callers take the two apart anyway.
ghost use Rattle.std.specs.Prelude.{◌≡◌, ◌-◌, ◌≤◌, false};
ghost use Rattle.pool.specs.Pool.{bare, claim_unless, drawn, freed, full, makes_pool, spent_claim, told_pool};

use super::Pool;
use crate::claim::{Bearer, Claim};
use crate::refusal::Refusal;
use text::Fault;

impl Pool {
    // A pool of so many channels, none of them in use.
    // Fault 53 for a size that is not 1 to 128.
    pub fn new(size: u8) -> Result<Pool, Fault>
        ensures { told_pool result ≡ makes_pool size }
    {
        if !(1..=128).contains(&size) {
            return Err(Refusal::SizeOutOfRange.into());
        }
        Ok(Pool { size, used: 0 })
    }

    // How many channels the pool has.
    pub fn size(&self) -> u8
        ensures { result ≡ self.now.size }
    {
        self.size
    }

    // How many channels are in use: never more than there are.
    pub fn in_use(&self) -> u8
        ensures used { result ≡ self.now.used }
        ensures within { result ≤ self.now.size }
    {
        self.used
    }

    // Whether all channels are in use.
    pub fn is_full(&self) -> bool
        ensures { result ≡ full self.now }
    {
        self.used == self.size
    }

    // A claim on one channel more, or none where all are in use.
    pub fn draw(&mut self) -> Option<Claim>
        ensures claim { result ≡ claim_unless (full self.old) }
        ensures used { self.new.used ≡ drawn self.old }
        ensures size { self.new.size ≡ self.old.size }
    {
        if self.is_full() {
            return None;
        }
        self.used += 1;
        Some(Claim::fresh())
    }

    // Takes the channel of a claim back. This spends the claim. A pool with no channel in use, so not the one drawn from, stays as it is.
    pub fn give_back(&mut self, claim: &mut Claim)
        requires { claim.old.spent ≡ false }
        ensures spent { claim.new ≡ spent_claim }
        ensures used { self.new.used ≡ self.old.used - 1 }
        ensures size { self.new.size ≡ self.old.size }
    {
        claim.spend();
        self.used = self.used.saturating_sub(1);
    }

    // Takes the channel of a leg back, where it has one; answers whether it had one.
    // A pool with no channel in use, so not the one drawn from, stays as it is.
    pub fn release(&mut self, leg: &mut Bearer) -> bool
        ensures had { result ≡ leg.old.channel }
        ensures leg { leg.new ≡ bare }
        ensures used { self.new.used ≡ freed leg.old self.old }
        ensures size { self.new.size ≡ self.old.size }
    {
        let had = leg.channel;
        leg.channel = false;
        self.used = self.used.saturating_sub(u8::from(had));
        had
    }
}
