// Making a general register, and reading it.
ghost use Rattle.std.specs.Prelude.{◌≡◌};
ghost use Rattle.register.specs.General.{makes_general, told_general};

use super::General;
use crate::refusal::Refusal;
use crate::register::Register;
use crate::user::User;
use text::Fault;

impl General {
    // A register that gives everybody this limit.
    // Fault 51 for a limit that is not 1 to 7.
    pub fn new(limit: u8) -> Result<General, Fault>
        ensures { told_general result ≡ makes_general limit }
    {
        if !(1..=7).contains(&limit) {
            return Err(Refusal::LimitOutOfRange.into());
        }
        Ok(General { limit })
    }
}

impl Register for General {
    ghost limit = { λ g user. g.limit };

    ghost range = { λ g user. g.most };

    fn limit_of(&self, user: User) -> u8 {
        self.limit
    }
}
