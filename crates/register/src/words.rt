// A user in words: his SSI.
ghost use Rattle.std.specs.Prelude.{Some, decimal};

use crate::user::User;
use std::fmt;

impl fmt::Display for User {
    ghost output = { λ u. Some (decimal u.0) };

    fn fmt<W: fmt::Write>(&self, f: &mut fmt::Formatter<W>) -> fmt::Result {
        write!(f, "{}", self.0)
    }
}
