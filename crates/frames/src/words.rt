// A call in words: its number.
ghost use Rattle.std.specs.Prelude.{Some, decimal};

use crate::content::CallId;
use std::fmt;

impl fmt::Display for CallId {
    ghost output = { λ c. Some (decimal c.0) };

    fn fmt<W: fmt::Write>(&self, f: &mut fmt::Formatter<W>) -> fmt::Result {
        write!(f, "{}", self.0)
    }
}
