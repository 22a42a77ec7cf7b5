// What may be asked, in words.
ghost use Rattle.std.specs.Prelude.{Some};
ghost use Rattle.signalling.specs.Words.{ask_word};

use crate::ask::Ask;
use std::fmt;

impl fmt::Display for Ask {
    ghost output = { λ k. Some (ask_word k) };

    fn fmt<W: fmt::Write>(&self, f: &mut fmt::Formatter<W>) -> fmt::Result {
        f.write_str(match self {
            Ask::Hold => "hold",
            Ask::Retrieve => "retrieve",
            Ask::Clear => "clear",
        })
    }
}
