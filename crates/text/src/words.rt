// Layers and faults in words.
ghost use Rattle.std.specs.Prelude.{Some};
ghost use Rattle.text.specs.Words.{fault_words, layer_word};

use crate::fault::{Fault, Layer};
use std::error::Error;
use std::fmt;

impl fmt::Display for Layer {
    ghost output = { λ l. Some (layer_word l) };

    fn fmt<W: fmt::Write>(&self, f: &mut fmt::Formatter<W>) -> fmt::Result {
        f.write_str(match self {
            Layer::Line => "line",
            Layer::Frame => "frame",
            Layer::Link => "link",
            Layer::Terminal => "terminal",
            Layer::Switch => "switch",
            Layer::Making => "making",
        })
    }
}

// `NUMBER LAYER PLACE`, without a place where the fault has none.
impl fmt::Display for Fault {
    ghost output = { λ f. Some (fault_words f) };

    fn fmt<W: fmt::Write>(&self, f: &mut fmt::Formatter<W>) -> fmt::Result {
        match self.place {
            Some(place) => write!(f, "{} {} {place}", self.number, self.layer),
            None => write!(f, "{} {}", self.number, self.layer),
        }
    }
}

impl Error for Fault {}
