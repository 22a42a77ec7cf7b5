// A refusal: its number, the layer that checked, and the place where one is given. Every layer hands it up unchanged.
ghost use Rattle.std.specs.Prelude.{◌≡◌, None, Some};
ghost use Rattle.text.specs.Fault.{of_layer};

#[derive(Clone, Copy, Debug, PartialEq, Eq)]
pub enum Layer {
    Line,
    Frame,
    Link,
    Terminal,
    Switch,
    Making,
}

#[derive(Clone, Copy, Debug, PartialEq, Eq)]
pub struct Fault {
    pub number: u8,
    pub layer: Layer,
    pub place: Option<usize>,
}

impl Fault {
    // A refusal with no place.
    pub fn new(layer: Layer, number: u8) -> Fault
        ensures { result ≡ of_layer layer number None }
    {
        Fault {
            number,
            layer,
            place: None,
        }
    }

    // A refusal at a place in what was checked.
    pub fn at(layer: Layer, number: u8, place: usize) -> Fault
        ensures { result ≡ of_layer layer number (Some place) }
    {
        Fault {
            place: Some(place),
            ..Fault::new(layer, number)
        }
    }
}
