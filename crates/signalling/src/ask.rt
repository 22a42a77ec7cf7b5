// What a terminal may ask of its switch.
ghost use Rattle.std.specs.Prelude.{◌≡◌, Some};
ghost use Rattle.signalling.specs.Ask.{asked_by, body_for, ask_of};

use frames::{Body, Operation};

#[derive(Clone, Copy, Debug, PartialEq, Eq)]
pub enum Ask {
    Hold,
    Retrieve,
    Clear,
}

// What an operation's request asks, and its answer answers.
impl From<Operation> for Ask {
    ghost from_gives = { λ operation ask. ask ≡ asked_by operation };

    fn from(operation: Operation) -> Ask {
        match operation {
            Operation::Hold => Ask::Hold,
            Operation::Retrieve => Ask::Retrieve,
        }
    }
}

impl Ask {
    // What a body asks, if it is a request's or a clear request's.
    pub fn in_body(body: Body) -> Option<Ask>
        ensures { result ≡ ask_of body }
    {
        match body {
            Body::Request(operation) => Some(operation.into()),
            Body::ClearRequest => Some(Ask::Clear),
            Body::Answer(_, _) | Body::ClearAnswer | Body::Notice(_) => None,
        }
    }
}

// The body of its request's frame, which asks it.
impl From<Ask> for Body {
    ghost from_gives = { λ ask body. (body ≡ body_for ask) × (ask_of body ≡ Some ask) };

    fn from(ask: Ask) -> Body {
        match ask {
            Ask::Hold => Body::Request(Operation::Hold),
            Ask::Retrieve => Body::Request(Operation::Retrieve),
            Ask::Clear => Body::ClearRequest,
        }
    }
}
