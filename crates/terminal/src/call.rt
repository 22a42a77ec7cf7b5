// A call as a terminal holds it.
use frames::CallId;

// `own` marks that this party put the call on hold, `other` that the other party did.
#[derive(Clone, Copy, Debug, PartialEq, Eq)]
pub struct Call {
    pub id: CallId,
    pub own: bool,
    pub other: bool,
}
