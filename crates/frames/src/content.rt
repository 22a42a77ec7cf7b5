// What a frame says.
ghost use Rattle.std.specs.Prelude.{◌≡◌, not};
ghost use Rattle.frames.specs.Layout.{no_call};

// The call a frame is about. Frames have 1 to 16,383; content may hold any number, and the writer refuses the others.
#[derive(Clone, Copy, Debug, PartialEq, Eq, PartialOrd, Ord)]
pub struct CallId(pub u16);

impl CallId {
    // Whether a frame can be about the call: 1 to 16,383.
    pub fn is_in_range(self) -> bool
        ensures { result ≡ not (no_call self.0) }
    {
        (1..=16_383).contains(&self.0)
    }
}

// What a user may ask of the service for a call: to put it on hold (INVOKE), or to have it back (RETRIEVE).
#[derive(Clone, Copy, Debug, PartialEq, Eq)]
pub enum Operation {
    Hold,
    Retrieve,
}

// Why a request was declined. Each operation lists its own causes.
#[derive(Clone, Copy, Debug, PartialEq, Eq)]
pub enum Cause {
    NotSubscribed,
    LimitReached,
    CallNotThere,
    AlreadyOnHold,
    NotOnHold,
    NoChannel,
}

impl Cause {
    pub(crate) const ALL: [Cause; 6] = [
        Cause::NotSubscribed,
        Cause::LimitReached,
        Cause::CallNotThere,
        Cause::AlreadyOnHold,
        Cause::NotOnHold,
        Cause::NoChannel,
    ];
}

#[derive(Clone, Copy, Debug, PartialEq, Eq)]
pub enum Verdict {
    Granted,
    Declined(Cause),
}

// What the other party, or the network, did to the call.
#[derive(Clone, Copy, Debug, PartialEq, Eq, PartialOrd, Ord)]
pub enum News {
    PutOnHold,
    Retrieved,
    Released,
}

impl News {
    pub(crate) const ALL: [News; 3] = [News::PutOnHold, News::Retrieved, News::Released];
}

#[derive(Clone, Copy, Debug, PartialEq, Eq)]
pub enum Body {
    Request(Operation),
    Answer(Operation, Verdict),
    ClearRequest,
    ClearAnswer,
    Notice(News),
}

// A frame's content. Not every content has a frame: a notice has exchange bit 0, and so on (see `write`).
#[derive(Clone, Copy, Debug, PartialEq, Eq)]
pub struct Frame {
    pub exchange: bool,
    pub call: CallId,
    pub body: Body,
}
