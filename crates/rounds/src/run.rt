// The run: an answer lost and the request repeated, a ring in the waiting line, a retrieval that finds no channel, a request doubled, a
// hold over the limit, and clears by the network and by the user.
use frames::CallId;
use pair::Call;
use register::User;
use signalling::Ask;

pub(crate) const OWN: User = User(101);

pub(crate) const OTHER: User = User(102);

pub(crate) const LIMIT: u8 = 2;

pub(crate) const CHANNELS: u8 = 4;

// Which sends to the switch are doubled, and which to the terminal are lost: the retrieval that is granted, and the first answer.
pub(crate) const UP_DOUBLED: u64 = 0b1000;

pub(crate) const DOWN_LOST: u64 = 0b1;

pub(crate) const CALLS: [Call; 72] = [
    Call::Open(OWN),
    Call::Open(OTHER),
    Call::Connect(CallId(1), OWN, OTHER),
    Call::Join(CallId(1)),
    Call::Connect(CallId(2), OTHER, OWN),
    Call::Join(CallId(2)),
    Call::Connect(CallId(3), OWN, OTHER),
    Call::Request(Ask::Hold, CallId(2)),
    Call::Serve(OWN),
    Call::Receive,
    Call::Tick,
    Call::Tick,
    Call::Tick,
    Call::Tick,
    Call::Tick,
    Call::Tick,
    Call::Tick,
    Call::Tick,
    Call::Tick,
    Call::Tick,
    Call::Tick,
    Call::Tick,
    Call::Tick,
    Call::Tick,
    Call::Tick,
    Call::Tick,
    Call::Tick,
    Call::Tick,
    Call::Tick,
    Call::Tick,
    Call::Serve(OWN),
    Call::Receive,
    Call::Serve(OTHER),
    Call::Notify(OWN),
    Call::Receive,
    Call::Connect(CallId(3), OWN, OTHER),
    Call::Join(CallId(3)),
    Call::Request(Ask::Retrieve, CallId(2)),
    Call::Serve(OWN),
    Call::Receive,
    Call::Clear(CallId(3)),
    Call::Request(Ask::Retrieve, CallId(2)),
    Call::Serve(OWN),
    Call::Serve(OWN),
    Call::Receive,
    Call::Receive,
    Call::Notify(OWN),
    Call::Receive,
    Call::Request(Ask::Hold, CallId(1)),
    Call::Serve(OWN),
    Call::Receive,
    Call::Request(Ask::Hold, CallId(2)),
    Call::Serve(OWN),
    Call::Receive,
    Call::Connect(CallId(4), OWN, OTHER),
    Call::Join(CallId(4)),
    Call::Request(Ask::Hold, CallId(4)),
    Call::Serve(OWN),
    Call::Receive,
    Call::Clear(CallId(1)),
    Call::Request(Ask::Clear, CallId(2)),
    Call::Serve(OWN),
    Call::Receive,
    Call::Notify(OWN),
    Call::Receive,
    Call::Serve(OTHER),
    Call::Notify(OTHER),
    Call::Serve(OWN),
    Call::Receive,
    Call::Tick,
    Call::Clear(CallId(9)),
    Call::Notify(User(0)),
];
