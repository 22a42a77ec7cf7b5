// The calls that can be made on a pair.
use frames::CallId;
use register::User;
use signalling::Ask;

// `Connect` is at the switch, `Join` at the terminal. `Serve` and `Notify` name whoever is served: the pair's user over the pair's links.
#[derive(Clone, Copy)]
pub enum Call {
    Open(User),
    Connect(CallId, User, User),
    Join(CallId),
    Request(Ask, CallId),
    Tick,
    Receive,
    Serve(User),
    Notify(User),
    Clear(CallId),
}
