// The steps of a test: what is done to a switch, and what must come of it. They are data, so that the number of a step that fails is told.
use frames::{Body, CallId, Frame, News, Operation, Verdict};
use links::Ring;
use records::HeldLegs;
use register::{General, Register, User};
use signalling::{post, pull};
use std::alloc::{AllocError, Global};
use std::process::Abort;
use std::test::Fail;
use switch::{Handled, Notified, Parts, Served, Switch};
use text::{Fault, Layer};

pub const GRANTED: Verdict = Verdict::Granted;

#[derive(Clone, Copy)]
pub enum Step {
    // A user gets a session, or is refused one with a number.
    Seat(u32),
    NoSeat(u32, u8),
    // A call is connected between two users, or refused with a number.
    Join(u16, u32, u32),
    NoJoin(u16, u32, u32, u8),
    // A new request of a user is handled so.
    Ask(u32, Handled),
    // A user's frame with his last bit, which asks for the first, gets the answer to the second again.
    Again(u32, Handled, Handled),
    // A user's frame with this bit is refused with a number.
    Refuse(u32, bool, Body, u8),
    // A user's next notice, or that he has none.
    Tell(u32, u16, News),
    Silent(u32),
    // The network clears a call, in which these legs were on hold, or is refused by 38.
    Clear(u16, HeldLegs),
    NoClear(u16),
    // So many channels are in use; so many records are there.
    Channels(u8),
    Records(usize),
}

pub fn hold(call: u16, verdict: Verdict) -> Handled {
    Handled::Answered(Operation::Hold, CallId(call), verdict)
}

pub fn retrieve(call: u16, verdict: Verdict) -> Handled {
    Handled::Answered(Operation::Retrieve, CallId(call), verdict)
}

pub fn clear(call: u16, held: HeldLegs) -> Handled {
    Handled::Cleared(CallId(call), held)
}

pub fn parts(heap: Global, channels: u8) -> Result<Parts, Fail> {
    Parts::new(heap, channels).map_err(|_| Fail::new("no parts"))
}

// A switch with one limit for everybody.
pub fn a_switch(heap: Global, limit: u8, channels: u8) -> Result<Switch<General>, Fail> {
    let register = General::new(limit)?;
    let parts = parts(heap, channels)?;
    Ok(Switch::new(register, parts))
}

// One of 8 bytes refuses every frame.
pub fn ring_of(heap: Global, bytes: usize) -> Result<Ring, AllocError> {
    Ok(Ring::new(vec![in heap; 0; bytes]?))
}

fn frame(exchange: bool, call: CallId, body: Body) -> Frame {
    Frame {
        exchange,
        call,
        body,
    }
}

// The frame that asks for what was handled.
pub fn request(exchange: bool, handled: Handled) -> Frame {
    match handled {
        Handled::Answered(operation, call, _) => frame(exchange, call, Body::Request(operation)),
        Handled::Cleared(call, _) => frame(exchange, call, Body::ClearRequest),
    }
}

// The frame that answers it.
fn answer(exchange: bool, handled: Handled) -> Frame {
    match handled {
        Handled::Answered(operation, call, verdict) => {
            frame(exchange, call, Body::Answer(operation, verdict))
        }
        Handled::Cleared(call, _) => frame(exchange, call, Body::ClearAnswer),
    }
}

// The bit of the last request of a user that was handled.
fn last_bit<R: Register>(switch: &Switch<R>, user: u32) -> bool {
    let session = switch.sessions().iter().find(|s| s.user == User(user));
    session.is_none_or(|s| s.exchange)
}

// The checks below take the number of the step, and tell it where they fail.
fn no_seat<R: Register>(rt: &impl Abort, at: usize, switch: &mut Switch<R>, user: u32, number: u8) {
    let before = switch.sessions().len();
    let told = switch.open_session(User(user));
    assert_eq!(rt; told, Err(Fault::new(Layer::Switch, number)), "step {at}");
    assert_eq!(rt; switch.sessions().len(), before, "step {at}");
}

fn no_join<R: Register>(
    rt: &impl Abort,
    at: usize,
    switch: &mut Switch<R>,
    call: u16,
    first: u32,
    second: u32,
    number: u8,
) {
    let channels = switch.channels_in_use();
    let records = switch.records().len();
    let last = switch.last_identifier();
    let told = switch.connect(CallId(call), User(first), User(second));
    assert_eq!(rt; told, Err(Fault::new(Layer::Switch, number)), "step {at}");
    assert_eq!(rt; switch.channels_in_use(), channels, "step {at}");
    assert_eq!(rt; switch.records().len(), records, "step {at}");
    assert_eq!(rt; switch.last_identifier(), last, "step {at}");
}

// A frame is served: this is told of it, and this comes down, and nothing else.
fn serve<R: Register>(
    rt: &impl Abort,
    heap: Global,
    at: usize,
    switch: &mut Switch<R>,
    user: u32,
    frame: Frame,
    told: Result<Served, Fault>,
    answer: Option<Frame>,
) -> Result<(), Fail> {
    let mut up = ring_of(heap, 64)?;
    let mut down = ring_of(heap, 64)?;
    post(&mut up, frame)?;
    assert_eq!(rt;
        switch.serve(User(user), &mut up, &mut down),
        told,
        "step {at}"
    );
    assert_eq!(rt; pull(&mut up), Ok(None), "step {at}");
    assert_eq!(rt; pull(&mut down), Ok(answer), "step {at}");
    assert_eq!(rt; pull(&mut down), Ok(None), "step {at}");
    Ok(())
}

fn notify<R: Register>(
    rt: &impl Abort,
    heap: Global,
    at: usize,
    switch: &mut Switch<R>,
    user: u32,
    told: Notified,
    sent: Option<Frame>,
) -> Result<(), Fail> {
    let mut down = ring_of(heap, 64)?;
    assert_eq!(rt; switch.notify(User(user), &mut down), Ok(told), "step {at}");
    assert_eq!(rt; pull(&mut down), Ok(sent), "step {at}");
    assert_eq!(rt; pull(&mut down), Ok(None), "step {at}");
    Ok(())
}

fn take_step<R: Register>(
    rt: &impl Abort,
    heap: Global,
    at: usize,
    switch: &mut Switch<R>,
    step: Step,
) -> Result<(), Fail> {
    match step {
        Step::Seat(user) => {
            assert_eq!(rt; switch.open_session(User(user)), Ok(()), "step {at}");
        }
        Step::NoSeat(user, number) => no_seat(rt, at, switch, user, number),
        Step::Join(call, first, second) => {
            let told = switch.connect(CallId(call), User(first), User(second));
            assert_eq!(rt; told, Ok(()), "step {at}");
        }
        Step::NoJoin(call, first, second, number) => {
            no_join(rt, at, switch, call, first, second, number);
        }
        Step::Ask(user, handled) => {
            let bit = !last_bit(switch, user);
            let told = Ok(Served::Fresh(handled, None));
            serve(
                rt,
                heap,
                at,
                switch,
                user,
                request(bit, handled),
                told,
                Some(answer(bit, handled)),
            )?;
        }
        Step::Again(user, asked, handled) => {
            let bit = last_bit(switch, user);
            let told = Ok(Served::Repeat(handled, None));
            serve(
                rt,
                heap,
                at,
                switch,
                user,
                request(bit, asked),
                told,
                Some(answer(bit, handled)),
            )?;
        }
        Step::Refuse(user, bit, body, number) => {
            let told = Err(Fault::new(Layer::Switch, number));
            serve(
                rt,
                heap,
                at,
                switch,
                user,
                frame(bit, CallId(5), body),
                told,
                None,
            )?;
        }
        Step::Tell(user, call, news) => {
            let call = CallId(call);
            let told = Notified::Notice(call, news, None);
            notify(
                rt,
                heap,
                at,
                switch,
                user,
                told,
                Some(frame(false, call, Body::Notice(news))),
            )?;
        }
        Step::Silent(user) => notify(rt, heap, at, switch, user, Notified::Nothing, None)?,
        Step::Clear(call, held) => {
            assert_eq!(rt; switch.clear(CallId(call)), Ok(held), "step {at}");
        }
        Step::NoClear(call) => {
            assert_eq!(rt;
                switch.clear(CallId(call)),
                Err(Fault::new(Layer::Switch, 38)),
                "step {at}"
            );
        }
        Step::Channels(used) => {
            assert_eq!(rt; switch.channels_in_use(), used, "step {at}");
        }
        Step::Records(records) => {
            assert_eq!(rt; switch.records().len(), records, "step {at}");
        }
    }
    Ok(())
}

// Takes the steps one after the other.
pub fn play<R: Register>(
    rt: &impl Abort,
    heap: Global,
    switch: &mut Switch<R>,
    steps: &[Step],
) -> Result<(), Fail> {
    for (i, next) in steps.iter().enumerate() {
        take_step(rt, heap, i, switch, *next)?;
    }
    Ok(())
}
