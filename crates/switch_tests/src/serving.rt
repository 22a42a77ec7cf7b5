// Serving: what is refused, what is taken, and what is answered again.
use crate::steps::{GRANTED, Step, a_switch, clear, hold, play, request, retrieve, ring_of};
use frames::{Body, Cause, News, Operation, Verdict};
use links::Link;
use records::HeldLegs;
use register::{General, User};
use signalling::{post, pull};
use std::alloc::Global;
use std::process::Abort;
use std::test::Fail;
use switch::{Served, Switch};
use text::{Fault, Layer};

// A switch with call 5 between users 1 and 2, who have sessions.
fn one_call(rt: &impl Abort, heap: Global) -> Result<Switch<General>, Fail> {
    let mut switch = a_switch(heap, 1, 2)?;
    play(
        rt,
        heap,
        &mut switch,
        &[Step::Seat(1), Step::Seat(2), Step::Join(5, 1, 2)],
    )?;
    Ok(switch)
}

// 30 and 31 take nothing.
#[test]
fn not_served(rt: HostRuntime) -> Result<(), Fail> {
    let mut switch = one_call(&rt, rt.alloc())?;
    let mut up = ring_of(rt.alloc(), 64)?;
    let mut down = ring_of(rt.alloc(), 64)?;
    assert_eq!(rt;
        switch.serve(User(1), &mut up, &mut down),
        Ok(Served::Nothing)
    );
    let asked = request(false, hold(5, GRANTED));
    post(&mut up, asked)?;
    for (user, number) in [(0u32, 30u8), (16_777_216, 30), (3, 31)] {
        assert_eq!(rt;
            switch.serve(User(user), &mut up, &mut down),
            Err(Fault::new(Layer::Switch, number))
        );
    }
    assert_eq!(rt; pull(&mut down), Ok(None));
    assert_eq!(rt; pull(&mut up), Ok(Some(asked)));
    assert_eq!(rt; switch.channels_in_use(), 2);
    Ok(())
}

// A frame that cannot be read is taken, and its fault handed up as it is.
fn refused_frame(
    rt: &impl Abort,
    heap: Global,
    switch: &mut Switch<General>,
    octets: &[u8],
    number: u8,
    place: usize,
) -> Result<(), Fail> {
    let mut up = ring_of(heap, 64)?;
    let mut down = ring_of(heap, 64)?;
    up.send(octets)?;
    assert_eq!(rt;
        switch.serve(User(1), &mut up, &mut down),
        Err(Fault::at(Layer::Frame, number, place))
    );
    assert_eq!(rt; pull(&mut up), Ok(None));
    assert_eq!(rt; pull(&mut down), Ok(None));
    Ok(())
}

#[test]
fn refused_frames(rt: HostRuntime) -> Result<(), Fail> {
    let mut switch = one_call(&rt, rt.alloc())?;
    refused_frame(&rt, rt.alloc(), &mut switch, &[0x10], 11, 1)?;
    for (octets, number, place) in [
        ([0x00u8, 0x00, 0x05, 0x0B, 0x30, 0xC0], 12u8, 0usize),
        ([0x10, 0x00, 0x00, 0x0B, 0x30, 0xC0], 13, 1),
        ([0x10, 0x00, 0x05, 0x0B, 0x30, 0xC1], 14, 3),
        ([0x10, 0x00, 0x05, 0x0B, 0x34, 0xC0], 15, 4),
        ([0x10, 0x00, 0x05, 0x0B, 0x30, 0xE0], 16, 4),
        ([0x21, 0x00, 0x05, 0x0F, 0x30, 0xE0], 17, 3),
    ] {
        refused_frame(&rt, rt.alloc(), &mut switch, &octets, number, place)?;
    }
    play(
        &rt,
        rt.alloc(),
        &mut switch,
        &[Step::Ask(1, hold(5, GRANTED))],
    )
}

// 39 is checked before 40; neither counts as a request handled.
#[test]
fn no_requests(rt: HostRuntime) -> Result<(), Fail> {
    let mut switch = one_call(&rt, rt.alloc())?;
    let granted = Body::Answer(Operation::Hold, GRANTED);
    play(
        &rt,
        rt.alloc(),
        &mut switch,
        &[
            Step::Refuse(1, false, granted, 39),
            Step::Refuse(1, false, Body::ClearAnswer, 39),
            Step::Refuse(1, false, Body::Notice(News::Released), 39),
            Step::Refuse(1, true, granted, 39),
            Step::Refuse(1, true, Body::ClearAnswer, 39),
            Step::Refuse(1, true, Body::ClearRequest, 40),
            Step::Refuse(1, true, Body::Request(Operation::Hold), 40),
            Step::Channels(2),
            Step::Ask(1, clear(5, HeldLegs::Neither)),
            Step::Refuse(1, false, granted, 39),
        ],
    )
}

const DECLINED: Verdict = Verdict::Declined(Cause::NotOnHold);

// A repeat is known by its bit alone, and told as what was handled last.
#[test]
fn repeats(rt: HostRuntime) -> Result<(), Fail> {
    let mut switch = one_call(&rt, rt.alloc())?;
    for (handled, left) in [
        (hold(5, GRANTED), 1u8),
        (retrieve(5, GRANTED), 2),
        (retrieve(5, DECLINED), 2),
        (hold(5, GRANTED), 1),
        (clear(5, HeldLegs::First), 0),
    ] {
        play(
            &rt,
            rt.alloc(),
            &mut switch,
            &[
                Step::Ask(1, handled),
                Step::Channels(left),
                Step::Again(1, handled, handled),
                Step::Again(1, hold(9, GRANTED), handled),
                Step::Again(1, clear(5, HeldLegs::Neither), handled),
                Step::Channels(left),
            ],
        )?;
    }
    play(
        &rt,
        rt.alloc(),
        &mut switch,
        &[Step::Tell(2, 5, News::Released), Step::Silent(2)],
    )
}

// One user's bit is not another's.
#[test]
fn bits_of_two_users(rt: HostRuntime) -> Result<(), Fail> {
    let mut switch = one_call(&rt, rt.alloc())?;
    let held = hold(5, GRANTED);
    play(
        &rt,
        rt.alloc(),
        &mut switch,
        &[
            Step::Ask(1, held),
            Step::Refuse(2, true, Body::ClearRequest, 40),
            Step::Ask(2, held),
            Step::Channels(0),
            Step::Ask(1, retrieve(5, GRANTED)),
            Step::Again(2, held, held),
            Step::Channels(1),
        ],
    )
}

// An answer that the link refuses is kept; its fault is told beside the outcome.
#[test]
fn refused_answers(rt: HostRuntime) -> Result<(), Fail> {
    let mut switch = one_call(&rt, rt.alloc())?;
    let mut up = ring_of(rt.alloc(), 64)?;
    let mut down = ring_of(rt.alloc(), 8)?;
    let held = hold(5, GRANTED);
    let fault = Some(Fault::new(Layer::Link, 43));
    for told in [Served::Fresh(held, fault), Served::Repeat(held, fault)] {
        post(&mut up, request(false, held))?;
        assert_eq!(rt; switch.serve(User(1), &mut up, &mut down), Ok(told));
        assert_eq!(rt; switch.channels_in_use(), 1);
    }
    play(&rt, rt.alloc(), &mut switch, &[Step::Again(1, held, held)])
}
