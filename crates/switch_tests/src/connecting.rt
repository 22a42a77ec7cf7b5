// Connecting calls, and clearing them for the network.
use crate::steps::{GRANTED, Step, a_switch, hold, play};
use frames::{CallId, News};
use records::HeldLegs;
use register::{Register, User};
use std::process::Abort;
use std::test::Fail;
use switch::Switch;

// 30 is checked of both before 34, and 34 before 35.
#[test]
fn parties(rt: HostRuntime) -> Result<(), Fail> {
    let mut switch = a_switch(rt.alloc(), 1, 128)?;
    play(
        &rt,
        rt.alloc(),
        &mut switch,
        &[
            Step::NoJoin(5, 0, 2, 30),
            Step::NoJoin(5, 1, 16_777_216, 30),
            Step::NoJoin(0, 0, 0, 30),
            Step::NoJoin(5, 3, 3, 34),
            Step::NoJoin(0, 3, 3, 34),
            Step::Join(5, 16_777_215, 1),
        ],
    )
}

// An identifier is never taken again, not after a clear either.
#[test]
fn identifiers(rt: HostRuntime) -> Result<(), Fail> {
    let mut switch = a_switch(rt.alloc(), 1, 128)?;
    play(
        &rt,
        rt.alloc(),
        &mut switch,
        &[
            Step::NoJoin(0, 1, 2, 35),
            Step::NoJoin(16_384, 1, 2, 35),
            Step::Join(5, 1, 2),
            Step::NoJoin(5, 3, 4, 35),
            Step::NoJoin(4, 3, 4, 35),
            Step::Clear(5, HeldLegs::Neither),
            Step::NoJoin(5, 1, 2, 35),
            Step::Tell(1, 5, News::Released),
            Step::Tell(2, 5, News::Released),
            Step::Records(0),
            Step::NoJoin(5, 1, 2, 35),
            Step::Join(16_383, 1, 2),
            Step::NoJoin(16_383, 1, 2, 35),
        ],
    )
}

// Connects calls from 1 to the last, all between users 1 and 2.
fn fill<R: Register>(rt: &impl Abort, switch: &mut Switch<R>, last: u16) {
    for id in 1..=last {
        assert_eq!(rt; switch.connect(CallId(id), User(1), User(2)), Ok(()));
    }
}

// 35 is checked before 36, and 36 before 37. A cleared call takes up its place until both parties are told.
#[test]
fn sixty_four_records_and_one_more(rt: HostRuntime) -> Result<(), Fail> {
    let mut switch = a_switch(rt.alloc(), 1, 128)?;
    fill(&rt, &mut switch, 64);
    play(
        &rt,
        rt.alloc(),
        &mut switch,
        &[
            Step::Channels(128),
            Step::NoJoin(65, 1, 2, 36),
            Step::NoJoin(64, 1, 2, 35),
            Step::Clear(30, HeldLegs::Neither),
            Step::Channels(126),
            Step::NoJoin(65, 1, 2, 36),
            Step::Tell(1, 30, News::Released),
            Step::NoJoin(65, 1, 2, 36),
            Step::Tell(2, 30, News::Released),
            Step::Records(63),
            Step::Join(65, 1, 2),
            Step::NoJoin(66, 1, 2, 36),
        ],
    )
}

// A call that finds one channel leaves it free.
#[test]
fn channels(rt: HostRuntime) -> Result<(), Fail> {
    let mut switch = a_switch(rt.alloc(), 1, 1)?;
    play(&rt, rt.alloc(), &mut switch, &[Step::NoJoin(5, 1, 2, 37)])?;
    let mut switch = a_switch(rt.alloc(), 1, 2)?;
    play(
        &rt,
        rt.alloc(),
        &mut switch,
        &[
            Step::Seat(1),
            Step::Join(5, 1, 2),
            Step::NoJoin(6, 1, 2, 37),
            Step::Ask(1, hold(5, GRANTED)),
            Step::Channels(1),
            Step::NoJoin(6, 1, 2, 37),
        ],
    )?;
    let mut switch = a_switch(rt.alloc(), 1, 127)?;
    fill(&rt, &mut switch, 63);
    play(
        &rt,
        rt.alloc(),
        &mut switch,
        &[Step::Channels(126), Step::NoJoin(64, 1, 2, 37)],
    )
}

#[test]
fn numbers_of_held_legs(rt: HostRuntime) {
    assert_eq!(rt; u8::from(HeldLegs::Neither), 0);
    assert_eq!(rt; u8::from(HeldLegs::First), 1);
    assert_eq!(rt; u8::from(HeldLegs::Second), 2);
    assert_eq!(rt; u8::from(HeldLegs::Both), 3);
}

// The legs that were on hold are told, and the channels of the others are free; both parties have news of it.
#[test]
fn cleared_by_the_network(rt: HostRuntime) -> Result<(), Fail> {
    let mut switch = a_switch(rt.alloc(), 7, 128)?;
    fill(&rt, &mut switch, 4);
    play(
        &rt,
        rt.alloc(),
        &mut switch,
        &[
            Step::Seat(1),
            Step::Seat(2),
            Step::Ask(1, hold(2, GRANTED)),
            Step::Ask(1, hold(4, GRANTED)),
            Step::Ask(2, hold(3, GRANTED)),
            Step::Ask(2, hold(4, GRANTED)),
            Step::Channels(4),
            Step::Clear(1, HeldLegs::Neither),
            Step::Channels(2),
            Step::Clear(2, HeldLegs::First),
            Step::Channels(1),
            Step::Clear(3, HeldLegs::Second),
            Step::Channels(0),
            Step::Clear(4, HeldLegs::Both),
            Step::Channels(0),
            Step::NoClear(4),
            Step::NoClear(5),
        ],
    )?;
    for user in [1u32, 2] {
        play(
            &rt,
            rt.alloc(),
            &mut switch,
            &[
                Step::Tell(user, 1, News::Released),
                Step::Tell(user, 2, News::Released),
                Step::Tell(user, 3, News::Released),
                Step::Tell(user, 4, News::Released),
                Step::Silent(user),
            ],
        )?;
    }
    play(
        &rt,
        rt.alloc(),
        &mut switch,
        &[Step::Records(0), Step::NoClear(4)],
    )
}
