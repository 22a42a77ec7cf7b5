// Notices: which one is next, and what drops them.
use crate::steps::{GRANTED, Step, a_switch, clear, hold, play, retrieve, ring_of};
use frames::{CallId, News};
use records::HeldLegs;
use register::User;
use signalling::pull;
use std::test::Fail;
use switch::Notified;
use text::{Fault, Layer};

#[test]
fn users_in_range(rt: HostRuntime) -> Result<(), Fail> {
    let mut switch = a_switch(rt.alloc(), 1, 2)?;
    let mut down = ring_of(rt.alloc(), 64)?;
    for user in [0u32, 16_777_216] {
        assert_eq!(rt;
            switch.notify(User(user), &mut down),
            Err(Fault::new(Layer::Switch, 30))
        );
    }
    assert_eq!(rt; pull(&mut down), Ok(None));
    play(&rt, rt.alloc(), &mut switch, &[Step::Silent(16_777_215)])
}

// Released before retrieved before put on hold, and among equals the lowest call.
#[test]
fn in_their_order(rt: HostRuntime) -> Result<(), Fail> {
    let mut switch = a_switch(rt.alloc(), 7, 128)?;
    play(
        &rt,
        rt.alloc(),
        &mut switch,
        &[
            Step::Seat(2),
            Step::Join(1, 1, 2),
            Step::Join(2, 2, 1),
            Step::Join(3, 1, 2),
            Step::Join(4, 2, 1),
            Step::Join(5, 1, 2),
            Step::Join(6, 2, 1),
            Step::Ask(2, hold(2, GRANTED)),
            Step::Ask(2, hold(1, GRANTED)),
            Step::Ask(2, hold(4, GRANTED)),
            Step::Ask(2, hold(3, GRANTED)),
            Step::Ask(2, retrieve(4, GRANTED)),
            Step::Ask(2, retrieve(3, GRANTED)),
            Step::Ask(2, clear(6, HeldLegs::Neither)),
            Step::Ask(2, clear(5, HeldLegs::Neither)),
        ],
    )?;
    play(
        &rt,
        rt.alloc(),
        &mut switch,
        &[
            Step::Tell(1, 5, News::Released),
            Step::Tell(1, 6, News::Released),
            Step::Tell(1, 3, News::Retrieved),
            Step::Tell(1, 4, News::Retrieved),
            Step::Tell(1, 1, News::PutOnHold),
            Step::Tell(1, 2, News::PutOnHold),
            Step::Silent(1),
            Step::Silent(2),
            Step::Records(4),
        ],
    )
}

// Fresh news takes the place of older news, whichever ranks higher.
#[test]
fn replaced(rt: HostRuntime) -> Result<(), Fail> {
    let mut switch = a_switch(rt.alloc(), 7, 128)?;
    play(
        &rt,
        rt.alloc(),
        &mut switch,
        &[
            Step::Seat(1),
            Step::Seat(2),
            Step::Join(5, 1, 2),
            Step::Join(6, 1, 2),
            Step::Ask(2, hold(5, GRANTED)),
            Step::Ask(2, retrieve(5, GRANTED)),
            Step::Ask(2, hold(6, GRANTED)),
            Step::Ask(2, retrieve(6, GRANTED)),
            Step::Ask(2, hold(6, GRANTED)),
            Step::Ask(1, hold(6, GRANTED)),
            Step::Tell(1, 5, News::Retrieved),
            Step::Tell(1, 6, News::PutOnHold),
            Step::Silent(1),
            Step::Clear(6, HeldLegs::Both),
            Step::Tell(2, 6, News::Released),
            Step::Silent(2),
            Step::Tell(1, 6, News::Released),
            Step::Silent(1),
        ],
    )
}

// A party's clear drops his own news of that call and of no other; a clear of a call not there drops none.
#[test]
fn dropped_by_a_clear(rt: HostRuntime) -> Result<(), Fail> {
    let mut switch = a_switch(rt.alloc(), 7, 128)?;
    play(
        &rt,
        rt.alloc(),
        &mut switch,
        &[
            Step::Seat(1),
            Step::Seat(2),
            Step::Seat(3),
            Step::Join(5, 1, 2),
            Step::Join(6, 1, 2),
            Step::Join(7, 1, 2),
            Step::Ask(2, hold(5, GRANTED)),
            Step::Ask(2, hold(6, GRANTED)),
            Step::Ask(2, clear(7, HeldLegs::Neither)),
            Step::Ask(1, clear(5, HeldLegs::Second)),
            Step::Ask(1, clear(7, HeldLegs::Neither)),
            Step::Ask(1, clear(4, HeldLegs::Neither)),
            Step::Ask(3, clear(6, HeldLegs::Neither)),
            Step::Tell(1, 7, News::Released),
            Step::Tell(1, 6, News::PutOnHold),
            Step::Silent(1),
            Step::Tell(2, 5, News::Released),
            Step::Silent(2),
            Step::Silent(3),
            Step::Records(1),
        ],
    )
}

// News is dropped though the link refuses the notice, and its fault is told.
#[test]
fn refused_notices(rt: HostRuntime) -> Result<(), Fail> {
    let mut switch = a_switch(rt.alloc(), 7, 128)?;
    let mut down = ring_of(rt.alloc(), 8)?;
    play(
        &rt,
        rt.alloc(),
        &mut switch,
        &[Step::Join(5, 1, 2), Step::Clear(5, HeldLegs::Neither)],
    )?;
    let fault = Some(Fault::new(Layer::Link, 43));
    for user in [1u32, 2] {
        assert_eq!(rt;
            switch.notify(User(user), &mut down),
            Ok(Notified::Notice(CallId(5), News::Released, fault))
        );
        play(&rt, rt.alloc(), &mut switch, &[Step::Silent(user)])?;
    }
    play(&rt, rt.alloc(), &mut switch, &[Step::Records(0)])
}
