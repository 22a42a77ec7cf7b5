// What comes of holds, retrievals and clears.
use crate::steps::{GRANTED, Step, a_switch, clear, hold, parts, play, retrieve};
use frames::{Cause, News, Verdict};
use records::HeldLegs;
use register::{Entry, Table, User};
use std::test::Fail;
use switch::Switch;

const NOT_SUBSCRIBED: Verdict = Verdict::Declined(Cause::NotSubscribed);

const LIMIT_REACHED: Verdict = Verdict::Declined(Cause::LimitReached);

const NOT_THERE: Verdict = Verdict::Declined(Cause::CallNotThere);

const ALREADY: Verdict = Verdict::Declined(Cause::AlreadyOnHold);

const NOT_ON_HOLD: Verdict = Verdict::Declined(Cause::NotOnHold);

const NO_CHANNEL: Verdict = Verdict::Declined(Cause::NoChannel);

// A call is not there if it never was, if it was cleared, or for one who is no party of it.
#[test]
fn not_there(rt: HostRuntime) -> Result<(), Fail> {
    let mut switch = a_switch(rt.alloc(), 1, 128)?;
    play(
        &rt,
        rt.alloc(),
        &mut switch,
        &[
            Step::Seat(1),
            Step::Seat(3),
            Step::Join(5, 1, 2),
            Step::Join(6, 1, 2),
            Step::Clear(6, HeldLegs::Neither),
            Step::Ask(1, hold(4, NOT_THERE)),
            Step::Ask(1, hold(6, NOT_THERE)),
            Step::Ask(3, hold(5, NOT_THERE)),
            Step::Ask(1, retrieve(4, NOT_THERE)),
            Step::Ask(1, retrieve(6, NOT_THERE)),
            Step::Ask(3, retrieve(5, NOT_THERE)),
            Step::Ask(1, clear(4, HeldLegs::Neither)),
            Step::Ask(1, clear(6, HeldLegs::Neither)),
            Step::Ask(3, clear(5, HeldLegs::Neither)),
            Step::Channels(2),
            Step::Records(2),
            Step::Tell(1, 6, News::Released),
            Step::Silent(1),
            Step::Tell(2, 6, News::Released),
            Step::Silent(2),
            Step::Silent(3),
        ],
    )
}

// A call that is there is looked at before the limit, and one on hold before the number of those.
#[test]
fn holds(rt: HostRuntime) -> Result<(), Fail> {
    let entry = Entry {
        user: User(1),
        limit: 1,
    };
    let entries = [entry];
    let register = Table::new(&entries)?;
    let parts = parts(rt.alloc(), 128)?;
    let mut switch = Switch::new(register, parts);
    play(
        &rt,
        rt.alloc(),
        &mut switch,
        &[
            Step::Seat(1),
            Step::Seat(2),
            Step::Join(5, 1, 2),
            Step::Join(6, 1, 2),
            Step::Ask(2, hold(4, NOT_THERE)),
            Step::Ask(2, hold(5, NOT_SUBSCRIBED)),
            Step::Ask(1, hold(5, GRANTED)),
            Step::Ask(1, hold(5, ALREADY)),
            Step::Ask(1, hold(6, LIMIT_REACHED)),
            Step::Ask(1, hold(4, NOT_THERE)),
            Step::Ask(2, hold(5, NOT_SUBSCRIBED)),
            Step::Channels(3),
            Step::Ask(1, retrieve(5, GRANTED)),
            Step::Ask(1, hold(6, GRANTED)),
            Step::Ask(1, hold(5, LIMIT_REACHED)),
            Step::Ask(1, clear(6, HeldLegs::First)),
            Step::Ask(1, hold(5, GRANTED)),
            Step::Channels(1),
        ],
    )
}

// The limit counts the user's own legs, seven at most.
#[test]
fn seven_on_hold(rt: HostRuntime) -> Result<(), Fail> {
    let mut switch = a_switch(rt.alloc(), 7, 128)?;
    play(
        &rt,
        rt.alloc(),
        &mut switch,
        &[Step::Seat(1), Step::Seat(2)],
    )?;
    for id in 1..8u16 {
        play(
            &rt,
            rt.alloc(),
            &mut switch,
            &[Step::Join(id, 1, 2), Step::Ask(1, hold(id, GRANTED))],
        )?;
    }
    play(
        &rt,
        rt.alloc(),
        &mut switch,
        &[
            Step::Join(8, 2, 1),
            Step::Ask(1, hold(8, LIMIT_REACHED)),
            Step::Ask(2, hold(1, GRANTED)),
            Step::Channels(8),
        ],
    )
}

// Whether the leg is on hold is looked at before the channels.
#[test]
fn retrievals(rt: HostRuntime) -> Result<(), Fail> {
    let mut switch = a_switch(rt.alloc(), 1, 3)?;
    play(
        &rt,
        rt.alloc(),
        &mut switch,
        &[
            Step::Seat(1),
            Step::Seat(3),
            Step::Join(5, 1, 2),
            Step::Ask(1, retrieve(5, NOT_ON_HOLD)),
            Step::Ask(1, hold(5, GRANTED)),
            Step::Join(6, 3, 4),
            Step::Channels(3),
            Step::Ask(3, retrieve(5, NOT_THERE)),
            Step::Ask(3, retrieve(6, NOT_ON_HOLD)),
            Step::Ask(1, retrieve(5, NO_CHANNEL)),
            Step::Ask(3, hold(6, GRANTED)),
            Step::Ask(1, retrieve(5, GRANTED)),
            Step::Ask(3, retrieve(6, NO_CHANNEL)),
            Step::Channels(3),
            Step::Tell(2, 5, News::Retrieved),
            Step::Tell(4, 6, News::PutOnHold),
            Step::Silent(1),
            Step::Silent(3),
        ],
    )
}

// A clear tells the legs that were on hold, and frees the channels of the others; a second one is of a call not there.
#[test]
fn clears(rt: HostRuntime) -> Result<(), Fail> {
    let mut switch = a_switch(rt.alloc(), 7, 128)?;
    play(
        &rt,
        rt.alloc(),
        &mut switch,
        &[
            Step::Seat(1),
            Step::Seat(2),
            Step::Join(1, 1, 2),
            Step::Join(2, 1, 2),
            Step::Join(3, 1, 2),
            Step::Join(4, 1, 2),
            Step::Ask(1, hold(2, GRANTED)),
            Step::Ask(2, hold(3, GRANTED)),
            Step::Ask(1, hold(4, GRANTED)),
            Step::Ask(2, hold(4, GRANTED)),
            Step::Ask(2, clear(1, HeldLegs::Neither)),
            Step::Channels(2),
            Step::Ask(1, clear(2, HeldLegs::First)),
            Step::Channels(1),
            Step::Ask(1, clear(3, HeldLegs::Second)),
            Step::Channels(0),
            Step::Ask(2, clear(4, HeldLegs::Both)),
            Step::Channels(0),
            Step::Ask(2, clear(4, HeldLegs::Neither)),
            Step::Ask(1, clear(4, HeldLegs::Neither)),
            Step::Records(4),
        ],
    )
}
