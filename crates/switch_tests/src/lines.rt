// Waiting lines: alone, of 33, and rings.
use crate::steps::{GRANTED, Step, a_switch, clear, hold, play};
use records::HeldLegs;
use register::{General, User};
use std::alloc::Global;
use std::process::Abort;
use std::test::Fail;
use switch::Switch;
use text::{Fault, Layer};
use waiting::{WaitingLine, waiting_line};

// The line of a user, who stands first in it; the places past its length are untouched.
fn expect_line(rt: &impl Abort, switch: &Switch<General>, users: &[u32], ring: bool) {
    let first = users.first().copied().unwrap_or(0);
    let length = users.len();
    let mut line = [User(9_999); 35];
    assert_eq!(rt;
        waiting_line(switch, User(first), &mut line),
        Ok(WaitingLine { length, ring })
    );
    let mut wanted = [User(9_999); 35];
    for (place, user) in wanted.iter_mut().zip(users) {
        *place = User(*user);
    }
    assert_eq!(rt; line, wanted);
}

fn refused(rt: &impl Abort, switch: &Switch<General>, user: u32, line: &mut [User], number: u8) {
    assert_eq!(rt;
        waiting_line(switch, User(user), line),
        Err(Fault::new(Layer::Switch, number))
    );
    assert!(rt; line.iter().all(|place| place.0 == 9_999));
}

// 30 is checked before 44; both write nothing.
#[test]
fn users_and_places(rt: HostRuntime) -> Result<(), Fail> {
    let switch = a_switch(rt.alloc(), 1, 2)?;
    let mut few = [User(9_999); 32];
    let mut line = [User(9_999); 33];
    refused(&rt, &switch, 0, &mut line, 30);
    refused(&rt, &switch, 16_777_216, &mut line, 30);
    refused(&rt, &switch, 0, &mut few, 30);
    refused(&rt, &switch, 1, &mut few, 44);
    refused(&rt, &switch, 1, &mut [], 44);
    assert_eq!(rt;
        waiting_line(&switch, User(16_777_215), &mut line),
        Ok(WaitingLine {
            length: 1,
            ring: false,
        })
    );
    Ok(())
}

// Who is next: the other party of the lowest live call where the user talks and the other's leg is on hold.
#[test]
fn who_is_next(rt: HostRuntime) -> Result<(), Fail> {
    let mut switch = a_switch(rt.alloc(), 7, 128)?;
    play(
        &rt,
        rt.alloc(),
        &mut switch,
        &[
            Step::Seat(1),
            Step::Seat(2),
            Step::Seat(3),
            Step::Seat(4),
            Step::Join(5, 1, 2),
            Step::Join(6, 3, 1),
            Step::Join(7, 1, 4),
        ],
    )?;
    expect_line(&rt, &switch, &[1], false);
    play(
        &rt,
        rt.alloc(),
        &mut switch,
        &[Step::Ask(4, hold(7, GRANTED))],
    )?;
    expect_line(&rt, &switch, &[1, 4], false);
    expect_line(&rt, &switch, &[4], false);
    play(
        &rt,
        rt.alloc(),
        &mut switch,
        &[
            Step::Ask(3, hold(6, GRANTED)),
            Step::Ask(2, hold(5, GRANTED)),
            Step::Ask(1, hold(5, GRANTED)),
        ],
    )?;
    expect_line(&rt, &switch, &[1, 3], false);
    play(
        &rt,
        rt.alloc(),
        &mut switch,
        &[Step::Ask(3, clear(6, HeldLegs::First))],
    )?;
    expect_line(&rt, &switch, &[1, 4], false);
    Ok(())
}

// Users 1 to 33, each on hold in his call with the one before.
fn queue(rt: &impl Abort, heap: Global) -> Result<Switch<General>, Fail> {
    let mut switch = a_switch(heap, 7, 128)?;
    for id in 1..33u16 {
        let user = u32::from(id);
        play(
            rt,
            heap,
            &mut switch,
            &[
                Step::Seat(user + 1),
                Step::Join(id, user, user + 1),
                Step::Ask(user + 1, hold(id, GRANTED)),
            ],
        )?;
    }
    Ok(switch)
}

// With 32 sessions no line is longer.
#[test]
fn of_thirty_three(rt: HostRuntime) -> Result<(), Fail> {
    let mut switch = queue(&rt, rt.alloc())?;
    let mut users = [0u32; 33];
    for (place, user) in users.iter_mut().zip(1..=33u32) {
        *place = user;
    }
    expect_line(&rt, &switch, &users, false);
    expect_line(&rt, &switch, &users[1..], false);
    play(
        &rt,
        rt.alloc(),
        &mut switch,
        &[Step::Join(33, 2, 33), Step::Ask(2, hold(33, GRANTED))],
    )?;
    expect_line(&rt, &switch, &users, true);
    expect_line(&rt, &switch, &users[1..], true);
    Ok(())
}

// Users 1, 2 and 3 wait in a ring, and 4 before it.
#[test]
fn rings(rt: HostRuntime) -> Result<(), Fail> {
    let mut switch = a_switch(rt.alloc(), 7, 128)?;
    play(
        &rt,
        rt.alloc(),
        &mut switch,
        &[
            Step::Seat(1),
            Step::Seat(2),
            Step::Seat(3),
            Step::Join(5, 1, 2),
            Step::Join(6, 2, 3),
            Step::Join(7, 3, 1),
            Step::Join(8, 4, 1),
            Step::Ask(2, hold(5, GRANTED)),
            Step::Ask(3, hold(6, GRANTED)),
            Step::Ask(1, hold(7, GRANTED)),
            Step::Ask(1, hold(8, GRANTED)),
        ],
    )?;
    expect_line(&rt, &switch, &[1, 2, 3], true);
    expect_line(&rt, &switch, &[3, 1, 2], true);
    expect_line(&rt, &switch, &[4, 1, 2, 3], true);
    play(
        &rt,
        rt.alloc(),
        &mut switch,
        &[Step::Ask(2, clear(5, HeldLegs::Second))],
    )?;
    expect_line(&rt, &switch, &[4, 1], false);
    Ok(())
}
