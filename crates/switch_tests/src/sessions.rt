// Making a switch and opening sessions.
use crate::steps::{Step, a_switch, play};
use register::User;
use std::alloc::Global;
use std::process::Abort;
use std::test::Fail;
use switch::{MakeError, Parts};
use text::{Fault, Layer};

fn refused_size(rt: &impl Abort, heap: Global, channels: u8) {
    match Parts::new(heap, channels) {
        Err(MakeError::Refused(fault)) => assert_eq!(rt; fault, Fault::new(Layer::Making, 53)),
        _ => panic!(rt; "{channels} channels are not refused"),
    }
}

#[test]
fn sizes(rt: HostRuntime) -> Result<(), Fail> {
    refused_size(&rt, rt.alloc(), 0);
    refused_size(&rt, rt.alloc(), 129);
    for channels in [1u8, 2, 128] {
        let mut switch = a_switch(rt.alloc(), 1, channels)?;
        assert_eq!(rt; switch.channels(), channels);
        assert_eq!(rt; switch.last_identifier(), 0);
        assert_eq!(rt; switch.sessions().len(), 0);
        play(
            &rt,
            rt.alloc(),
            &mut switch,
            &[Step::Channels(0), Step::Records(0), Step::Silent(1)],
        )?;
    }
    Ok(())
}

#[test]
fn users_in_range(rt: HostRuntime) -> Result<(), Fail> {
    let mut switch = a_switch(rt.alloc(), 1, 1)?;
    play(
        &rt,
        rt.alloc(),
        &mut switch,
        &[
            Step::NoSeat(0, 30),
            Step::NoSeat(16_777_216, 30),
            Step::Seat(16_777_215),
            Step::Seat(1),
            Step::NoSeat(1, 32),
            Step::NoSeat(16_777_215, 32),
        ],
    )
}

// 30 is checked before 32, and 32 before 33.
#[test]
fn thirty_two_sessions_and_one_more(rt: HostRuntime) -> Result<(), Fail> {
    let mut switch = a_switch(rt.alloc(), 1, 1)?;
    for user in 1..33u32 {
        assert_eq!(rt; switch.open_session(User(user)), Ok(()));
    }
    play(
        &rt,
        rt.alloc(),
        &mut switch,
        &[
            Step::NoSeat(33, 33),
            Step::NoSeat(32, 32),
            Step::NoSeat(0, 30),
        ],
    )
}
