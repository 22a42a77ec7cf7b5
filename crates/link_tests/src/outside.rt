// A link written outside, alone and under the fault layer.
use crate::steps::Step::{Accepts, HandsOut, IsEmpty, Refuses};
use crate::steps::play;
use links::Faulty;
use outside_link::Echo;
use std::test::Fail;

#[test]
fn each_twice_and_not_every_third(rt: HostRuntime) -> Result<(), Fail> {
    let mut echo = Echo::new(rt.alloc())?;
    play(
        &rt,
        &mut echo,
        &[Accepts(8, 1), Accepts(2, 2), Refuses(2, 43), Refuses(9, 41)],
    )?;
    play(
        &rt,
        &mut echo,
        &[
            HandsOut(8, 1),
            HandsOut(8, 1),
            HandsOut(2, 2),
            HandsOut(2, 2),
            IsEmpty,
        ],
    )
}

// Send 0 is doubled and send 1 lost, so send 2 is the third that the queue sees.
#[test]
fn under_the_fault_layer(rt: HostRuntime) -> Result<(), Fail> {
    let mut link = Faulty::new(Echo::new(rt.alloc())?, 2, 1);
    play(
        &rt,
        &mut link,
        &[Accepts(2, 1), Accepts(2, 2), Refuses(2, 43)],
    )?;
    play(
        &rt,
        &mut link,
        &[
            HandsOut(2, 1),
            HandsOut(2, 1),
            HandsOut(2, 1),
            HandsOut(2, 1),
            IsEmpty,
        ],
    )
}
