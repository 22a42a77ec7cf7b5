// The fault layer over a ring.
use crate::steps::Step::{Accepts, HandsOut, IsEmpty, Refuses};
use crate::steps::{play, ring_of};
use links::Faulty;
use std::test::Fail;

// A send that is to be lost is not doubled.
#[test]
fn both_patterns_all_ones(rt: HostRuntime) -> Result<(), Fail> {
    let mut link = Faulty::new(ring_of(rt.alloc(), 64)?, u64::MAX, u64::MAX);
    for k in 0..130u8 {
        play(&rt, &mut link, &[Accepts(16, k), IsEmpty])?;
    }
    Ok(())
}

// Three frames of 16 bytes fit: of the second send one copy, of the third none.
#[test]
fn doubled_into_full_memory(rt: HostRuntime) -> Result<(), Fail> {
    let mut link = Faulty::new(ring_of(rt.alloc(), 64)?, 0, u64::MAX);
    play(
        &rt,
        &mut link,
        &[
            Accepts(16, 1),
            Accepts(16, 2),
            Refuses(16, 43),
            HandsOut(16, 1),
            HandsOut(16, 1),
        ],
    )?;
    let mut ring = link.into_lower();
    play(&rt, &mut ring, &[HandsOut(16, 2), IsEmpty])
}

// Send 0 is doubled and send 63 lost; 41 is not counted, 43 is.
#[test]
fn sends_start_over_after_63(rt: HostRuntime) -> Result<(), Fail> {
    let mut link = Faulty::new(ring_of(rt.alloc(), 64)?, 1 << 63, 1);
    for round in 0..3u8 {
        play(
            &rt,
            &mut link,
            &[
                Accepts(1, round),
                HandsOut(1, round),
                HandsOut(1, round),
                IsEmpty,
                Refuses(0, 41),
                Refuses(17, 41),
            ],
        )?;
        for k in 1..59u8 {
            play(&rt, &mut link, &[Accepts(1, k), HandsOut(1, k), IsEmpty])?;
        }
        play(
            &rt,
            &mut link,
            &[
                Accepts(16, 59),
                Accepts(16, 60),
                Accepts(16, 61),
                Refuses(16, 43),
                Accepts(16, 63),
            ],
        )?;
        play(
            &rt,
            &mut link,
            &[
                HandsOut(16, 59),
                HandsOut(16, 60),
                HandsOut(16, 61),
                IsEmpty,
            ],
        )?;
    }
    Ok(())
}
