// Rings and lines in memory handed over.
use crate::steps::Step::{Accepts, HandsOut, IsEmpty, Refuses};
use crate::steps::{line_of, play, ring_of};
use links::{Line, Link, check_memory};
use std::test::Fail;
use text::{Fault, Layer};

// Nine frames of 6 bytes take 63 of 64 bytes, so each round begins one place earlier.
#[test]
fn nine_frames_fill_a_ring_at_every_place(rt: HostRuntime) -> Result<(), Fail> {
    let mut ring = ring_of(rt.alloc(), 64)?;
    for round in 0..64u8 {
        for k in 0..9u8 {
            play(&rt, &mut ring, &[Accepts(6, round + k)])?;
        }
        play(&rt, &mut ring, &[Refuses(6, 43)])?;
        for k in 0..9u8 {
            play(&rt, &mut ring, &[HandsOut(6, round + k)])?;
        }
        play(&rt, &mut ring, &[IsEmpty])?;
    }
    assert_eq!(rt; ring.into_memory().len(), 64);
    Ok(())
}

#[test]
fn longest_frames(rt: HostRuntime) -> Result<(), Fail> {
    let mut ring = ring_of(rt.alloc(), 64)?;
    play(
        &rt,
        &mut ring,
        &[
            Refuses(0, 41),
            Refuses(17, 41),
            Accepts(16, 7),
            HandsOut(16, 7),
            IsEmpty,
        ],
    )?;
    let mut line = line_of(rt.alloc(), 65)?;
    play(
        &rt,
        &mut line,
        &[
            Refuses(0, 41),
            Refuses(33, 41),
            Accepts(32, 7),
            Refuses(1, 43),
            HandsOut(32, 7),
            IsEmpty,
        ],
    )
}

// 32 bytes cost 65, 31 bytes 63.
#[test]
fn a_line_of_64_bytes(rt: HostRuntime) -> Result<(), Fail> {
    let mut line = line_of(rt.alloc(), 64)?;
    for first in 0..255u8 {
        play(
            &rt,
            &mut line,
            &[
                Accepts(11, first),
                Accepts(20, first + 1),
                Refuses(1, 43),
                HandsOut(11, first),
                HandsOut(20, first + 1),
            ],
        )?;
    }
    play(
        &rt,
        &mut line,
        &[Refuses(32, 43), Accepts(31, 0), HandsOut(31, 0), IsEmpty],
    )
}

#[test]
fn unfit_memory_counts_as_none(rt: HostRuntime) -> Result<(), Fail> {
    assert_eq!(rt; check_memory(64), Ok(()));
    assert_eq!(rt; check_memory(4096), Ok(()));
    for bytes in [63usize, 4097] {
        assert_eq!(rt; check_memory(bytes), Err(Fault::new(Layer::Making, 54)));
        let mut ring = ring_of(rt.alloc(), bytes)?;
        play(&rt, &mut ring, &[Refuses(0, 41), Refuses(1, 43), IsEmpty])?;
        let mut line = Line::new(ring.into_memory());
        play(&rt, &mut line, &[Refuses(0, 41), Refuses(1, 43), IsEmpty])?;
        assert_eq!(rt; line.into_memory().len(), bytes);
    }
    Ok(())
}

#[test]
fn too_little_to_take_into(rt: HostRuntime) -> Result<(), Fail> {
    let mut ring = ring_of(rt.alloc(), 64)?;
    play(&rt, &mut ring, &[Accepts(3, 1)])?;
    let mut few = [0xEEu8; 31];
    assert_eq!(rt; ring.take(&mut few), Err(Fault::new(Layer::Link, 42)));
    assert_eq!(rt; few, [0xEEu8; 31]);
    play(&rt, &mut ring, &[HandsOut(3, 1), IsEmpty])
}
