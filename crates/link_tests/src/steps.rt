// A test as a list of steps on a link: steps are data, so that one list reads as the table of what is asked and what comes of it.
use links::{Line, Link, Ring};
use std::alloc::{AllocError, Global};
use std::process::Abort;
use std::test::Fail;
use text::{Fault, Layer};

pub fn ring_of(heap: Global, bytes: usize) -> Result<Ring, AllocError> {
    Ok(Ring::new(vec![in heap; 0; bytes]?))
}

pub fn line_of(heap: Global, bytes: usize) -> Result<Line, AllocError> {
    Ok(Line::new(vec![in heap; 0; bytes]?))
}

// A frame is told by its length and its first byte.
#[derive(Clone, Copy)]
pub enum Step {
    Accepts(usize, u8),
    Refuses(usize, u8),
    HandsOut(usize, u8),
    IsEmpty,
}

// Each byte is 17 more than the one before.
fn fill(bytes: &mut [u8], first: u8) {
    let mut byte = first;
    for place in bytes.iter_mut() {
        *place = byte;
        byte = byte.wrapping_add(17);
    }
}

fn send<L: Link>(link: &mut L, length: usize, first: u8) -> Result<(), Fault> {
    let mut bytes = [0u8; 40];
    fill(&mut bytes, first);
    link.send(&bytes[0..length.min(40)])
}

// The link hands out the frame, or nothing, and writes no byte after it.
fn takes<L: Link>(
    rt: &impl Abort,
    link: &mut L,
    length: Option<usize>,
    first: u8,
) -> Result<(), Fail> {
    let mut out = [0xEEu8; 32];
    assert_eq!(rt; link.take(&mut out), Ok(length));
    let mut expected = [0u8; 32];
    fill(&mut expected, first);
    let (frame, rest) = out.split_at(length.unwrap_or(0).min(32));
    assert_eq!(rt; frame, &expected[..frame.len()]);
    assert!(rt; rest.iter().all(|byte| *byte == 0xEE));
    Ok(())
}

fn take_step<L: Link>(rt: &impl Abort, link: &mut L, step: Step) -> Result<(), Fail> {
    match step {
        Step::Accepts(length, first) => {
            assert_eq!(rt; send(link, length, first), Ok(()));
            Ok(())
        },
        Step::Refuses(length, number) => {
            assert_eq!(rt; send(link, length, 0), Err(Fault::new(Layer::Link, number)));
            Ok(())
        },
        Step::HandsOut(length, first) => takes(rt, link, Some(length), first),
        Step::IsEmpty => takes(rt, link, None, 0),
    }
}

pub fn play<L: Link>(rt: &impl Abort, link: &mut L, steps: &[Step]) -> Result<(), Fail> {
    for step in steps {
        take_step(rt, link, *step)?;
    }
    Ok(())
}
