// Rings, and frames put into a link and taken out of it.
use frames::{Body, CallId, Frame, read, write};
use links::{Link, Ring};
use std::alloc::{AllocError, Global};
use std::process::Abort;
use std::test::Fail;
use terminal::{Received, Terminal};
use text::Fault;

// One of 8 bytes refuses every frame.
pub fn ring_of(heap: Global, bytes: usize) -> Result<Ring, AllocError> {
    Ok(Ring::new(vec![in heap; 0; bytes]?))
}

// The next frame, read: not by `pull`, which the terminal's own calls go by.
fn next_frame<L: Link>(link: &mut L) -> Result<Option<Frame>, Fault> {
    let mut memory = [0u8; 32];
    let Some(n) = link.take(&mut memory)? else {
        return Ok(None);
    };
    read(&memory[..n]).map(Some)
}

// One frame was sent, which says this. Its three parts stand apart here and below, as they are no longer than a `Frame` of them.
pub fn expect_sent<L: Link>(rt: &impl Abort, up: &mut L, exchange: bool, call: u16, body: Body) {
    let call = CallId(call);
    assert_eq!(rt;
        next_frame(up),
        Ok(Some(Frame {
            exchange,
            call,
            body,
        }))
    );
    expect_none(rt, up);
}

pub fn expect_none<L: Link>(rt: &impl Abort, up: &mut L) {
    assert_eq!(rt; next_frame(up), Ok(None));
}

// A frame comes down, and this is told of it.
pub fn expect_told<L: Link>(
    rt: &impl Abort,
    terminal: &mut Terminal,
    down: &mut L,
    exchange: bool,
    call: u16,
    body: Body,
    told: Result<Received, Fault>,
) -> Result<(), Fail> {
    let call = CallId(call);
    let octets = write(&Frame {
        exchange,
        call,
        body,
    })?;
    down.send(octets.as_slice())?;
    assert_eq!(rt; terminal.receive(down), told);
    assert_eq!(rt; terminal.receive(down), Ok(Received::Nothing));
    Ok(())
}
