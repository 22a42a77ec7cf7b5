// Requesting and ticking.
use crate::steps::{expect_none, expect_sent, ring_of};
use frames::{Body, CallId, Operation};
use links::Link;
use std::process::Abort;
use std::test::Fail;
use terminal::{Ask, Request, Terminal, Ticked};
use text::{Fault, Layer};

// An open request is told before a call that is not held.
#[test]
fn refused_requests(rt: HostRuntime) -> Result<(), Fail> {
    let mut terminal = Terminal::new(rt.alloc())?;
    let mut up = ring_of(rt.alloc(), 64)?;
    assert_eq!(rt; terminal.connect(CallId(5)), Ok(()));
    assert_eq!(rt;
        terminal.request(&mut up, Ask::Clear, CallId(6)),
        Err(Fault::new(Layer::Terminal, 21))
    );
    assert_eq!(rt;
        terminal.request(&mut up, Ask::Retrieve, CallId(5)),
        Err(Fault::new(Layer::Terminal, 23))
    );
    assert_eq!(rt; terminal.open_request(), None);
    expect_none(&rt, &mut up);
    assert_eq!(rt; terminal.request(&mut up, Ask::Hold, CallId(5)), Ok(None));
    expect_sent(&rt, &mut up, false, 5, Body::Request(Operation::Hold));
    assert_eq!(rt;
        terminal.request(&mut up, Ask::Hold, CallId(6)),
        Err(Fault::new(Layer::Terminal, 22))
    );
    expect_none(&rt, &mut up);
    Ok(())
}

// A request whose frame the link refuses is open all the same.
#[test]
fn refused_sends(rt: HostRuntime) -> Result<(), Fail> {
    let mut terminal = Terminal::new(rt.alloc())?;
    let mut up = ring_of(rt.alloc(), 8)?;
    assert_eq!(rt; terminal.tick(&mut up), Ticked::Idle);
    assert_eq!(rt; terminal.connect(CallId(5)), Ok(()));
    assert_eq!(rt;
        terminal.request(&mut up, Ask::Clear, CallId(5)),
        Ok(Some(Fault::new(Layer::Link, 43)))
    );
    let request = Request {
        ask: Ask::Clear,
        call: CallId(5),
        countdown: 20,
        repeats: 0,
    };
    assert_eq!(rt; terminal.open_request(), Some(request));
    wait(&rt, &mut terminal, &mut up);
    assert_eq!(rt;
        terminal.tick(&mut up),
        Ticked::Repeated(1, Some(Fault::new(Layer::Link, 43)))
    );
    Ok(())
}

// 19 ticks that send nothing.
fn wait<L: Link>(rt: &impl Abort, terminal: &mut Terminal, up: &mut L) {
    for left in (1..20u8).rev() {
        assert_eq!(rt; terminal.tick(up), Ticked::Waiting(left));
    }
}

// The count stops at 255, and the repeating goes on.
#[test]
fn repeats_to_255_and_one_more(rt: HostRuntime) -> Result<(), Fail> {
    let mut terminal = Terminal::new(rt.alloc())?;
    let mut up = ring_of(rt.alloc(), 64)?;
    assert_eq!(rt; terminal.connect(CallId(5)), Ok(()));
    assert_eq!(rt; terminal.request(&mut up, Ask::Clear, CallId(5)), Ok(None));
    expect_sent(&rt, &mut up, false, 5, Body::ClearRequest);
    for repeats in 1..=255u8 {
        wait(&rt, &mut terminal, &mut up);
        expect_none(&rt, &mut up);
        assert_eq!(rt; terminal.tick(&mut up), Ticked::Repeated(repeats, None));
        expect_sent(&rt, &mut up, false, 5, Body::ClearRequest);
    }
    wait(&rt, &mut terminal, &mut up);
    assert_eq!(rt; terminal.tick(&mut up), Ticked::Repeated(255, None));
    expect_sent(&rt, &mut up, false, 5, Body::ClearRequest);
    Ok(())
}
