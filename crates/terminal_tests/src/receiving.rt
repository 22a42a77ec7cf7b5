// Each outcome of a frame received.
use crate::steps::{expect_sent, expect_told, ring_of};
use frames::{Body, CallId, Cause, News, Operation, Verdict};
use links::Link;
use std::process::Abort;
use std::test::Fail;
use terminal::{Ask, Call, Received, Reply, Terminal};
use text::{Fault, Layer};

const GRANTED_HOLD: Body = Body::Answer(Operation::Hold, Verdict::Granted);

fn marks(rt: &impl Abort, terminal: &Terminal, own: bool, other: bool) {
    let id = CallId(5);
    assert_eq!(rt;
        terminal.calls().first().copied(),
        Some(Call { id, own, other })
    );
}

// A frame refused is taken.
#[test]
fn refused_frames(rt: HostRuntime) -> Result<(), Fail> {
    let mut terminal = Terminal::new(rt.alloc())?;
    let mut down = ring_of(rt.alloc(), 64)?;
    assert_eq!(rt; down.send(&[0x10]), Ok(()));
    assert_eq!(rt;
        terminal.receive(&mut down),
        Err(Fault::at(Layer::Frame, 11, 1))
    );
    for body in [Body::Request(Operation::Hold), Body::ClearRequest] {
        let refused = Err(Fault::new(Layer::Terminal, 26));
        expect_told(&rt, &mut terminal, &mut down, false, 5, body, refused)?;
    }
    Ok(())
}

// An answer counts if the bit, the call and the request agree.
#[test]
fn answers(rt: HostRuntime) -> Result<(), Fail> {
    let mut terminal = Terminal::new(rt.alloc())?;
    let mut up = ring_of(rt.alloc(), 64)?;
    let mut down = ring_of(rt.alloc(), 64)?;
    assert_eq!(rt; terminal.connect(CallId(5)), Ok(()));
    expect_told(
        &rt,
        &mut terminal,
        &mut down,
        false,
        5,
        GRANTED_HOLD,
        Ok(Received::Stale),
    )?;
    assert_eq!(rt; terminal.request(&mut up, Ask::Hold, CallId(5)), Ok(None));
    for (exchange, call, body) in [
        (true, 5u16, GRANTED_HOLD),
        (false, 6, GRANTED_HOLD),
        (false, 5, Body::ClearAnswer),
    ] {
        let stale = Ok(Received::Stale);
        expect_told(&rt, &mut terminal, &mut down, exchange, call, body, stale)?;
    }
    marks(&rt, &terminal, false, false);
    expect_told(
        &rt,
        &mut terminal,
        &mut down,
        false,
        5,
        GRANTED_HOLD,
        Ok(Received::Closed(Ask::Hold, CallId(5), Reply::Granted)),
    )?;
    marks(&rt, &terminal, true, false);
    assert_eq!(rt;
        terminal.request(&mut up, Ask::Retrieve, CallId(5)),
        Ok(None)
    );
    let granted = Body::Answer(Operation::Retrieve, Verdict::Granted);
    expect_told(
        &rt,
        &mut terminal,
        &mut down,
        true,
        5,
        granted,
        Ok(Received::Closed(Ask::Retrieve, CallId(5), Reply::Granted)),
    )?;
    marks(&rt, &terminal, false, false);
    assert_eq!(rt; terminal.exchange_bit(), false);
    Ok(())
}

#[test]
fn declined_and_cleared(rt: HostRuntime) -> Result<(), Fail> {
    let mut terminal = Terminal::new(rt.alloc())?;
    let mut up = ring_of(rt.alloc(), 64)?;
    let mut down = ring_of(rt.alloc(), 64)?;
    for (id, exchange, cause, left) in [
        (5u16, false, Cause::LimitReached, 1usize),
        (6, true, Cause::CallNotThere, 1),
    ] {
        let call = CallId(id);
        assert_eq!(rt; terminal.connect(call), Ok(()));
        assert_eq!(rt; terminal.request(&mut up, Ask::Hold, call), Ok(None));
        let declined = Body::Answer(Operation::Hold, Verdict::Declined(cause));
        expect_told(
            &rt,
            &mut terminal,
            &mut down,
            exchange,
            id,
            declined,
            Ok(Received::Closed(Ask::Hold, call, Reply::Declined(cause))),
        )?;
        assert_eq!(rt; terminal.calls().len(), left);
    }
    assert_eq!(rt; terminal.request(&mut up, Ask::Clear, CallId(5)), Ok(None));
    expect_told(
        &rt,
        &mut terminal,
        &mut down,
        false,
        5,
        Body::ClearAnswer,
        Ok(Received::Closed(Ask::Clear, CallId(5), Reply::Cleared)),
    )?;
    assert_eq!(rt; terminal.calls().len(), 0);
    Ok(())
}

// News of a call not held is stale; news of the open request's call leaves the request open.
#[test]
fn notices(rt: HostRuntime) -> Result<(), Fail> {
    let mut terminal = Terminal::new(rt.alloc())?;
    let mut up = ring_of(rt.alloc(), 64)?;
    let mut down = ring_of(rt.alloc(), 64)?;
    assert_eq!(rt; terminal.connect(CallId(5)), Ok(()));
    expect_told(
        &rt,
        &mut terminal,
        &mut down,
        false,
        6,
        Body::Notice(News::Released),
        Ok(Received::Stale),
    )?;
    assert_eq!(rt; terminal.request(&mut up, Ask::Hold, CallId(5)), Ok(None));
    expect_sent(&rt, &mut up, false, 5, Body::Request(Operation::Hold));
    for (news, other) in [(News::PutOnHold, true), (News::Retrieved, false)] {
        expect_told(
            &rt,
            &mut terminal,
            &mut down,
            false,
            5,
            Body::Notice(news),
            Ok(Received::Notice(CallId(5), news)),
        )?;
        marks(&rt, &terminal, false, other);
    }
    let released = Received::Notice(CallId(5), News::Released);
    expect_told(
        &rt,
        &mut terminal,
        &mut down,
        false,
        5,
        Body::Notice(News::Released),
        Ok(released),
    )?;
    assert_eq!(rt; terminal.calls().len(), 0);
    expect_told(
        &rt,
        &mut terminal,
        &mut down,
        false,
        5,
        GRANTED_HOLD,
        Ok(Received::Closed(Ask::Hold, CallId(5), Reply::Granted)),
    )?;
    assert_eq!(rt; terminal.calls().len(), 0);
    assert_eq!(rt; terminal.open_request(), None);
    assert_eq!(rt; terminal.exchange_bit(), true);
    Ok(())
}

// A call on hold is not put on hold again, and a retrieval declined leaves it so; only where the call is not there is it removed.
#[test]
fn retrievals_declined(rt: HostRuntime) -> Result<(), Fail> {
    let mut terminal = Terminal::new(rt.alloc())?;
    let mut up = ring_of(rt.alloc(), 64)?;
    let mut down = ring_of(rt.alloc(), 64)?;
    let call = CallId(5);
    assert_eq!(rt; terminal.connect(call), Ok(()));
    assert_eq!(rt; terminal.request(&mut up, Ask::Hold, call), Ok(None));
    let held = Received::Closed(Ask::Hold, call, Reply::Granted);
    expect_told(
        &rt,
        &mut terminal,
        &mut down,
        false,
        5,
        GRANTED_HOLD,
        Ok(held),
    )?;
    assert_eq!(rt;
        terminal.request(&mut up, Ask::Hold, call),
        Err(Fault::new(Layer::Terminal, 23))
    );
    for (exchange, cause) in [
        (true, Cause::NoChannel),
        (false, Cause::NotOnHold),
        (true, Cause::CallNotThere),
    ] {
        marks(&rt, &terminal, true, false);
        assert_eq!(rt; terminal.request(&mut up, Ask::Retrieve, call), Ok(None));
        let declined = Body::Answer(Operation::Retrieve, Verdict::Declined(cause));
        let closed = Received::Closed(Ask::Retrieve, call, Reply::Declined(cause));
        expect_told(
            &rt,
            &mut terminal,
            &mut down,
            exchange,
            5,
            declined,
            Ok(closed),
        )?;
    }
    assert_eq!(rt; terminal.calls().len(), 0);
    Ok(())
}
