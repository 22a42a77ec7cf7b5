// Connecting.
use crate::steps::{expect_told, ring_of};
use frames::{Body, CallId, News};
use std::test::Fail;
use terminal::{Received, Terminal};
use text::{Fault, Layer};

// Fault 24 is checked before 25.
#[test]
fn eight_calls_and_a_ninth(rt: HostRuntime) -> Result<(), Fail> {
    let mut terminal = Terminal::new(rt.alloc())?;
    for id in 1..=8u16 {
        assert_eq!(rt; terminal.connect(CallId(id)), Ok(()));
    }
    assert_eq!(rt;
        terminal.connect(CallId(9)),
        Err(Fault::new(Layer::Terminal, 25))
    );
    assert_eq!(rt;
        terminal.connect(CallId(8)),
        Err(Fault::new(Layer::Terminal, 24))
    );
    assert_eq!(rt; terminal.calls().len(), 8);
    assert_eq!(rt; terminal.last_identifier(), 8);
    Ok(())
}

#[test]
fn identifiers_in_range(rt: HostRuntime) -> Result<(), Fail> {
    let mut terminal = Terminal::new(rt.alloc())?;
    assert_eq!(rt;
        terminal.connect(CallId(0)),
        Err(Fault::new(Layer::Terminal, 24))
    );
    assert_eq!(rt;
        terminal.connect(CallId(16_384)),
        Err(Fault::new(Layer::Terminal, 24))
    );
    assert_eq!(rt; terminal.connect(CallId(16_383)), Ok(()));
    assert_eq!(rt;
        terminal.connect(CallId(16_383)),
        Err(Fault::new(Layer::Terminal, 24))
    );
    assert_eq!(rt; terminal.calls().len(), 1);
    Ok(())
}

// The last identifier is the highest ever accepted, not the highest held.
#[test]
fn a_released_identifier_is_not_accepted_again(rt: HostRuntime) -> Result<(), Fail> {
    let mut terminal = Terminal::new(rt.alloc())?;
    let mut down = ring_of(rt.alloc(), 64)?;
    assert_eq!(rt; terminal.connect(CallId(5)), Ok(()));
    expect_told(
        &rt,
        &mut terminal,
        &mut down,
        false,
        5,
        Body::Notice(News::Released),
        Ok(Received::Notice(CallId(5), News::Released)),
    )?;
    assert_eq!(rt; terminal.calls().len(), 0);
    assert_eq!(rt;
        terminal.connect(CallId(5)),
        Err(Fault::new(Layer::Terminal, 24))
    );
    assert_eq!(rt; terminal.connect(CallId(6)), Ok(()));
    Ok(())
}
