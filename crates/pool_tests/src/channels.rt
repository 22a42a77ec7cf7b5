// Pools of 1, 2 and 128 channels: drawing, giving back, and the legs of calls.
use pool::{Bearer, Pool, carry_both, carry_one};
use std::test::Fail;
use text::{Fault, Layer};

#[test]
fn sizes(rt: HostRuntime) -> Result<(), Fail> {
    for size in [1u8, 2, 128] {
        let pool = Pool::new(size)?;
        assert_eq!(rt; pool.size(), size);
        assert_eq!(rt; pool.in_use(), 0);
    }
    for size in [0u8, 129, 255] {
        assert_eq!(rt; Pool::new(size).err(), Some(Fault::new(Layer::Making, 53)));
    }
    Ok(())
}

// Draws a channel and gives it back; answers whether there was one.
fn drawn_and_back(pool: &mut Pool) -> bool {
    let Some(mut claim) = pool.draw() else {
        return false;
    };
    pool.give_back(&mut claim);
    true
}

#[test]
fn one_channel_carries_no_call(rt: HostRuntime) -> Result<(), Fail> {
    let mut pool = Pool::new(1)?;
    assert!(rt; carry_both(&mut pool).is_none());
    assert_eq!(rt; pool.in_use(), 0);
    assert!(rt; drawn_and_back(&mut pool));
    assert_eq!(rt; pool.in_use(), 0);
    let mut leg = Bearer::bare();
    assert!(rt; carry_one(&mut pool, &mut leg));
    assert!(rt; pool.is_full());
    assert!(rt; !drawn_and_back(&mut pool));
    assert!(rt; pool.release(&mut leg));
    assert!(rt; !pool.release(&mut leg));
    assert_eq!(rt; pool.in_use(), 0);
    Ok(())
}

// A hold makes room for a retrieval, and the leg on hold has no channel to free.
#[test]
fn a_call_on_hold(rt: HostRuntime) -> Result<(), Fail> {
    let mut pool = Pool::new(2)?;
    let (mut first, mut second) = carry_both(&mut pool).ok_or_else(|| Fail::new(
        "two channels carry no call",
    ))?;
    let mut other = Bearer::bare();
    assert!(rt; !carry_one(&mut pool, &mut other));
    assert!(rt; pool.release(&mut first));
    assert!(rt; carry_one(&mut pool, &mut other));
    assert!(rt; !carry_one(&mut pool, &mut first));
    assert_eq!(rt; pool.in_use(), 2);
    assert!(rt; !pool.release(&mut first));
    assert!(rt; pool.release(&mut second));
    assert_eq!(rt; pool.in_use(), 1);
    Ok(())
}

#[test]
fn sixty_four_calls(rt: HostRuntime) -> Result<(), Fail> {
    let mut pool = Pool::new(128)?;
    for _ in 0..64 {
        assert!(rt; carry_both(&mut pool).is_some());
    }
    assert!(rt; pool.is_full());
    assert!(rt; carry_both(&mut pool).is_none());
    assert_eq!(rt; pool.in_use(), 128);
    Ok(())
}
