// Passes frames through a ring and a line link, and tells the time that each took: the proved side of bench/links.sh.
#![tactic(auto)]

use links::{Line, Link, Ring};
use std::time::Instant;

fn receive<L: Link>(link: &mut L) -> u32 {
    let mut out = [0u8; 32];
    match link.take(&mut out) {
        Ok(Some(_)) => u32::from(out[5]),
        _ => 0,
    }
}

// Eight frames of 6 bytes in, and eight out, in each round.
fn pass<L: Link>(link: &mut L, rounds: u32) -> u32 {
    let mut sum = 0u32;
    for round in 0..rounds {
        let byte = (round % 256) as u8;
        for _ in 0..8 {
            let _ = link.send(&[0x10, 0, 5, 0x0B, 0x30, byte]);
        }
        for _ in 0..8 {
            sum = sum.wrapping_add(receive(link));
        }
    }
    sum
}

fn measure<L: Link>(rt: &HostRuntime, name: &str, link: &mut L) -> anyhow::Result<()> {
    let start = Instant::now(rt)?;
    let sum = pass(link, 250_000);
    eprintln!(rt; "{name} {}", start.elapsed(rt)?.as_nanos())?;
    println!(rt; "{name} {sum}")?;
    Ok(())
}

fn main(rt: HostRuntime) -> anyhow::Result<()> {
    measure(&rt, "ring", &mut Ring::new(vec![in rt.alloc(); 0; 100]?))?;
    measure(&rt, "line", &mut Line::new(vec![in rt.alloc(); 0; 200]?))
}
