// Has a terminal's requests served by a switch over rings, and tells the time that it took: the proved side of bench/ends.sh.
#![tactic(auto)]

use anyhow::Context;
use frames::CallId;
use links::Ring;
use register::{General, User};
use std::alloc::Global;
use std::time::Instant;
use switch::{Parts, Switch};
use terminal::{Ask, Received, Reply, Terminal};

const ROUNDS: u32 = 100_000;

#[derive(Drop)]
struct Bench {
    switch: Switch<General>,
    one: Terminal,
    two: Terminal,
    up: Ring,
    down: Ring,
    other_down: Ring,
}

// A switch with a limit of 7 and 128 channels; that of stack_probe too: the two programs have no crate in common that makes one.
fn a_switch(heap: Global) -> anyhow::Result<Switch<General>> {
    let register = General::new(7).ok().context("no register")?;
    let parts = Parts::new(heap, 128).ok().context("no parts")?;
    Ok(Switch::new(register, parts))
}

// Users 1 and 2 with the last of so many sessions.
fn seat(switch: &mut Switch<General>, sessions: u32) {
    for user in 3..=sessions {
        let _ = switch.open_session(User(user));
    }
    let _ = switch.open_session(User(2));
    let _ = switch.open_session(User(1));
}

impl Bench {
    // Users 1 and 2 in the last of so many calls, with the last of so many sessions.
    fn new(heap: Global, calls: u16, sessions: u32) -> anyhow::Result<Bench> {
        let mut switch = a_switch(heap)?;
        let mut one = Terminal::new(heap)?;
        let mut two = Terminal::new(heap)?;
        seat(&mut switch, sessions);
        for call in 1..calls {
            let _ = switch.connect(CallId(call), User(3), User(4));
        }
        let _ = switch.connect(CallId(calls), User(1), User(2));
        let _ = one.connect(CallId(calls));
        let _ = two.connect(CallId(calls));
        Ok(Bench {
            switch,
            one,
            two,
            up: Ring::new(vec![in heap; 0; 64]?),
            down: Ring::new(vec![in heap; 0; 64]?),
            other_down: Ring::new(vec![in heap; 0; 64]?),
        })
    }

    // User 1 asks, is served, and receives the answer: 1 if it is granted.
    fn exchange(&mut self, ask: Ask, call: CallId) -> u32 {
        let _ = self.one.request(&mut self.up, ask, call);
        let _ = self.switch.serve(User(1), &mut self.up, &mut self.down);
        let received = self.one.receive(&mut self.down);
        u32::from(matches!(received, Ok(Received::Closed(_, _, Reply::Granted))))
    }

    // User 2 is sent his notice, and receives it: 1 if he has one.
    fn notice(&mut self) -> u32 {
        let _ = self.switch.notify(User(2), &mut self.other_down);
        let received = self.two.receive(&mut self.other_down);
        u32::from(matches!(received, Ok(Received::Notice(_, _))))
    }

    // This and `exchanges_with_notices` are two loops, since a test in one loop would be measured too.
    fn exchanges(&mut self, call: CallId) -> u32 {
        let mut sum = 0u32;
        for _ in 0..ROUNDS {
            sum = sum.wrapping_add(self.exchange(Ask::Hold, call));
            sum = sum.wrapping_add(self.exchange(Ask::Retrieve, call));
        }
        sum
    }

    fn exchanges_with_notices(&mut self, call: CallId) -> u32 {
        let mut sum = 0u32;
        for _ in 0..ROUNDS {
            sum = sum.wrapping_add(self.exchange(Ask::Hold, call));
            sum = sum.wrapping_add(self.notice());
            sum = sum.wrapping_add(self.exchange(Ask::Retrieve, call));
            sum = sum.wrapping_add(self.notice());
        }
        sum
    }
}

fn measure(rt: &HostRuntime, name: &str, calls: u16, sessions: u32) -> anyhow::Result<()> {
    let call = CallId(calls);
    let mut bench = Bench::new(rt.alloc(), calls, sessions)?;
    let start = Instant::now(rt)?;
    let sum = bench.exchanges(call);
    eprintln!(rt; "{name}-exchanges {}", start.elapsed(rt)?.as_nanos())?;
    println!(rt; "{name}-exchanges {sum}")?;
    let start = Instant::now(rt)?;
    let sum = bench.exchanges_with_notices(call);
    eprintln!(rt; "{name}-notices {}", start.elapsed(rt)?.as_nanos())?;
    println!(rt; "{name}-notices {sum} {}", bench.switch.channels_in_use())?;
    Ok(())
}

fn main(rt: HostRuntime) -> anyhow::Result<()> {
    measure(&rt, "small", 1, 2)?;
    measure(&rt, "full", 64, 32)
}
