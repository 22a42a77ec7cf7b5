// Makes every call of both ends and of the waiting line at its deepest, each from a function of its own: what bench/stack.sh looks into.
#![tactic(auto)]

use anyhow::Context;
use frames::CallId;
use links::{Faulty, Line, Link, Ring};
use register::{General, User};
use std::alloc::Global;
use switch::{Parts, Switch};
use terminal::{Ask, Terminal};
use waiting::waiting_line;

// The switch of ends_bench too: the two programs have no crate in common that makes one.
fn make_switch(heap: Global) -> anyhow::Result<Switch<General>> {
    let register = General::new(7).ok().context("no register")?;
    let parts = Parts::new(heap, 128).ok().context("no parts")?;
    Ok(Switch::new(register, parts))
}

fn open_session(switch: &mut Switch<General>, user: u32) -> bool {
    switch.open_session(User(user)).is_ok()
}

fn connect(switch: &mut Switch<General>, call: u16, first: u32, second: u32) -> bool {
    switch
        .connect(CallId(call), User(first), User(second))
        .is_ok()
}

fn clear(switch: &mut Switch<General>, call: u16) -> bool {
    switch.clear(CallId(call)).is_ok()
}

fn find_line(switch: &Switch<General>, user: u32, line: &mut [User]) -> bool {
    waiting_line(switch, User(user), line).is_ok()
}

fn hold_call(terminal: &mut Terminal, call: u16) -> bool {
    terminal.connect(CallId(call)).is_ok()
}

fn request<L: Link>(terminal: &mut Terminal, up: &mut L, ask: Ask, call: u16) -> bool {
    terminal.request(up, ask, CallId(call)).is_ok()
}

// As many ticks as send a request again.
fn tick<L: Link>(terminal: &mut Terminal, up: &mut L) {
    for _ in 0..20 {
        let _ = terminal.tick(up);
    }
}

fn receive<L: Link>(terminal: &mut Terminal, down: &mut L) -> bool {
    terminal.receive(down).is_ok()
}

fn serve<L: Link>(switch: &mut Switch<General>, user: u32, up: &mut L, down: &mut L) -> bool {
    switch.serve(User(user), up, down).is_ok()
}

fn notify<L: Link>(switch: &mut Switch<General>, user: u32, down: &mut L) -> bool {
    switch.notify(User(user), down).is_ok()
}

// How many of these hold.
fn count(held: &[bool]) -> usize {
    held.iter().filter(|h| **h).count()
}

// 32 sessions, and 64 calls; each user from 2 to 33 has a call with the one before.
fn fill(switch: &mut Switch<General>) -> usize {
    let mut n = 0usize;
    for user in 2..34u32 {
        n = n.wrapping_add(count(&[open_session(switch, user)]));
    }
    for user in 1..33u16 {
        let first = u32::from(user);
        n = n.wrapping_add(count(&[connect(switch, user, first, first + 1)]));
    }
    for call in 33..65u16 {
        n = n.wrapping_add(count(&[connect(switch, call, 2, 33)]));
    }
    n.wrapping_add(count(&[open_session(switch, 2), connect(switch, 64, 1, 2)]))
}

// A request of a user's terminal, sent twice; served, and received.
fn exchange<L: Link>(
    switch: &mut Switch<General>,
    terminal: &mut Terminal,
    user: u32,
    up: &mut L,
    down: &mut L,
    ask: Ask,
    call: u16,
) -> usize {
    let asked = request(terminal, up, ask, call);
    tick(terminal, up);
    let served = serve(switch, user, up, down);
    let repeated = serve(switch, user, up, down);
    let received = receive(terminal, down);
    let stale = receive(terminal, down);
    count(&[asked, served, repeated, received, stale])
}

// Everybody from 2 to 33 puts his call with the one before on hold, so that all stand in a line.
fn hold_all<L: Link>(
    heap: Global,
    switch: &mut Switch<General>,
    up: &mut L,
    down: &mut L,
) -> anyhow::Result<usize> {
    let mut n = 0usize;
    for call in 1..33u16 {
        let mut terminal = Terminal::new(heap)?;
        let user = u32::from(call) + 1;
        let held = hold_call(&mut terminal, call);
        n = n.wrapping_add(count(&[held]));
        n = n.wrapping_add(exchange(switch, &mut terminal, user, up, down, Ask::Hold, call));
    }
    Ok(n)
}

// The last call held, retrieved, and cleared; then refusals, notices, clears and lines.
fn run<L: Link>(heap: Global, up: &mut L, down: &mut L) -> anyhow::Result<usize> {
    let mut switch = make_switch(heap)?;
    let mut line = [User(0); 33];
    let mut n = fill(&mut switch);
    n = n.wrapping_add(hold_all(heap, &mut switch, up, down)?);
    n = n.wrapping_add(count(&[
        find_line(&switch, 1, &mut line),
        find_line(&switch, 2, &mut line),
    ]));
    let mut terminal = Terminal::new(heap)?;
    n = n.wrapping_add(count(&[hold_call(&mut terminal, 64), hold_call(&mut terminal, 64)]));
    n = n.wrapping_add(exchange(&mut switch, &mut terminal, 33, up, down, Ask::Hold, 64));
    n = n.wrapping_add(exchange(&mut switch, &mut terminal, 33, up, down, Ask::Retrieve, 64));
    n = n.wrapping_add(exchange(&mut switch, &mut terminal, 33, up, down, Ask::Clear, 64));
    n = n.wrapping_add(count(&[request(&mut terminal, up, Ask::Hold, 64)]));
    tick(&mut terminal, up);
    n = n.wrapping_add(count(&[clear(&mut switch, 63), clear(&mut switch, 1)]));
    for _ in 0..2 {
        let first = notify(&mut switch, 2, down);
        let received = receive(&mut terminal, down);
        let second = notify(&mut switch, 33, down);
        n = n.wrapping_add(count(&[first, received, second]));
        n = n.wrapping_add(count(&[receive(&mut terminal, down)]));
    }
    Ok(n)
}

fn main(rt: HostRuntime) -> anyhow::Result<()> {
    let heap = rt.alloc();
    let mut up = Ring::new(vec![in heap; 0; 64]?);
    let mut down = Ring::new(vec![in heap; 0; 64]?);
    let over_rings = run(heap, &mut up, &mut down)?;
    let lower = Line::new(vec![in heap; 0; 64]?);
    let mut up = Faulty::new(lower, 0, 0);
    let lower = Line::new(vec![in heap; 0; 64]?);
    let mut down = Faulty::new(lower, 0, 0);
    let over_lines = run(heap, &mut up, &mut down)?;
    println!(rt; "calls accepted over rings {over_rings}, over lines {over_lines}")?;
    Ok(())
}
