// A fresh pair over rings that lose and double frames, and calls played on it.
ghost use Rattle.std.specs.Prelude.{◌≡◌, [], IfOk};
ghost use Rattle.law.specs.Run.{fresh_state};
ghost use Rattle.pair.specs.View.{view};
ghost use Rattle.switch.specs.State.{fresh, state};
ghost use Rattle.rounds.specs.Fresh.{Rounded, limit_in, waits_in};

use frames::{Body, CallId, Frame, Operation};
use law::Event;
use links::{Faulty, Ring};
use pair::{Call, Pair, play};
use register::{General, User};
use signalling::post;
use std::alloc::{AllocError, Global};
use switch::{MakeError, Parts, Switch};
use terminal::Terminal;

// A pair after some calls, and what each told.
#[derive(Drop)]
pub struct Round {
    pub(crate) pair: Pair<General, Faulty<Ring>, Faulty<Ring>>,
    pub(crate) events: Vec<Event>,
}

// How a pair is made: its user, everybody's limit, the channels, and which sends are lost and doubled on the way up and down.
#[derive(Clone, Copy)]
pub struct Setting {
    pub user: User,
    pub limit: u8,
    pub channels: u8,
    pub up_lost: u64,
    pub up_doubled: u64,
    pub down_lost: u64,
    pub down_doubled: u64,
}

fn empty_link(heap: Global, lost: u64, doubled: u64) -> Result<Faulty<Ring>, AllocError>
    ensures { IfOk result (λ a. waits_in a ≡ []) }
{
    let memory = vec![in heap; 0; 256]?;
    Ok(Faulty::new(Ring::new(memory), lost, doubled))
}

fn fresh_switch(heap: Global, limit: u8, channels: u8) -> Result<Switch<General>, MakeError>
    ensures { IfOk result (λ s. state s ≡ fresh channels) }
{
    let register = General::new(limit)?;
    let parts = Parts::new(heap, channels)?;
    Ok(Switch::new(register, parts))
}

fn fresh_pair(
    heap: Global,
    setting: Setting,
) -> Result<Pair<General, Faulty<Ring>, Faulty<Ring>>, MakeError>
    ensures view { IfOk result (λ p. view limit_in waits_in waits_in p ≡ fresh_state setting.channels) }
    ensures user { IfOk result (λ p. p.user ≡ setting.user) }
{
    let switch = fresh_switch(heap, setting.limit, setting.channels)?;
    let terminal = Terminal::new(heap)?;
    let up = empty_link(heap, setting.up_lost, setting.up_doubled)?;
    let down = empty_link(heap, setting.down_lost, setting.down_doubled)?;
    Ok(Pair::new(setting.user, switch, terminal, up, down))
}

// The links of the other users: what they ask is under way.
fn other_links(heap: Global) -> Result<(Ring, Ring), AllocError> {
    let mut up = Ring::new(vec![in heap; 0; 256]?);
    let down = Ring::new(vec![in heap; 0; 256]?);
    let _ = post(
        &mut up,
        Frame {
            exchange: false,
            call: CallId(1),
            body: Body::Request(Operation::Hold),
        },
    );
    Ok((up, down))
}

// Plays calls on a fresh pair.
// Faults: 51 for a limit that is not 1 to 7, 53 for channels that are not 1 to 128; then want of memory.
pub fn play_fresh(heap: Global, setting: Setting, calls: &[Call]) -> Result<Round, MakeError>
    ensures { IfOk result (λ q. Rounded setting.user setting.channels calls.now q) }
{
    let mut pair = fresh_pair(heap, setting)?;
    let (mut up, mut down) = other_links(heap)?;
    let events = play(heap, &mut pair, &mut up, &mut down, calls)?;
    Ok(Round { pair, events })
}
