// What is printed after some calls: the last of them, its outcome and the three sums, and the waiting line where it is longer than the user.
use crate::fresh::{Round, Setting, play_fresh};
use crate::run::{CHANNELS, DOWN_LOST, LIMIT, OWN, UP_DOUBLED};
use anyhow::Context;
use books::Books;
use law::Event;
use pair::Call;
use register::User;
use std::alloc::{AllocError, Global};
use terminal::Terminal;
use waiting::waiting_line;
use wording::{Command, Outcome};

const SETTING: Setting = Setting {
    user: OWN,
    limit: LIMIT,
    channels: CHANNELS,
    up_lost: 0,
    up_doubled: UP_DOUBLED,
    down_lost: DOWN_LOST,
    down_doubled: 0,
};

// The books of the pair's user, of all that was told.
fn books_of(heap: Global, events: &[Event]) -> anyhow::Result<Books> {
    let mut books = Books::new(heap, OWN);
    for event in events {
        books.note(event).ok().context("the books cannot be kept")?;
    }
    Ok(books)
}

// The call that the open request names.
fn request_text(heap: Global, terminal: &Terminal) -> Result<String, AllocError> {
    match terminal.open_request() {
        Some(request) => format!(in heap; "{}", request.call),
        None => format!(in heap; "none"),
    }
}

// The three sums, in one piece: (a) the calls on which the ends differ, and the one that the open request names; (b) the user's calls on
// hold, beside what was granted and cleared, and his limit; (c) the channels in use, beside the legs not on hold, and how many there are.
fn print_sums(rt: &HostRuntime, round: &Round) -> anyhow::Result<()> {
    let books = books_of(rt.alloc(), round.events.as_slice())?;
    let terminal = round.pair.terminal();
    let switch = round.pair.switch();
    println!(rt;
        "   differ {} request {} held {} granted {} retrieved {} cleared {} limit {LIMIT} used {} legs {} size {}",
        books.differing(terminal.calls()),
        request_text(rt.alloc(), terminal)?,
        books.held(),
        books.granted(),
        books.retrieved(),
        books.cleared(),
        switch.channels_in_use(),
        books.legs(),
        switch.channels()
    )?;
    Ok(())
}

// The waiting line of the user, where somebody follows him.
fn print_line(rt: &HostRuntime, round: &Round) -> anyhow::Result<()> {
    let mut line = [User(0); 33];
    let Ok(told) = waiting_line(round.pair.switch(), OWN, &mut line) else {
        return Ok(());
    };
    if told.length > 1 {
        let ring = if told.ring { " ring" } else { "" };
        print!(rt; "   line {}{ring}", told.length)?;
        for user in line.iter().take(told.length) {
            print!(rt; " {user}")?;
        }
        println!(rt; "")?;
    }
    Ok(())
}

// Plays the calls on a fresh pair, and prints the last of them.
pub(crate) fn print_after(rt: &HostRuntime, calls: &[Call]) -> anyhow::Result<()> {
    let played = play_fresh(rt.alloc(), SETTING, calls);
    let round = played.ok().context("no pair can be made")?;
    let Some(&event) = round.events.last() else {
        return Ok(());
    };
    let command = Command { user: OWN, event };
    println!(rt; "{} {command}: {}", calls.len(), Outcome(event))?;
    print_sums(rt, &round)?;
    print_line(rt, &round)
}
