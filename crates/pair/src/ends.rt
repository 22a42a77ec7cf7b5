// The two ends of a pair and its links.
use links::Link;
use register::{Register, User};
use switch::Switch;
use terminal::Terminal;

mod making;
mod network;
mod own;
mod serving;
mod whole;

#[derive(Drop)]
pub struct Pair<R: Register, U: Link, D: Link> {
    switch: Switch<R>,
    terminal: Terminal,
    user: User,
    up: U,
    down: D,
}
