// Making a pair, and what it shows.
ghost use Rattle.std.specs.Prelude.{◌≡◌};
ghost use Rattle.switch.specs.State.{kept_register, state};

use super::Pair;
use links::Link;
use register::{Register, User};
use switch::Switch;
use terminal::Terminal;

impl<R: Register, U: Link, D: Link> Pair<R, U, D> {
    // A user's terminal and a switch with a link each way. The pair is fresh where all four are.
    pub fn new(user: User, switch: Switch<R>, terminal: Terminal, up: U, down: D) -> Self
        ensures switch { result.switch ≡ switch }
        ensures terminal { result.terminal ≡ terminal }
        ensures user { result.user ≡ user }
        ensures up { result.up ≡ up }
        ensures down { result.down ≡ down }
    {
        Pair {
            switch,
            terminal,
            user,
            up,
            down,
        }
    }

    pub fn user(&self) -> User
        ensures { result ≡ self.now.user }
    {
        self.user
    }

    pub fn switch(&self) -> &Switch<R>
        ensures { result.now ≡ self.now.switch }
    {
        &self.switch
    }

    pub fn terminal(&self) -> &Terminal
        ensures { result.now ≡ self.now.terminal }
    {
        &self.terminal
    }
}
