// The switch over rings: its promises fix what waits in them.
ghost use Rattle.switch.specs.Notifying.{Notifying};
ghost use Rattle.switch.specs.Serving.{Serving};
ghost use Rattle.switch.specs.State.{state};

use links::{Link, Ring};
use register::{Register, User};
use switch::{Notified, Served, Switch};
use text::Fault;

pub fn serve_at_rings<R: Register>(
    switch: &mut Switch<R>,
    user: User,
    up: &mut Ring,
    down: &mut Ring,
) -> Result<Served, Fault>
    ensures { Serving ⟦<Ring as Link>⟧.takes ⟦<Ring as Link>⟧.sends (R.Register.limit switch.old.register user.0) user (state switch.old) (state switch.new) up.old up.new down.old down.new result }
{
    switch.serve(user, up, down)
}

pub fn notify_at_ring<R: Register>(
    switch: &mut Switch<R>,
    user: User,
    down: &mut Ring,
) -> Result<Notified, Fault>
    ensures { Notifying ⟦<Ring as Link>⟧.sends user (state switch.old) (state switch.new) down.old down.new result }
{
    switch.notify(user, down)
}
