// The terminal over rings: its promises fix what waits in them.
ghost use Rattle.terminal.specs.Arriving.{Receiving};
ghost use Rattle.terminal.specs.Asking.{Requesting, Ticking};

use frames::CallId;
use links::{Link, Ring};
use terminal::{Ask, Received, Terminal, Ticked};
use text::Fault;

pub fn request_at_ring(
    terminal: &mut Terminal,
    up: &mut Ring,
    ask: Ask,
    call: CallId,
) -> Result<Option<Fault>, Fault>
    ensures { Requesting ⟦<Ring as Link>⟧.sends terminal.old ask call up.old up.new result }
{
    terminal.request(up, ask, call)
}

pub fn tick_at_ring(terminal: &mut Terminal, up: &mut Ring) -> Ticked
    ensures { Ticking ⟦<Ring as Link>⟧.sends terminal.old up.old up.new result }
{
    terminal.tick(up)
}

pub fn receive_at_ring(terminal: &mut Terminal, down: &mut Ring) -> Result<Received, Fault>
    ensures { Receiving ⟦<Ring as Link>⟧.takes terminal.old down.old terminal.new down.new result }
{
    terminal.receive(down)
}
