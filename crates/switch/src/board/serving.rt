// Serving one frame of a user.
ghost use Rattle.std.specs.Prelude.{◌≡◌, true, false, Some};
ghost use Rattle.frames.specs.Layout.{no_call};
ghost use Rattle.signalling.specs.Carrying.{Telling};
ghost use Rattle.switch.specs.Serving.{Acts, Serving, effect};
ghost use Rattle.switch.specs.Answer.{answer};
ghost use Rattle.switch.specs.State.{model};
ghost use Rattle.switch.specs.Tables.{answerable};

use crate::board::Board;
use crate::refusal::Refusal;
use crate::session::Session;
use crate::told::{Handled, Served};
use frames::Frame;
use links::Link;
use register::User;
use signalling::{Ask, post, pull};
use text::Fault;

// Sends the answer to a request, and answers the link's fault if it refused it.
fn send_answer<D: Link>(handled: Handled, exchange: bool, down: &mut D) -> Option<Fault>
    requires { answerable (Some handled) ≡ true }
    ensures { Telling D.Link.sends (answer exchange handled) down.old down.new result }
{
    let sent = post(down, handled.answer(exchange));
    sent.err()
}

impl Board {
    // What is done with a user's frame, with his limit and his session.
    fn respond<D: Link>(
        &mut self,
        limit: u8,
        user: User,
        session: Session,
        frame: Frame,
        down: &mut D,
    ) -> Result<Served, Fault>
        requires call { no_call frame.call.0 ≡ false }
        requires kept { answerable session.handled ≡ true }
        ensures outcome { Acts D.Link.sends (effect limit (model self.old) user session frame) frame.exchange (model self.old) (model self.new) down.old down.new result }
    {
        let ask = Ask::in_body(frame.body).ok_or(Refusal::NoRequest)?;
        if frame.exchange == session.exchange {
            let handled = session.handled.ok_or(Refusal::NothingToRepeat)?;
            let fault = send_answer(handled, frame.exchange, down);
            return Ok(Served::Repeat(handled, fault));
        }
        let handled = self.carry_out(limit, user, frame.call, ask);
        self.note(user, frame.exchange, handled);
        let fault = send_answer(handled, frame.exchange, down);
        Ok(Served::Fresh(handled, fault))
    }

    pub(crate) fn serve<U: Link, D: Link>(
        &mut self,
        limit: u8,
        user: User,
        up: &mut U,
        down: &mut D,
    ) -> Result<Served, Fault>
        ensures outcome { Serving U.Link.takes D.Link.sends limit user (model self.old) (model self.new) up.old up.new down.old down.new result }
    {
        let session = self.check_serve(user)?;
        let Some(frame) = pull(up)? else {
            return Ok(Served::Nothing);
        };
        self.respond(limit, user, session, frame, down)
    }
}
