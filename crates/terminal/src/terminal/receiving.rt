// Receiving a frame.
ghost use Rattle.std.specs.Prelude.{◌≡◌, true, Ok};
ghost use Rattle.terminal.specs.Arriving.{counts, answered, heard, effect, told_of, state_of, settled, shut, Receiving};
ghost use Rattle.terminal.specs.Calls.{rising, find};
ghost use Rattle.terminal.specs.Laws.{Lawful};
ghost use Rattle.terminal.specs.State.{with_calls};

use super::Terminal;
use crate::refusal::Refusal;
use crate::request::Request;
use crate::told::{Received, Reply};
use frames::{Body, CallId, Cause, Frame, News};
use links::Link;
use signalling::{Ask, pull};
use text::Fault;

impl Terminal {
    // Whether an answer to `ask` counts as that to the open request.
    fn counts(&self, request: Request, ask: Ask, frame: Frame) -> bool
        ensures { result ≡ counts request self.now.exchange ask frame }
    {
        self.exchange == frame.exchange && request.call == frame.call && request.ask == ask
    }

    // Sets a mark or removes the call, as the reply to a request says.
    fn settle(&mut self, ask: Ask, reply: Reply, call: CallId)
        ensures { self.new ≡ with_calls (settled ask reply call.0 self.old.calls) self.old }
    {
        match (ask, reply) {
            (Ask::Hold, Reply::Granted) => self.set_own(call, true),
            (Ask::Retrieve, Reply::Granted) => self.set_own(call, false),
            (Ask::Clear, Reply::Granted) => {}
            (_, Reply::Declined(Cause::CallNotThere)) => self.remove(call),
            (_, Reply::Declined(_)) => {}
            (_, Reply::Cleared) => self.remove(call),
        }
    }

    // No request is open any more, and the next has the other exchange bit.
    fn close(&mut self)
        ensures { self.new ≡ shut self.old }
    {
        self.request = None;
        self.exchange = !self.exchange;
    }

    // An answer while a request is open.
    fn answered(&mut self, request: Request, ask: Ask, frame: Frame, reply: Reply) -> Received
        ensures outcome { Ok result ≡ told_of (answered request self.old.exchange ask frame reply) }
        ensures state { self.new ≡ state_of (answered request self.old.exchange ask frame reply) self.old }
    {
        if !self.counts(request, ask, frame) {
            return Received::Stale;
        }
        self.settle(ask, reply, frame.call);
        self.close();
        Received::Closed(ask, frame.call, reply)
    }

    // News of a call; of one that is not held it is stale.
    fn informed(&mut self, call: CallId, news: News) -> Received
        ensures outcome { Ok result ≡ told_of (heard (find call.0 self.old.calls) call news) }
        ensures state { self.new ≡ state_of (heard (find call.0 self.old.calls) call news) self.old }
    {
        if self.table.find(call).is_none() {
            return Received::Stale;
        }
        match news {
            News::PutOnHold => self.set_other(call, true),
            News::Retrieved => self.set_other(call, false),
            News::Released => self.remove(call),
        }
        Received::Notice(call, news)
    }

    // What a frame does: it goes by the open request and the frame together.
    fn arrive(&mut self, frame: Frame) -> Result<Received, Fault>
        ensures rising { rising self.old.last self.old.calls ≡ true }
        ensures outcome { result ≡ told_of (effect self.old frame) }
        ensures state { self.new ≡ state_of (effect self.old frame) self.old }
    {
        match (self.request, frame.body) {
            (_, Body::Request(_) | Body::ClearRequest) => Err(Refusal::NotForTerminals.into()),
            (_, Body::Notice(news)) => Ok(self.informed(frame.call, news)),
            (Some(request), Body::Answer(operation, verdict)) => {
                Ok(self.answered(request, operation.into(), frame, verdict.into()))
            }
            (Some(request), Body::ClearAnswer) => Ok(self.answered(
                request,
                Ask::Clear,
                frame,
                Reply::Cleared,
            )),
            (None, _) => Ok(Received::Stale),
        }
    }

    // Takes one frame, and does what it says.
    // Faults, for which the frame is taken: 11 to 17 of a frame that cannot be read, 26 for a request or a clear request.
    pub fn receive<D: Link>(&mut self, down: &mut D) -> Result<Received, Fault>
        ensures outcome { Receiving D.Link.takes self.old down.old self.new down.new result }
        ensures law { Lawful self.old self.new result }
    {
        match pull(down)? {
            None => Ok(Received::Nothing),
            Some(frame) => self.arrive(frame),
        }
    }
}
