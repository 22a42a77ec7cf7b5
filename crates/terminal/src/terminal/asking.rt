// Requesting and ticking.
ghost use Rattle.std.specs.Prelude.{◌≡◌, false};
ghost use Rattle.frames.specs.Layout.{no_call};
ghost use Rattle.signalling.specs.Carrying.{Sending};
ghost use Rattle.terminal.specs.Asking.{content, request_checked, requested, ticked, Requesting, Ticking};

use super::Terminal;
use crate::refusal::Refusal;
use crate::request::{Request, is_pointless};
use crate::told::Ticked;
use frames::CallId;
use links::Link;
use signalling::{Ask, post};
use text::Fault;

// Sends the frame of a request. The writer never refuses it.
fn send_request<U: Link>(up: &mut U, request: Request, exchange: bool) -> Result<(), Fault>
    requires { no_call request.call.0 ≡ false }
    ensures { Sending U.Link.sends (content request exchange) up.old up.new result }
{
    post(up, request.content(exchange))
}

impl Terminal {
    fn check_request(&self, ask: Ask, call: CallId) -> Result<(), Fault>
        ensures { result ≡ request_checked self.now ask call }
    {
        if self.request.is_some() {
            return Err(Refusal::RequestOpen.into());
        }
        let held = self.table.find(call).ok_or(Refusal::CallNotHeld)?;
        if is_pointless(ask, held.own) {
            return Err(Refusal::Pointless.into());
        }
        Ok(())
    }

    // Opens a request and sends its frame; tells the link's fault if it refused the frame, which leaves the request open all the same.
    // Faults: 22 where a request is open, 21 for a call not held, 23 for a hold of a call on hold or a retrieval of one that is not.
    pub fn request<U: Link>(
        &mut self,
        up: &mut U,
        ask: Ask,
        call: CallId,
    ) -> Result<Option<Fault>, Fault>
        ensures outcome { Requesting U.Link.sends self.old ask call up.old up.new result }
        ensures state { self.new ≡ requested self.old ask call }
    {
        self.check_request(ask, call)?;
        let request = Request::opening(ask, call);
        self.request = Some(request);
        let sent = send_request(up, request, self.exchange);
        Ok(sent.err())
    }

    // Counts the open request down; the 20th tick sends its frame again. That goes on until the answer comes.
    pub fn tick<U: Link>(&mut self, up: &mut U) -> Ticked
        ensures outcome { Ticking U.Link.sends self.old up.old up.new result }
        ensures state { self.new ≡ ticked self.old }
    {
        let Some(request) = self.request else {
            return Ticked::Idle;
        };
        if request.countdown > 1 {
            let waited = request.waited();
            self.request = Some(waited);
            return Ticked::Waiting(waited.countdown);
        }
        let repeated = request.repeated();
        self.request = Some(repeated);
        let resent = send_request(up, request, self.exchange);
        Ticked::Repeated(repeated.repeats, resent.err())
    }
}
