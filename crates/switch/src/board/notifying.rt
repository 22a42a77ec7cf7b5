// Notifying a user.
ghost use Rattle.std.specs.Prelude.{◌≡◌, true, Some};
ghost use Rattle.records.specs.Changes.{for_user, hushed};
ghost use Rattle.records.specs.Notices.{next_notice};
ghost use Rattle.signalling.specs.Carrying.{Telling};
ghost use Rattle.switch.specs.Notifying.{Notifying, can_be_sent, notice_frame, tells};
ghost use Rattle.switch.specs.State.{model};

use crate::board::Board;
use crate::refusal::check_user;
use crate::told::Notified;
use frames::{Body, CallId, Frame};
use links::Link;
use records::{Notice, Record, next_notice};
use register::User;
use signalling::post;
use text::Fault;

// Sends a notice, and answers the link's fault if it refused it.
fn send_notice<D: Link>(notice: Notice, down: &mut D) -> Option<Fault>
    requires { can_be_sent (Some notice) ≡ true }
    ensures { Telling D.Link.sends (notice_frame notice) down.old down.new result }
{
    let frame = Frame {
        exchange: false,
        call: notice.call,
        body: Body::Notice(notice.news),
    };
    let sent = post(down, frame);
    sent.err()
}

// A user is told his news of a call, if he has any.
fn tell(call: &mut Record, user: User)
    ensures { call.new ≡ for_user hushed user.0 call.old }
{
    if let Some(side) = call.side_of(user) {
        call.hush(side);
    }
}

impl Board {
    // Drops the news that a user has of a call; the record is freed if the call was cleared and nobody has news of it.
    fn hush(&mut self, user: User, call: CallId)
        ensures state { model self.new ≡ tells user.0 call.0 (model self.old) }
    {
        let Some(i) = self.record_place(call) else {
            return;
        };
        tell(&mut self.records[i], user);
        if self.records[i].is_spent() {
            self.records.remove(i);
        }
    }

    // The next notice of a user, of a call whose identifier is in range.
    fn next_notice_for(&self, user: User) -> Option<Notice>
        ensures choice { result ≡ next_notice user.0 self.now.records.items }
        ensures range { can_be_sent result ≡ true }
    {
        next_notice(self.records.as_slice(), user)
    }

    pub(crate) fn notify<D: Link>(&mut self, user: User, down: &mut D) -> Result<Notified, Fault>
        ensures outcome { Notifying D.Link.sends user (model self.old) (model self.new) down.old down.new result }
    {
        check_user(user)?;
        let Some(notice) = self.next_notice_for(user) else {
            return Ok(Notified::Nothing);
        };
        self.hush(user, notice.call);
        let fault = send_notice(notice, down);
        Ok(Notified::Notice(notice.call, notice.news, fault))
    }
}
