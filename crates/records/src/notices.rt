// The next notice of a user.
ghost use Rattle.std.specs.Prelude.{◌≡◌, ℕ, true};
ghost use Rattle.records.specs.Notices.{Best, better, next_notice, notice_of};
ghost use Rattle.records.specs.Questions.{rising};

use crate::legs::Record;
use frames::{CallId, News};
use register::User;

// News of a call, as a party is told it.
#[derive(Clone, Copy, Debug, PartialEq, Eq)]
pub struct Notice {
    pub call: CallId,
    pub news: News,
}

// The first of two, unless the second ranks higher.
fn better(one: Option<Notice>, other: Option<Notice>) -> Option<Notice>
    ensures { result ≡ better one other }
{
    match (one, other) {
        (None, other) => other,
        (Some(p), Some(q)) if p.news < q.news => Some(q),
        (one, _) => one,
    }
}

fn notice_of(call: CallId, news: Option<News>) -> Option<Notice>
    ensures { result ≡ notice_of call news }
{
    news.map(|news| Notice { call, news })
}

// The next notice of a user: the better of the first record's and the next notice of the rest.
// Where identifiers rise, that is the best of all: what ranks highest, and among equals the lowest call.
// It is recursive as its rule is; a switch has at most 64 records.
pub fn next_notice(records: &[Record], user: User) -> Option<Notice>
    ensures choice { result ≡ next_notice user.0 records.now }
    ensures best { (last : ℕ) → rising last records.now ≡ true → Best user.0 records.now result }
{
    match records {
        [] => None,
        [first, rest @ ..] => better(
            notice_of(first.id, first.news_for(user)),
            next_notice(rest, user),
        ),
    }
}
