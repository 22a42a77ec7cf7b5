// Kinds, PDU types, causes and news by their numbers, and back. Each is looked up among all of its type by a chain of its own: one over
// the types would want a trait that says again what `From` says.
ghost use Rattle.std.specs.Prelude.{◌≡◌, ◌<◌, IfSome};
ghost use Rattle.std.specs.Option.{ok_or};
ghost use Rattle.frames.specs.Codes.{kind, kind_number, kind_of, pdu_type, pdu_type_of, cause_number, cause_of, news_number, news_of};
ghost use Rattle.frames.specs.declared.refusal.Refusal.TheVariants.{Header as header, PduType as no_type, Content as content};

use crate::content::{Body, Cause, News, Operation};
use crate::numbers::NUMBERS;
use crate::refusal::Refusal;

// The kind of a frame, the first field of its header.
#[derive(Clone, Copy, Debug, PartialEq, Eq)]
pub enum Kind {
    Request,
    Answer,
    ClearRequest,
    ClearAnswer,
    Notice,
}

impl Kind {
    const ALL: [Kind; 5] = [
        Kind::Request,
        Kind::Answer,
        Kind::ClearRequest,
        Kind::ClearAnswer,
        Kind::Notice,
    ];
}

impl From<Body> for Kind {
    ghost from_gives = { λ b k. k ≡ kind b };

    fn from(body: Body) -> Kind {
        match body {
            Body::Request(_) => Kind::Request,
            Body::Answer(_, _) => Kind::Answer,
            Body::ClearRequest => Kind::ClearRequest,
            Body::ClearAnswer => Kind::ClearAnswer,
            Body::Notice(_) => Kind::Notice,
        }
    }
}

impl From<Kind> for u16 {
    ghost from_gives = { λ k n. n ≡ kind_number k };

    fn from(kind: Kind) -> u16 {
        match kind {
            Kind::Request => 1,
            Kind::Answer => 2,
            Kind::ClearRequest => 3,
            Kind::ClearAnswer => 4,
            Kind::Notice => 5,
        }
    }
}

impl TryFrom<u16> for Kind {
    type Error = Refusal;

    ghost try_from_gives = { λ n r. r ≡ ok_or (kind_of n) header };

    fn try_from(number: u16) -> Result<Kind, Refusal> {
        Kind::ALL
            .iter()
            .copied()
            .find(|kind| u16::from(*kind) == number)
            .ok_or(Refusal::Header)
    }
}

// The type of a PDU of the service: it asks for an operation, or answers it.
#[derive(Clone, Copy, Debug, PartialEq, Eq)]
pub enum PduType {
    Request(Operation),
    Answer(Operation),
}

impl PduType {
    const ALL: [PduType; 4] = [
        PduType::Request(Operation::Hold),
        PduType::Answer(Operation::Hold),
        PduType::Request(Operation::Retrieve),
        PduType::Answer(Operation::Retrieve),
    ];
}

impl From<PduType> for u16 {
    ghost from_gives = { λ t n. n ≡ pdu_type t };

    fn from(pdu_type: PduType) -> u16 {
        match pdu_type {
            PduType::Request(Operation::Hold) => NUMBERS.invoke,
            PduType::Answer(Operation::Hold) => NUMBERS.invoke_ack,
            PduType::Request(Operation::Retrieve) => NUMBERS.retrieve,
            PduType::Answer(Operation::Retrieve) => NUMBERS.retrieve_ack,
        }
    }
}

impl TryFrom<u16> for PduType {
    type Error = Refusal;

    ghost try_from_gives = { λ n r. r ≡ ok_or (pdu_type_of n) no_type };

    fn try_from(number: u16) -> Result<PduType, Refusal> {
        PduType::ALL
            .iter()
            .copied()
            .find(|pdu_type| u16::from(*pdu_type) == number)
            .ok_or(Refusal::PduType)
    }
}

// The number of a cause that the operation lists.
pub fn cause_number(operation: Operation, cause: Cause) -> Option<u16>
    ensures value { result ≡ cause_number operation cause }
    ensures small { IfSome result (λ n. n < 8) }
{
    match (operation, cause) {
        (Operation::Hold, Cause::NotSubscribed) => Some(NUMBERS.invoke_causes.not_subscribed),
        (Operation::Hold, Cause::LimitReached) => Some(NUMBERS.invoke_causes.limit_reached),
        (Operation::Hold, Cause::CallNotThere) => Some(NUMBERS.invoke_causes.call_not_there),
        (Operation::Hold, Cause::AlreadyOnHold) => Some(NUMBERS.invoke_causes.already_on_hold),
        (Operation::Retrieve, Cause::CallNotThere) => Some(NUMBERS.retrieve_causes.call_not_there),
        (Operation::Retrieve, Cause::NotOnHold) => Some(NUMBERS.retrieve_causes.not_on_hold),
        (Operation::Retrieve, Cause::NoChannel) => Some(NUMBERS.retrieve_causes.no_channel),
        (_, _) => None,
    }
}

// The cause that an operation lists under a number.
pub(crate) fn cause_with_number(operation: Operation, number: u16) -> Option<Cause>
    ensures { result ≡ cause_of operation number }
{
    Cause::ALL
        .iter()
        .copied()
        .find(|cause| cause_number(operation, *cause) == Some(number))
}

impl From<News> for u16 {
    ghost from_gives = { λ w n. (n ≡ news_number w) × (n < 256) };

    fn from(news: News) -> u16 {
        match news {
            News::PutOnHold => 1,
            News::Retrieved => 2,
            News::Released => 3,
        }
    }
}

impl TryFrom<u16> for News {
    type Error = Refusal;

    ghost try_from_gives = { λ n r. r ≡ ok_or (news_of n) content };

    fn try_from(number: u16) -> Result<News, Refusal> {
        News::ALL
            .iter()
            .copied()
            .find(|news| u16::from(*news) == number)
            .ok_or(Refusal::Content)
    }
}
