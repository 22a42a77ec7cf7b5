// The PDU of a frame that is read.
ghost use Rattle.std.specs.Prelude.{◌+◌, ◌/◌, ◌≤◌, length};

use crate::bits::split;
use crate::codes::{Kind, PduType, cause_with_number};
use crate::content::{Body, News, Operation, Verdict};
use crate::layout::PDU;
use crate::numbers::NUMBERS;
use crate::refusal::Refusal;

// How many bits it has, in the bytes of the frame from the fifth on.
#[derive(Clone, Copy)]
pub struct Pdu<'a> {
    bits: u8,
    frame: &'a [u8],
    ghost there: { 4 + (bits + 7) / 8 ≤ length frame.now },
}

impl<'a> Pdu<'a> {
    ghost use Rattle.std.specs.Prelude.{◌≡◌, IfOk};
    ghost use Rattle.frames.specs.Read.{checks_length, reads_pdu, reads_verdict, reads_request, reads_answer, reads_notice, reads_bare, reads_body};
    ghost use Rattle.frames.specs.Refusal.{faults, passes};

    // Refused unless the frame has as many bytes as the bits ask for, and zeros past the last of them.
    pub(crate) fn within(frame: &'a [u8], bits: u8) -> Result<Pdu<'a>, Refusal>
        requires { 4 ≤ length frame.now }
        ensures outcome { passes result ≡ checks_length bits frame.now }
        ensures lent { IfOk result (λ p. (p.bits ≡ bits) × (p.frame.now ≡ frame.now)) }
    {
        let octets = usize::from(bits).div_ceil(8);
        let filling = 8 * octets - usize::from(bits);
        if frame.len() != 4 + octets {
            return Err(Refusal::Length);
        }
        let last = frame[frame.len() - 1];
        if last % (1 << filling) != 0 {
            return Err(Refusal::Length);
        }
        Ok(Pdu { bits, frame })
    }

    pub(crate) fn body(self, kind: Kind) -> Result<Body, Refusal>
        ensures { faults result ≡ reads_body kind self.entry.bits self.entry.frame.now }
    {
        match kind {
            Kind::Request => self.request(),
            Kind::Answer => self.answer(),
            Kind::ClearRequest => self.bare(Body::ClearRequest),
            Kind::ClearAnswer => self.bare(Body::ClearAnswer),
            Kind::Notice => self.notice(),
        }
    }

    // The fields of a PDU of the service.
    fn fields(self) -> Result<[u16; 5], Refusal>
        ensures { faults result ≡ reads_pdu self.entry.bits self.entry.frame.now }
    {
        if self.bits < 11 {
            return Err(Refusal::Service);
        }
        let number = u16::from_be_bytes([self.frame[4], self.frame[5]]);
        let fields = split(&PDU, u64::from(number));
        if fields[0] != NUMBERS.ss_type {
            return Err(Refusal::Service);
        }
        Ok(fields)
    }

    fn request(self) -> Result<Body, Refusal>
        ensures { faults result ≡ reads_request self.entry.bits self.entry.frame.now }
    {
        let [_, pdu_type, _, _, _] = self.fields()?;
        let PduType::Request(operation) = PduType::try_from(pdu_type)? else {
            return Err(Refusal::PduType);
        };
        if self.bits != 11 {
            return Err(Refusal::Content);
        }
        Ok(Body::Request(operation))
    }

    fn answer(self) -> Result<Body, Refusal>
        ensures { faults result ≡ reads_answer self.entry.bits self.entry.frame.now }
    {
        let [_, pdu_type, res, cause, _] = self.fields()?;
        let PduType::Answer(operation) = PduType::try_from(pdu_type)? else {
            return Err(Refusal::PduType);
        };
        let verdict = self.verdict(operation, res, cause)?;
        Ok(Body::Answer(operation, verdict))
    }

    // Granted in 12 bits with result 1, declined in 15 with result 0 and a listed cause.
    fn verdict(self, operation: Operation, res: u16, cause: u16) -> Result<Verdict, Refusal>
        ensures { faults result ≡ reads_verdict operation self.entry.bits res cause }
    {
        match (self.bits, res) {
            (12, 1) => Ok(Verdict::Granted),
            (15, 0) => cause_with_number(operation, cause)
                .map(Verdict::Declined)
                .ok_or(Refusal::Content),
            _ => Err(Refusal::Content),
        }
    }

    fn notice(self) -> Result<Body, Refusal>
        ensures { faults result ≡ reads_notice self.entry.bits self.entry.frame.now }
    {
        if self.bits != 8 {
            return Err(Refusal::Content);
        }
        let news = News::try_from(u16::from(self.frame[4]))?;
        Ok(Body::Notice(news))
    }

    // A body that has no PDU.
    fn bare(self, body: Body) -> Result<Body, Refusal>
        ensures { faults result ≡ reads_bare self.entry.bits body }
    {
        if self.bits != 0 {
            return Err(Refusal::Content);
        }
        Ok(body)
    }
}
