// The PDU of a frame that is written.
ghost use Rattle.std.specs.Prelude.{◌≤◌, length};
ghost use Rattle.text.specs.Octets.{held};

use crate::bits::{Field, join, total};
use crate::codes::{PduType, cause_number};
use crate::content::{Body, Verdict};
use crate::numbers::NUMBERS;
use crate::refusal::Refusal;
use text::Octets;

// How many bits it has, and the bytes that it takes.
#[derive(Clone, Copy)]
pub struct Pdu {
    pub(crate) bits: u8,
    pub(crate) octets: Octets,
    ghost few: { bits ≤ 15 },
    ghost short: { length (held octets) ≤ 2 },
}

impl Pdu {
    ghost use Rattle.std.specs.Prelude.{◌≡◌, Ok};
    ghost use Rattle.frames.specs.Bits.{Fit, total};
    ghost use Rattle.frames.specs.Write.{told_pdu, pdu_of};

    // Its fields, filled up with zero bits to whole bytes.
    fn of(fields: &[Field]) -> Pdu
        requires fit { Fit fields.now }
        requires few { total fields.now ≤ 15 }
        ensures { told_pdu (Ok result) ≡ pdu_of (Ok fields.now) }
    {
        let bits = total(fields);
        let number = (join(fields) << (16 - bits)) as u16;
        let mut octets = Octets::empty();
        octets.append(&number.to_be_bytes()[..bits.div_ceil(8) as usize]);
        Pdu {
            bits: bits as u8,
            octets,
        }
    }
}

impl TryFrom<Body> for Pdu {
    ghost use Rattle.std.specs.Prelude.{◌≡◌};
    ghost use Rattle.frames.specs.Write.{told_pdu, writes_pdu};

    type Error = Refusal;

    ghost try_from_gives = { λ b r. told_pdu r ≡ writes_pdu b };

    // Refused for a cause that the operation does not list.
    fn try_from(body: Body) -> Result<Pdu, Refusal> {
        let ss_type = Field::new(6, NUMBERS.ss_type);
        Ok(match body {
            Body::Request(operation) => {
                let pdu_type = Field::new(5, PduType::Request(operation).into());
                Pdu::of(&[ss_type, pdu_type])
            }
            Body::Answer(operation, verdict) => {
                let pdu_type = Field::new(5, PduType::Answer(operation).into());
                match verdict {
                    Verdict::Granted => Pdu::of(&[ss_type, pdu_type, Field::new(1, 1)]),
                    Verdict::Declined(cause) => {
                        let cause = cause_number(operation, cause).ok_or(Refusal::Content)?;
                        Pdu::of(&[ss_type, pdu_type, Field::new(1, 0), Field::new(3, cause)])
                    }
                }
            }
            Body::ClearRequest | Body::ClearAnswer => Pdu::of(&[]),
            Body::Notice(news) => Pdu::of(&[Field::new(8, news.into())]),
        })
    }
}
