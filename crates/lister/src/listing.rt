// What is printed of one line.
ghost use Rattle.std.specs.Prelude.{◌≡◌, IfOk, string_bytes};
ghost use Rattle.text.specs.Text.{told_octets};
ghost use Rattle.lister.specs.Listing.{written_anew, accepted, refused_at, listing};

use frames::{read, write};
use std::alloc::{AllocError, Global};
use text::{Fault, Octets, read_text, write_text};

// The frame that a line tells, written anew from its content.
// Faults: those of `read_text`, then those of `read`.
fn write_anew(line: &[u8]) -> Result<Octets, Fault>
    ensures { told_octets result ≡ written_anew line.now }
{
    let octets = read_text(line)?;
    let frame = read(octets.as_slice())?;
    write(&frame)
}

fn accept(heap: Global, number: u32, bytes: &[u8]) -> Result<String, AllocError>
    ensures { IfOk result (λ s. string_bytes s ≡ accepted number bytes.now) }
{
    let text = write_text(heap, bytes)?;
    format!(in heap; "{number} OK {text}")
}

// A fault without its layer, since a line's are those of the line and of the frame in it.
fn refuse(heap: Global, number: u32, fault: Fault) -> Result<String, AllocError>
    ensures { IfOk result (λ s. string_bytes s ≡ refused_at number fault.number fault.place) }
{
    match fault.place {
        Some(place) => format!(in heap; "{number} NO {} {place}", fault.number),
        None => format!(in heap; "{number} NO {}", fault.number),
    }
}

// The text of a line: its number, then `OK` and its frame written anew, or `NO`, the refusal's number and its place.
pub fn listed(heap: Global, number: u32, line: &[u8]) -> Result<String, AllocError>
    ensures { IfOk result (λ s. string_bytes s ≡ listing number line.now) }
{
    match write_anew(line) {
        Ok(octets) => accept(heap, number, octets.as_slice()),
        Err(fault) => refuse(heap, number, fault),
    }
}
