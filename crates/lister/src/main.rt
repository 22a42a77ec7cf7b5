// Lists the frames of standard input: for each line its number, then `OK` and the frame written anew, or `NO`, the refusal's number and its place.
#![tactic(auto)]

mod lines;
mod listing;
#[cfg(test)]
mod tests;

use lines::Lister;
use std::io;
use std::io::{Read, Write};

fn main(rt: HostRuntime) -> io::Result<()> {
    let heap = rt.alloc();
    let mut input = rt.stdin();
    let mut output = rt.stdout();
    let mut lister = Lister::new();
    let mut out = String::new(heap);
    // Nothing says that an input ends, so the chunks are counted.
    for _ in 0..u64::MAX {
        if lister.is_done() {
            break;
        }
        let mut chunk = [0u8; 4096];
        let count = input.read(&mut chunk)?;
        if count == 0 {
            break;
        }
        lister.feed(heap, &chunk[..count], &mut out)?;
        output.write_all(out.as_bytes())?;
        out.clear();
    }
    lister.finish(heap, &mut out)?;
    output.write_all(out.as_bytes())
}
