// Plays a fixed run on a pair over links that lose and double frames, and prints each call, its outcome and the three sums after it.
#![tactic(auto)]

mod fresh;
mod printing;
mod run;

use printing::print_after;
use run::CALLS;

// Each line is of a fresh pair on which the calls up to it were played: the law is about such runs.
fn main(rt: HostRuntime) -> anyhow::Result<()> {
    for count in 1..=CALLS.len() {
        print_after(&rt, &CALLS[..count])?;
    }
    Ok(())
}
