// Hands bad input of every kind to the calls of mat and pad and prints the number that each answers with.
// Each line: what was tried, and the number. The file `stdout` beside src/ is what it must print.
#![tactic(auto)]

mod mats;
mod pads;

use std::io;

fn main(rt: HostRuntime) -> io::Result<()> {
    mats::tries(&rt)?;
    pads::tries(&rt)
}
