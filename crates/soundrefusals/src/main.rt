// Puts question 4 by itself to bad limits, tables, mats and pads, hands bad frames to the reader and the writers, and prints the
// number that each answers with. Each line: what was tried, and the number. The file `stdout` beside src/ is what it must print.
#![tactic(auto)]

mod framecalls;
mod sounds;

use std::io;

fn main(rt: HostRuntime) -> io::Result<()> {
    sounds::tries(&rt)?;
    framecalls::tries(&rt)
}
