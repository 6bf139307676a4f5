// Hands bad input of every kind to the calls of limits and of the two tables and prints the number that each answers with.
// Each line: what was tried, and the number. The file `stdout` beside src/ is what it must print.
#![tactic(auto)]

mod airtables;
mod limit;

use std::io;

fn main(rt: HostRuntime) -> io::Result<()> {
    limit::tries(&rt)?;
    airtables::data_tries(&rt)?;
    airtables::reply_tries(&rt)
}
