// The trial: reads standard input and prints what a link makes of it. `report` says what that is.
#![tactic(auto)]

ghost use Rattle.std.specs.Prelude.{◌≡◌, length};

use std::io;
use std::io::Read;

// The longest input that is accepted.
const LONGEST: u64 = 40960;

// As long as `report` asks for.
fn blank() -> [u8; 245760]
    ensures { length result ≡ 245760 }
{
    [0; 245760]
}

// One byte more is read than the longest input that is accepted, so that a longer one is noticed.
fn main(rt: HostRuntime) -> io::Result<()> {
    let mut input = Vec::new(rt.alloc());
    rt.stdin().take(LONGEST + 1).read_to_end(&mut input)?;
    let mut output = blank();
    let count = report::report(input.as_slice(), &mut output).unwrap();
    rt.write_all(&output[..count])
}
