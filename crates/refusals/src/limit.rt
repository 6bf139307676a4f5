// Questions 1 to 3.
use std::io;
use tries::{line, of};

fn opening(rt: &impl Print, what: &[u8], window: usize, time: u16, wait: u16) -> io::Result<()> {
    line(rt, what, limits::accept(of(window, time, wait)))
}

pub fn tries(rt: &impl Print) -> io::Result<()> {
    opening(rt, b"opening w 1", 1, 1, 0)?;
    opening(rt, b"opening w 32, longest times", 32, 250, 1000)?;
    opening(rt, b"opening w 0", 0, 1, 0)?;
    opening(rt, b"opening w 33", 33, 1, 0)?;
    opening(rt, b"opening w largest", 18446744073709551615, 1, 0)?;
    opening(rt, b"opening times 0", 1, 0, 0)?;
    opening(rt, b"opening times 251", 1, 251, 0)?;
    opening(rt, b"opening times 65535", 1, 65535, 65535)?;
    opening(rt, b"opening wait 3, sum 6", 1, 2, 3)?;
    opening(rt, b"opening wait 4, sum 6", 1, 2, 4)?;
    opening(rt, b"opening wait 1001", 1, 1, 1001)
}
