// The pad's calls.
use limits::Limits;
use limits::messages::Data;
use pad::Pad;
use std::io;
use tries::line;

// At a pad that holds nothing.
fn arrive(rt: &impl Print, what: &[u8], l: Limits, number: usize, cell: u16) -> io::Result<()> {
    let row = [cell; 16];
    let mut p = Pad::fresh();
    line(rt, what, p.arrive(l, Data { number, row }))
}

fn run_length(rt: &impl Print, what: &[u8], l: Limits, p: Pad) -> io::Result<()> {
    line(rt, what, p.run_length(l))
}

fn reply(
    rt: &impl Print,
    what: &[u8],
    l: Limits,
    mut p: Pad,
    record: &mut [u16],
) -> io::Result<()> {
    line(rt, what, p.reply(l, record))
}

fn tick(rt: &impl Print, what: &[u8], l: Limits, mut p: Pad, d: u16) -> io::Result<()> {
    line(rt, what, p.tick(l, d))
}

// A pad that holds rows 0 and 1. Every timer is 1 and every cell 5.
fn two() -> Pad {
    let mut p = Pad::fresh();
    p.held[0] = true;
    p.held[1] = true;
    p.timers = [1; 32];
    p.cells = [5; 512];
    p
}

fn unsound(rt: &impl Print) -> io::Result<()> {
    let l = tries::of(2, 1, 4);
    let mut record = [0u16; 32];
    arrive(rt, b"pad data, w 33", tries::of(33, 1, 4), 0, 5)?;
    arrive(rt, b"pad data, wait 0", tries::of(2, 1, 0), 0, 5)?;
    arrive(rt, b"pad data, number 2w", l, 4, 5)?;
    arrive(rt, b"pad data, number largest", l, 18446744073709551615, 5)?;
    arrive(rt, b"pad data, cell 4096", l, 0, 4096)?;
    let mut p = Pad::fresh();
    p.wanted = 4;
    reply(rt, b"pad reply, wanted 2w", l, p, &mut record)?;
    p = Pad::fresh();
    p.timers[1] = 2;
    tick(rt, b"pad tick, timer above its wait", l, p, 1)?;
    p = two();
    p.cells[0] = 4096;
    run_length(rt, b"pad run, held cell 4096", l, p)?;
    reply(rt, b"pad reply, held cell 4096", l, p, &mut record)?;
    run_length(rt, b"pad run, w 0", tries::of(0, 1, 4), Pad::fresh())
}

fn refused(rt: &impl Print) -> io::Result<()> {
    let l = tries::of(2, 1, 4);
    let mut record = [0u16; 32];
    let mut short = [0u16; 31];
    let mut empty = [0u16; 1];
    let none = Pad::fresh();
    let both = two();
    arrive(rt, b"pad data, new row", l, 1, 5)?;
    arrive(rt, b"pad data, old row", l, 2, 5)?;
    run_length(rt, b"pad run, nothing held", l, none)?;
    run_length(rt, b"pad run, two rows", l, both)?;
    reply(rt, b"pad reply, nothing held", l, none, &mut record)?;
    reply(rt, b"pad reply, empty record", l, both, &mut empty[0..0])?;
    reply(
        rt,
        b"pad reply, 32 cells for two rows",
        l,
        both,
        &mut record,
    )?;
    reply(rt, b"pad reply, 31 cells for two rows", l, both, &mut short)?;
    tick(rt, b"pad tick 0", l, none, 0)?;
    tick(rt, b"pad tick 65535", l, both, 65535)
}

pub fn tries(rt: &impl Print) -> io::Result<()> {
    unsound(rt)?;
    refused(rt)
}
