// The mat's calls.
// Stays (no plainer): a try is handed its values one by one.
use limits::Limits;
use limits::messages::Reply;
use mat::Mat;
use std::io;
use tries::line;

// A mat with the rows from `oldest` up to `next` outstanding. Every timer is 4 and every cell 5.
fn mat_of(oldest: usize, next: usize) -> Mat {
    let mut m = Mat::fresh();
    m.oldest = oldest;
    m.next = next;
    m.timers = [4; 32];
    m.cells = [5; 512];
    m
}

fn send(
    rt: &impl Print,
    what: &[u8],
    l: Limits,
    oldest: usize,
    next: usize,
    supply: &[u16],
) -> io::Result<()> {
    let answer = mat_of(oldest, next).send(l, supply);
    line(rt, what, answer)
}

fn resend(rt: &impl Print, what: &[u8], l: Limits, m: Mat, k: usize) -> io::Result<()> {
    let mut m = m;
    let answer = m.resend(l, k);
    line(rt, what, answer)
}

fn acknowledge(
    rt: &impl Print,
    what: &[u8],
    l: Limits,
    next: usize,
    first: usize,
    last: usize,
) -> io::Result<()> {
    let answer = mat_of(0, next).acknowledge(l, Reply { first, last });
    line(rt, what, answer)
}

fn tick(rt: &impl Print, what: &[u8], l: Limits, m: Mat, d: u16) -> io::Result<()> {
    let mut m = m;
    let answer = m.tick(l, d);
    line(rt, what, answer)
}

fn unsound_limits(rt: &impl Print) -> io::Result<()> {
    let m = Mat::fresh();
    let row = [5u16; 16];
    send(rt, b"mat send, w 0", tries::of(0, 1, 4), 0, 0, &row)?;
    send(rt, b"mat send, w 33", tries::of(33, 1, 4), 0, 0, &row)?;
    send(
        rt,
        b"mat send, times 251",
        tries::of(2, 251, 1000),
        0,
        0,
        &row,
    )?;
    resend(rt, b"mat resend, wait 0", tries::of(2, 1, 0), m, 0)?;
    acknowledge(rt, b"mat reply, wait 3", tries::of(2, 2, 3), 0, 0, 0)?;
    tick(rt, b"mat tick, wait 1001", tries::of(2, 1, 1001), m, 1)
}

fn unsound_mats(rt: &impl Print) -> io::Result<()> {
    let l = tries::of(2, 1, 4);
    let row = [5u16; 16];
    send(rt, b"mat send, next 2w", l, 0, 4, &row)?;
    send(
        rt,
        b"mat send, oldest largest",
        l,
        18446744073709551615,
        0,
        &row,
    )?;
    send(rt, b"mat send, 3 outstanding of 2", l, 0, 3, &row)?;
    let mut m = Mat::fresh();
    m.marks[0] = true;
    tick(rt, b"mat tick, mark on a row not outstanding", l, m, 1)?;
    m = Mat::fresh();
    m.timers[1] = 5;
    tick(rt, b"mat tick, timer above its wait", l, m, 1)?;
    m = mat_of(0, 2);
    m.cells[16] = 4096;
    resend(rt, b"mat resend, kept cell 4096", l, m, 0)?;
    acknowledge(rt, b"mat reply, first 2w", l, 2, 4, 0)?;
    acknowledge(rt, b"mat reply, span above w", l, 2, 0, 2)
}

fn refused(rt: &impl Print) -> io::Result<()> {
    let l = tries::of(2, 1, 4);
    let row = [5u16; 16];
    let long = [4096u16; 20];
    let none = Mat::fresh();
    let two = mat_of(0, 2);
    send(rt, b"mat send, window full", l, 0, 2, &row)?;
    send(rt, b"mat send, empty supply", l, 0, 0, &row[0..0])?;
    send(rt, b"mat send, 15 cells", l, 0, 0, &row[0..15])?;
    send(rt, b"mat send, cell 4096", l, 0, 0, &long)?;
    send(rt, b"mat send, 16 cells", l, 0, 0, &row)?;
    resend(rt, b"mat resend, nothing outstanding", l, none, 0)?;
    resend(rt, b"mat resend, k at outstanding", l, two, 2)?;
    resend(rt, b"mat resend, timer running", l, two, 0)?;
    acknowledge(rt, b"mat reply, nothing outstanding", l, 0, 0, 0)?;
    acknowledge(rt, b"mat reply, row not sent", l, 2, 2, 2)?;
    acknowledge(rt, b"mat reply, both rows", l, 2, 0, 1)?;
    tick(rt, b"mat tick 0", l, none, 0)?;
    tick(rt, b"mat tick 65535", l, two, 65535)
}

// A later row is acknowledged alone: it may not be sent again.
fn acknowledged(rt: &impl Print) -> io::Result<()> {
    let l = tries::of(2, 1, 4);
    let mut m = mat_of(0, 2);
    let answer = m.acknowledge(l, Reply { first: 1, last: 1 });
    line(rt, b"mat reply, later row alone", answer)?;
    resend(rt, b"mat resend, acknowledged row", l, m, 1)
}

pub fn tries(rt: &impl Print) -> io::Result<()> {
    unsound_limits(rt)?;
    unsound_mats(rt)?;
    refused(rt)?;
    acknowledged(rt)
}
