// Reads frames from standard input, each behind a byte that says how long it is, and prints what the reader makes of each and
// what the writer makes of that again. A length that runs past the input ends it.
// Each line: the answer; kind, life, w and numbers; the cells of a data frame; then the bytes written from these values.
#![tactic(auto)]

use frames::{DataFrame, Frame, ReplyFrame};
use std::fmt::Display;
use std::io;
use std::io::Read;

// Each number with a space behind it.
fn numbers<T: Display>(rt: &impl Print, numbers: &[T]) -> io::Result<()> {
    for n in numbers {
        print!(rt; "{n} ")?;
    }
    Ok(())
}

fn data(rt: &impl Print, f: &DataFrame) -> io::Result<()> {
    print!(rt; "1 {} {} {} ", f.life, f.window, f.data.number)?;
    numbers(rt, &f.data.row)
}

fn reply(rt: &impl Print, f: &ReplyFrame) -> io::Result<()> {
    print!(rt;
        "2 {} {} {} {} ",
        f.life, f.window, f.reply.first, f.reply.last
    )
}

// What the writer makes of a frame.
fn written(rt: &impl Print, frame: &Frame, buffer: &mut [u8]) -> io::Result<()> {
    let written = frames::write(frame, buffer);
    print!(rt;
        "{} {} ",
        limits::answer::number(&written),
        written.unwrap_or(0)
    )?;
    numbers(rt, buffer)
}

fn one(rt: &impl Print, bytes: &[u8]) -> io::Result<()> {
    let read = frames::read(bytes);
    print!(rt; "{} ", limits::answer::number(&read))?;
    match read {
        Ok(Frame::Data(f)) => {
            data(rt, &f)?;
            written(rt, &Frame::Data(f), &mut [0; 40])?;
        }
        Ok(Frame::Reply(f)) => {
            reply(rt, &f)?;
            written(rt, &Frame::Reply(f), &mut [0; 8])?;
        }
        Err(_) => print!(rt; "0 ")?,
    }
    println!(rt)
}

fn all(rt: &impl Print, input: &[u8]) -> io::Result<()> {
    let mut rest = input;
    // Stays (no plainer): frames are taken off the front, each of its own length; no index is counted.
    while let Some((&size, behind)) = rest.split_first() {
        let Some((frame, next)) = behind.split_at_checked(usize::from(size)) else {
            break;
        };
        one(rt, frame)?;
        rest = next;
    }
    Ok(())
}

fn main(rt: HostRuntime) -> io::Result<()> {
    let mut input = Vec::new(rt.alloc());
    rt.stdin().take(65536).read_to_end(&mut input)?;
    all(&rt, input.as_slice())
}
