// The reader and the writers of frames.
use frames::{DataFrame, Frame, ReplyFrame};
use limits::messages::{Data, Reply};
use std::io;
use tries::line;

fn read(rt: &impl Print, what: &[u8], bytes: &[u8]) -> io::Result<()> {
    line(rt, what, frames::read(bytes))
}

fn data(life: u16, window: usize, number: usize, cell: u16) -> Frame {
    let row = [cell; 16];
    Frame::Data(DataFrame {
        life,
        window,
        data: Data { number, row },
    })
}

fn reply(window: usize, first: usize, last: usize) -> Frame {
    Frame::Reply(ReplyFrame {
        life: 1,
        window,
        reply: Reply { first, last },
    })
}

fn write(rt: &impl Print, what: &[u8], frame: Frame, buffer: &mut [u8]) -> io::Result<()> {
    line(rt, what, frames::write(&frame, buffer))
}

fn read_tries(rt: &impl Print) -> io::Result<()> {
    read(rt, b"read, no byte", b"")?;
    read(rt, b"read, first byte 3", b"\x03\x01\x02\x00\x00")?;
    read(rt, b"read, 4 bytes of a reply", b"\x02\x01\x02\x00")?;
    read(rt, b"read, w 33", b"\x02\x01\x21\x00\x00")?;
    read(rt, b"read, last 2w", b"\x02\x01\x02\x00\x04")?;
    read(rt, b"read, life 251", b"\x02\xfb\x02\x00\x00")?;
    read(rt, b"read, span 3 of 2", b"\x02\x01\x02\x00\x02")?;
    read(rt, b"read, a reply", b"\x02\x01\x02\x03\x00")
}

fn write_tries(rt: &impl Print) -> io::Result<()> {
    let mut space = [0u8; 36];
    let mut short = [0u8; 4];
    write(rt, b"write data", data(250, 32, 63, 4095), &mut space)?;
    write(
        rt,
        b"write data, w largest",
        data(1, usize::MAX, 0, 5),
        &mut space,
    )?;
    write(rt, b"write data, number 2w", data(1, 2, 4, 5), &mut space)?;
    write(rt, b"write data, life 0", data(0, 2, 0, 5), &mut space)?;
    write(
        rt,
        b"write data, cell 4096",
        data(1, 2, 0, 4096),
        &mut space,
    )?;
    write(rt, b"write data, buffer of 4", data(1, 2, 0, 5), &mut short)?;
    write(rt, b"write reply", reply(2, 3, 0), &mut space)?;
    write(rt, b"write reply, span 3 of 2", reply(2, 0, 2), &mut space)?;
    write(rt, b"write reply, buffer of 4", reply(2, 0, 0), &mut short)
}

pub fn tries(rt: &impl Print) -> io::Result<()> {
    read_tries(rt)?;
    write_tries(rt)
}
