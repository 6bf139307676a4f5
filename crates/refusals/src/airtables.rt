// The calls of the two tables.
// Stays (no plainer): the two tables are tried with other values.
use air::table::{DataTable, ReplyTable};
use limits::messages::{Data, Message, Reply};
use std::io;
use tries::line;

fn row(number: usize, life: u16, cell: u16) -> Message<Data> {
    Message {
        body: Data {
            number,
            row: [cell; 16],
        },
        life,
    }
}

// A data table of `count` messages. Each word is 1: the life, the number and the cells.
fn data_of(count: usize) -> DataTable {
    DataTable::assembled(count, [1; 576])
}

// Tables whose one message has a life of 0, the number 4 or a cell of 4096.
fn data_unsound(rt: &impl Print) -> io::Result<()> {
    let l = tries::of(2, 1, 4);
    let mut t = data_of(1);
    t.words[0] = 0;
    line(rt, b"data remove, life 0 in the table", t.remove(l, 0))?;
    t = data_of(1);
    t.words[1] = 4;
    line(rt, b"data tick, number 2w in the table", t.tick(l, 1))?;
    t = data_of(1);
    t.words[17] = 4096;
    line(rt, b"data read, cell 4096 in the table", t.read(l, 0))
}

pub fn data_tries(rt: &impl Print) -> io::Result<()> {
    let l = tries::of(2, 1, 4);
    line(
        rt,
        b"data put, w 0",
        data_of(0).put(tries::of(0, 1, 4), row(0, 1, 5)),
    )?;
    line(rt, b"data put, number 2w", data_of(0).put(l, row(4, 1, 5)))?;
    line(rt, b"data put, life 0", data_of(0).put(l, row(0, 0, 5)))?;
    line(
        rt,
        b"data put, life 2 of 1",
        data_of(0).put(l, row(0, 2, 5)),
    )?;
    line(
        rt,
        b"data put, cell 4096",
        data_of(0).put(l, row(0, 1, 4096)),
    )?;
    line(
        rt,
        b"data put, 31 messages",
        data_of(31).put(l, row(0, 1, 5)),
    )?;
    line(
        rt,
        b"data put, 32 messages",
        data_of(32).put(l, row(0, 1, 5)),
    )?;
    line(rt, b"data put, count 33", data_of(33).put(l, row(0, 1, 5)))?;
    line(
        rt,
        b"data remove, count largest",
        data_of(usize::MAX).remove(l, 0),
    )?;
    line(rt, b"data remove, p at the count", data_of(3).remove(l, 3))?;
    line(
        rt,
        b"data remove, p largest",
        data_of(3).remove(l, usize::MAX),
    )?;
    line(rt, b"data remove, last message", data_of(3).remove(l, 2))?;
    line(rt, b"data read, empty table", data_of(0).read(l, 0))?;
    line(
        rt,
        b"data read, wait 3",
        data_of(1).read(tries::of(2, 2, 3), 0),
    )?;
    line(rt, b"data tick 0", data_of(3).tick(l, 0))?;
    line(rt, b"data tick 65535", data_of(32).tick(l, 65535))?;
    data_unsound(rt)
}

fn reply(first: usize, last: usize, life: u16) -> Message<Reply> {
    Message {
        body: Reply { first, last },
        life,
    }
}

// A reply table of `count` messages. Each word is 1: the life, the first and the last number.
fn replies_of(count: usize) -> ReplyTable {
    ReplyTable::assembled(count, [1; 96])
}

// Tables whose one message has a life of 0, the first number 4 or the last number 3.
fn replies_unsound(rt: &impl Print) -> io::Result<()> {
    let l = tries::of(2, 1, 4);
    let mut t = replies_of(1);
    t.words[0] = 0;
    line(rt, b"reply remove, life 0 in the table", t.remove(l, 0))?;
    t = replies_of(1);
    t.words[1] = 4;
    line(rt, b"reply tick, number 2w in the table", t.tick(l, 1))?;
    t = replies_of(1);
    t.words[2] = 3;
    line(rt, b"reply read, span 3 of 2 in the table", t.read(l, 0))
}

pub fn reply_tries(rt: &impl Print) -> io::Result<()> {
    let l = tries::of(2, 1, 4);
    line(
        rt,
        b"reply put, w 33",
        replies_of(0).put(tries::of(33, 1, 4), reply(0, 0, 1)),
    )?;
    line(
        rt,
        b"reply put, last 2w",
        replies_of(0).put(l, reply(0, 4, 1)),
    )?;
    line(
        rt,
        b"reply put, span 3 of 2",
        replies_of(0).put(l, reply(3, 1, 1)),
    )?;
    line(
        rt,
        b"reply put, life 0",
        replies_of(0).put(l, reply(0, 0, 0)),
    )?;
    line(
        rt,
        b"reply put, span over the ring's end",
        replies_of(0).put(l, reply(3, 0, 1)),
    )?;
    line(
        rt,
        b"reply put, 31 messages",
        replies_of(31).put(l, reply(0, 0, 1)),
    )?;
    line(
        rt,
        b"reply put, 32 messages",
        replies_of(32).put(l, reply(0, 0, 1)),
    )?;
    line(
        rt,
        b"reply put, count 33",
        replies_of(33).put(l, reply(0, 0, 1)),
    )?;
    line(
        rt,
        b"reply remove, count largest",
        replies_of(usize::MAX).remove(l, 0),
    )?;
    line(
        rt,
        b"reply remove, p at the count",
        replies_of(3).remove(l, 3),
    )?;
    line(
        rt,
        b"reply remove, last message",
        replies_of(3).remove(l, 2),
    )?;
    line(rt, b"reply read, empty table", replies_of(0).read(l, 0))?;
    line(
        rt,
        b"reply read, times 0",
        replies_of(1).read(tries::of(2, 0, 4), 0),
    )?;
    line(rt, b"reply tick 0", replies_of(3).tick(l, 0))?;
    line(rt, b"reply tick 65535", replies_of(32).tick(l, 65535))?;
    replies_unsound(rt)
}
