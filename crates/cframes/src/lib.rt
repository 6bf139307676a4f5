// Inner: called by exports_c. Frames for programs in C, as a head of five numbers (kind, life, w, number or first, last) and
// sixteen cells.
#![tactic(auto)]

ghost use Rattle.std.specs.Prelude.{◌≡◌};
ghost use Rattle.limits.specs.Questions.{Answered};
ghost use Rattle.buffers.specs.Buffers.{WriteCall};
ghost use Rattle.cframes.specs.Frames.{kind_questions, frame_in, write_questions, frame_into, ReadFrame, WriteFrame};

use frames::{DataFrame, Frame, ReplyFrame};
use limits::answer::Refusal;
use limits::messages::{Data, Reply};

// The reader's questions. A data frame gives 1, life, w, number, 0 and its cells; a reply frame 2, life, w, first, last and
// zeros. A refusal writes nothing.
pub fn read(frame: &[u8], head: &mut [u16; 5], cells: &mut [u16; 16]) -> u8
    ensures { ReadFrame frame.now head.old cells.old head.new cells.new result }
{
    // Stays (no plainer): each `as` narrows a number whose bound is proved; `try_from` would give an error that cannot be.
    match frames::read(frame) {
        Ok(Frame::Data(f)) => {
            let Data { number, row } = f.data;
            *head = [1, f.life, f.window as u16, number as u16, 0];
            *cells = row;
            0
        }
        Ok(Frame::Reply(f)) => {
            let Reply { first, last } = f.reply;
            *head = [2, f.life, f.window as u16, first as u16, last as u16];
            *cells = [0; 16];
            0
        }
        Err(refusal) => u8::from(refusal),
    }
}

// The frame that head and cells make: 22 of a kind other than 1 and 2.
fn frame_in(head: &[u16; 5], cells: &[u16; 16]) -> Result<Frame, Refusal>
    ensures { Answered (kind_questions head.now) result (frame_in head.now cells.now) }
{
    let [kind, life, window, first, last] = *head;
    // Stays (C interface): a frame's kind is a number in its head.
    match kind {
        1 => Ok(Frame::Data(DataFrame {
            life,
            window: usize::from(window),
            data: Data {
                number: usize::from(first),
                row: *cells,
            },
        })),
        2 => Ok(Frame::Reply(ReplyFrame {
            life,
            window: usize::from(window),
            reply: Reply {
                first: usize::from(first),
                last: usize::from(last),
            },
        })),
        _ => Err(Refusal::UnknownFrame),
    }
}

fn written(head: &[u16; 5], cells: &[u16; 16], buffer: &mut [u8]) -> Result<usize, Refusal>
    ensures { WriteCall (write_questions head.now cells.now buffer.old)
        (frame_into head.now cells.now buffer.old) result buffer.old buffer.new }
{
    let frame = frame_in(head, cells)?;
    frames::write(&frame, buffer)
}

// 22 of a kind other than 1 and 2, then the writer's questions of the frame that head and cells make. `count` gets the bytes
// written, or 0.
// Stays (C interface): the number and the count go out apart.
pub fn write(head: &[u16; 5], cells: &[u16; 16], buffer: &mut [u8], count: &mut usize) -> u8
    ensures { WriteFrame head.now cells.now buffer.old buffer.new count.new result }
{
    let written = written(head, cells, buffer);
    *count = written.unwrap_or(0);
    limits::answer::number(&written)
}
