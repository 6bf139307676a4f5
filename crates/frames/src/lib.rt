// Frames as they travel over the air: read from any bytes, and written into a lent buffer.
#![tactic(auto)]

ghost use Rattle.std.specs.Prelude.{◌≤◌, ◌≡◌, [], ◌∷◌, length};
ghost use Rattle.limits.specs.Answer.{number_of};
ghost use Rattle.limits.specs.Questions.{Answered, first_no};
ghost use Rattle.frames.specs.Layout.{
  data_into,
  reply_into,
  data_of,
  reply_of,
  reading,
  size_of,
  frame_into,
};
ghost use Rattle.frames.specs.Rules.{
  frame_questions,
  data_questions,
  reply_questions,
  value_questions,
  layout_questions,
  read_questions,
  write_questions,
};
ghost use Rattle.buffers.specs.Buffers.{writing, WriteCall};
ghost use Rattle.buffers.specs.Bytes.{cells_at};

pub mod put;

use limits::answer::Refusal;
use limits::messages::{Data, Reply};
use std::array;

// Stays (no plainer): two layouts with other fields, each with its questions; `Frame` picks one.
#[derive(Clone, Copy, Debug, PartialEq, Eq)]
pub struct DataFrame {
    pub life: u16,
    pub window: usize,
    pub data: Data,
}

#[derive(Clone, Copy, Debug, PartialEq, Eq)]
pub struct ReplyFrame {
    pub life: u16,
    pub window: usize,
    pub reply: Reply,
}

// A message in the air, with the life that is left to it and its link's window. The first byte tells which: 1 or 2.
#[derive(Clone, Copy, Debug, PartialEq, Eq)]
pub enum Frame {
    Data(DataFrame),
    Reply(ReplyFrame),
}

// Stays (speed): what reads, asks and writes a frame is inlined into the calls that come with one, so that a frame is not made in
// memory and moved from there; as functions of their own these cost a call twice as much.
// 24, 25, 26 of a frame with the numbers first and last.
#[inline(always)]
fn frame_answer(window: usize, first: usize, last: usize, life: u16) -> Result<(), Refusal>
    ensures { number_of result ≡ first_no (frame_questions window (first ∷ last ∷ []) life) }
{
    if !limits::window_fits(window) {
        return Err(Refusal::BadFrameWindow);
    }
    if first >= 2 * window || last >= 2 * window {
        return Err(Refusal::BadFrameNumber);
    }
    if !limits::within(1, 250, life) {
        return Err(Refusal::BadFrameLife);
    }
    Ok(())
}

// 24, 25, 26, 12.
#[inline(always)]
fn data_answer(f: &DataFrame) -> Result<(), Refusal>
    ensures { number_of result ≡ first_no (data_questions f.now) }
{
    frame_answer(f.window, f.data.number, f.data.number, f.life)?;
    if !rows::legal_row(f.data.row) {
        return Err(Refusal::IllegalCell);
    }
    Ok(())
}

// 24, 25, 26, 27.
#[inline(always)]
fn reply_answer(f: &ReplyFrame) -> Result<(), Refusal>
    ensures { number_of result ≡ first_no (reply_questions f.now) }
{
    let Reply { first, last } = f.reply;
    frame_answer(f.window, first, last, f.life)?;
    if limits::ring::gap(2 * f.window, first, last) >= f.window {
        return Err(Refusal::BadFrameSpan);
    }
    Ok(())
}

// The questions of the values: 24, 25, 26, then 12 or 27.
#[inline(always)]
fn value_answer(frame: &Frame) -> Result<(), Refusal>
    ensures { number_of result ≡ first_no (value_questions frame.now) }
{
    match frame {
        Frame::Data(f) => data_answer(f),
        Frame::Reply(f) => reply_answer(f),
    }
}

#[inline(always)]
fn cells_of(bytes: &[u8]) -> [u16; 16]
    requires { length bytes.now ≡ 36 }
    ensures { result ≡ cells_at bytes.now 4 16 }
{
    array::from_fn(|k| u16::from_le_bytes([bytes[4 + 2 * k], bytes[5 + 2 * k]]))
}

#[inline(always)]
fn data_of(bytes: &[u8]) -> DataFrame
    requires { length bytes.now ≡ 36 }
    ensures { result ≡ data_of bytes.now }
{
    let row = cells_of(bytes);
    DataFrame {
        life: u16::from(bytes[1]),
        window: usize::from(bytes[2]),
        data: Data {
            number: usize::from(bytes[3]),
            row,
        },
    }
}

#[inline(always)]
fn reply_of(bytes: &[u8]) -> ReplyFrame
    requires { length bytes.now ≡ 5 }
    ensures { result ≡ reply_of bytes.now }
{
    ReplyFrame {
        life: u16::from(bytes[1]),
        window: usize::from(bytes[2]),
        reply: Reply {
            first: usize::from(bytes[3]),
            last: usize::from(bytes[4]),
        },
    }
}

// The frame that the bytes are laid out as: 22, 23.
#[inline(always)]
fn laid_out(bytes: &[u8]) -> Result<Frame, Refusal>
    ensures { Answered (layout_questions bytes.now) result (reading bytes.now) }
{
    if bytes.is_empty() {
        return Err(Refusal::UnknownFrame);
    }
    // Stays (no plainer): the first byte of a frame is its kind; `Frame` is what it stands for.
    match (bytes[0], bytes.len()) {
        (1, 36) => Ok(Frame::Data(data_of(bytes))),
        (2, 5) => Ok(Frame::Reply(reply_of(bytes))),
        (1 | 2, _) => Err(Refusal::BadFrameLength),
        _ => Err(Refusal::UnknownFrame),
    }
}

// Any bytes, none too: 22, 23, 24, 25, 26, then 12 or 27.
#[inline(always)]
pub fn read(bytes: &[u8]) -> Result<Frame, Refusal>
    ensures { Answered (read_questions bytes.now) result (reading bytes.now) }
{
    let frame = laid_out(bytes)?;
    value_answer(&frame)?;
    Ok(frame)
}

fn size_of(frame: &Frame) -> usize
    ensures { result ≡ size_of frame.now }
{
    match frame {
        Frame::Data(_) => 36,
        Frame::Reply(_) => 5,
    }
}

// A frame at the front of a buffer, and how many bytes it has: 24, 25, 26, 12 or 27, 28.
#[inline(always)]
pub fn write(frame: &Frame, buffer: &mut [u8]) -> Result<usize, Refusal>
    ensures { WriteCall (write_questions frame.now buffer.old)
        (writing (size_of frame.now) (frame_into frame.now buffer.old)) result buffer.old buffer.new }
{
    value_answer(frame)?;
    let size = size_of(frame);
    if buffer.len() < size {
        return Err(Refusal::ShortBuffer);
    }
    match frame {
        Frame::Data(f) => put::data(f, buffer),
        Frame::Reply(f) => put::reply(f, buffer),
    }
    Ok(size)
}
