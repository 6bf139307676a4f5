// Inner: called by lentmat and lentpad. The frames that a device takes in, and those that it writes.
ghost use Rattle.std.specs.Prelude.{◌≡◌, ◌≤◌, true, length};
ghost use Rattle.limits.specs.Questions.{Answered};
ghost use Rattle.limits.specs.Limits.{sound_limits};
ghost use Rattle.limits.specs.Tables.{sound_data, sound_reply};
ghost use Rattle.frames.specs.Layout.{frame_into};
ghost use Rattle.devices.specs.Frames.{data_frame, reply_frame, data_questions, data_in, reply_questions, reply_in};

use frames::{DataFrame, Frame, ReplyFrame, put};
use limits::Limits;
use limits::answer::Refusal;
use limits::messages::{Data, Reply};

// A row for this link's pad: those of the reader; 22 of a reply frame; 24 of another window.
// Stays (no plainer): the two kinds of frame have other messages, here and below.
pub fn read_data(l: Limits, bytes: &[u8]) -> Result<Data, Refusal>
    ensures { Answered (data_questions l bytes.now) result (data_in bytes.now) }
{
    let Frame::Data(f) = frames::read(bytes)? else {
        return Err(Refusal::UnknownFrame);
    };
    if f.window != l.window {
        return Err(Refusal::BadFrameWindow);
    }
    Ok(f.data)
}

// A reply for this link's mat: those of the reader; 22 of a data frame; 24 of another window.
pub fn read_reply(l: Limits, bytes: &[u8]) -> Result<Reply, Refusal>
    ensures { Answered (reply_questions l bytes.now) result (reply_in bytes.now) }
{
    let Frame::Reply(f) = frames::read(bytes)? else {
        return Err(Refusal::UnknownFrame);
    };
    if f.window != l.window {
        return Err(Refusal::BadFrameWindow);
    }
    Ok(f.reply)
}

// The frame of a row, at the front of a buffer that has room for it. Gives how many bytes it has.
pub fn write_data(l: Limits, data: Data, buffer: &mut [u8]) -> usize
    requires { (sound_limits l ≡ true) × (sound_data l «data» ≡ true) × (36 ≤ length buffer.old) }
    ensures { (buffer.new ≡ frame_into (data_frame l «data») buffer.old) × (result ≡ 36) }
{
    let f = DataFrame {
        life: l.datalife,
        window: l.window,
        data,
    };
    put::data(&f, buffer);
    36
}

// The frame of a reply, likewise.
pub fn write_reply(l: Limits, reply: Reply, buffer: &mut [u8]) -> usize
    requires { (sound_limits l ≡ true) × (sound_reply l reply ≡ true) × (5 ≤ length buffer.old) }
    ensures { (buffer.new ≡ frame_into (reply_frame l reply) buffer.old) × (result ≡ 5) }
{
    let f = ReplyFrame {
        life: l.replylife,
        window: l.window,
        reply,
    };
    put::reply(&f, buffer);
    5
}
