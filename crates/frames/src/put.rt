// Inner: called by `write` and by devices. A frame at the front of a buffer, once its questions were passed.
ghost use Rattle.std.specs.Prelude.{◌≤◌, ◌≡◌, length};
ghost use Rattle.limits.specs.Questions.{first_no};
ghost use Rattle.frames.specs.Layout.{data_into, reply_into};
ghost use Rattle.frames.specs.Rules.{data_questions, reply_questions};

use crate::{DataFrame, ReplyFrame};

// Stays (no plainer): each `as` narrows a number whose bound is proved; `try_from` would give an error that cannot be.
pub fn data(f: &DataFrame, buffer: &mut [u8])
    requires { (first_no (data_questions f.now) ≡ 0) × (36 ≤ length buffer.old) }
    ensures { buffer.new ≡ data_into f.now buffer.old }
{
    buffer[0] = 1;
    buffer[1] = f.life as u8;
    buffer[2] = f.window as u8;
    buffer[3] = f.data.number as u8;
    buffers::cells(buffer, 4, &f.data.row);
}

pub fn reply(f: &ReplyFrame, buffer: &mut [u8])
    requires { (first_no (reply_questions f.now) ≡ 0) × (5 ≤ length buffer.old) }
    ensures { buffer.new ≡ reply_into f.now buffer.old }
{
    buffer[0] = 2;
    buffer[1] = f.life as u8;
    buffer[2] = f.window as u8;
    buffer[3] = f.reply.first as u8;
    buffer[4] = f.reply.last as u8;
}
