// Inner: called by PadDevice and by the functions for C. The calls of a pad by itself, on a pad whose arrays are lent and change in
// place.
#![tactic(auto)]

ghost use Rattle.std.specs.Prelude.{◌≡◌};
ghost use Rattle.pad.specs.View.{lent_pad, StaysLent};
ghost use Rattle.devices.specs.Pads.{pad_device, sound_device, ReceiveCall, ReplyCall, TickCall};

use crate::{Recorded, frame};
use limits::Limits;
use limits::answer::Refusal;
use limits::messages::Reply;
use pad::lentpad::{LentPad, pad_sound};

// Question 4.
// Stays (code size): one copy for the three calls.
#[inline(never)]
pub fn is_sound(l: Limits, pad: &LentPad<'_>) -> bool
    ensures { result ≡ sound_device (pad_device l (lent_pad pad.now)) }
{
    limits::sound_limits(l) && pad_sound(l, pad.wanted, pad.held, pad.timers, pad.cells)
}

// Any bytes arrive: 4, those of the frame, and for an old row 28. Gives how many bytes of a reply are written.
pub fn receive(
    l: Limits,
    pad: &mut LentPad<'_>,
    bytes: &[u8],
    reply: &mut [u8],
) -> Result<usize, Refusal>
    ensures lent { StaysLent pad.old pad.new }
    ensures stays { pad.new.wanted ≡ pad.old.wanted }
    ensures receives { ReceiveCall (pad_device l (lent_pad pad.old)) bytes.now reply.old (pad_device l (lent_pad pad.new)) reply.new result }
{
    if !is_sound(l, pad) {
        return Err(Refusal::Unsound);
    }
    let data = frame::read_data(l, bytes)?;
    if pad.in_window(l, data.number) {
        pad.hold(l, data);
        return Ok(0);
    }
    if reply.len() < 5 {
        return Err(Refusal::ShortBuffer);
    }
    let old = Reply {
        first: data.number,
        last: data.number,
    };
    Ok(frame::write_reply(l, old, reply))
}

// The run of rows at wanted is recorded and replied to: 4, 20, 21, 28.
pub fn reply(
    l: Limits,
    pad: &mut LentPad<'_>,
    record: &mut [u16],
    reply: &mut [u8],
) -> Result<Recorded, Refusal>
    ensures lent { StaysLent pad.old pad.new }
    ensures replies { ReplyCall (pad_device l (lent_pad pad.old)) «record».old reply.old (pad_device l (lent_pad pad.new)) «record».new reply.new result }
{
    if !is_sound(l, pad) {
        return Err(Refusal::Unsound);
    }
    let rows = pad.run_length(l)?;
    if record.len() < 16 * rows {
        return Err(Refusal::RecordFull);
    }
    if reply.len() < 5 {
        return Err(Refusal::ShortBuffer);
    }
    let run = pad.record_run(l, rows, record);
    let written = frame::write_reply(l, run, reply);
    Ok(Recorded { rows, written })
}

// Every reply timer falls by d: 4, 9.
pub fn tick(l: Limits, pad: &mut LentPad<'_>, d: u16) -> Result<(), Refusal>
    ensures lent { StaysLent pad.old pad.new }
    ensures stays { pad.new.wanted ≡ pad.old.wanted }
    ensures ticks { TickCall (pad_device l (lent_pad pad.old)) d (pad_device l (lent_pad pad.new)) result }
{
    if !is_sound(l, pad) {
        return Err(Refusal::Unsound);
    }
    if d == 0 {
        return Err(Refusal::BadArgument);
    }
    pad.tick(l, d);
    Ok(())
}
