// Inner: called by MatDevice and by the functions for C. The calls of a mat by itself, on a mat whose arrays are lent and change in
// place.
#![tactic(auto)]

ghost use Rattle.std.specs.Prelude.{◌≡◌};
ghost use Rattle.mat.specs.View.{lent_mat, StaysLent};
ghost use Rattle.devices.specs.Mats.{mat_device, sound_device, SendCall, ResendCall, ReceiveCall, TickCall};

use crate::frame;
use limits::Limits;
use limits::answer::Refusal;
use mat::lentmat::{LentMat, mat_sound};

// Question 4.
// Stays (code size): one copy for the four calls.
#[inline(never)]
pub fn is_sound(l: Limits, mat: &LentMat<'_>) -> bool
    ensures { result ≡ sound_device (mat_device l (lent_mat mat.now)) }
{
    limits::sound_limits(l) && mat_sound(l, mat.oldest, mat.next, mat.marks, mat.timers, mat.cells)
}

// The first row of the supply is sent: 4, 6, 10, 11, 12, 28.
pub fn send(
    l: Limits,
    mat: &mut LentMat<'_>,
    supply: &[u16],
    frame: &mut [u8],
) -> Result<usize, Refusal>
    ensures lent { StaysLent mat.old mat.new }
    ensures stays { mat.new.oldest ≡ mat.old.oldest }
    ensures sends { SendCall (mat_device l (lent_mat mat.old)) supply.now frame.old (mat_device l (lent_mat mat.new)) frame.new result }
{
    if !is_sound(l, mat) {
        return Err(Refusal::Unsound);
    }
    if supply.len() % 16 != 0 {
        return Err(Refusal::PartialRow);
    }
    let row = mat.next_row(l, supply)?;
    if frame.len() < 36 {
        return Err(Refusal::ShortBuffer);
    }
    let data = mat.keep(l, row);
    Ok(frame::write_data(l, data, frame))
}

// The kept row oldest + k is sent again: 4, 14, 15, 16, 28.
pub fn resend(
    l: Limits,
    mat: &mut LentMat<'_>,
    k: usize,
    frame: &mut [u8],
) -> Result<usize, Refusal>
    ensures lent { StaysLent mat.old mat.new }
    ensures stays { (mat.new.oldest ≡ mat.old.oldest) × (mat.new.next ≡ mat.old.next) }
    ensures sends { ResendCall (mat_device l (lent_mat mat.old)) k frame.old (mat_device l (lent_mat mat.new)) frame.new result }
{
    if !is_sound(l, mat) {
        return Err(Refusal::Unsound);
    }
    let number = mat.due(l, k)?;
    if frame.len() < 36 {
        return Err(Refusal::ShortBuffer);
    }
    let data = mat.again(l, number);
    Ok(frame::write_data(l, data, frame))
}

// Any bytes arrive: 4, those of the frame, 19. Gives by how many rows oldest rose.
pub fn receive(l: Limits, mat: &mut LentMat<'_>, bytes: &[u8]) -> Result<usize, Refusal>
    ensures lent { StaysLent mat.old mat.new }
    ensures stays { mat.new.next ≡ mat.old.next }
    ensures receives { ReceiveCall (mat_device l (lent_mat mat.old)) bytes.now (mat_device l (lent_mat mat.new)) result }
{
    if !is_sound(l, mat) {
        return Err(Refusal::Unsound);
    }
    let reply = frame::read_reply(l, bytes)?;
    mat.acknowledge(l, reply)
}

// Every resend timer falls by d: 4, 9.
pub fn tick(l: Limits, mat: &mut LentMat<'_>, d: u16) -> Result<(), Refusal>
    ensures lent { StaysLent mat.old mat.new }
    ensures stays { (mat.new.oldest ≡ mat.old.oldest) × (mat.new.next ≡ mat.old.next) }
    ensures ticks { TickCall (mat_device l (lent_mat mat.old)) d (mat_device l (lent_mat mat.new)) result }
{
    if !is_sound(l, mat) {
        return Err(Refusal::Unsound);
    }
    if d == 0 {
        return Err(Refusal::BadArgument);
    }
    mat.tick(l, d);
    Ok(())
}
