// Question 4 by itself.
use air::table::{DataTable, ReplyTable};
use limits::answer::Refusal;
use mat::Mat;
use pad::Pad;
use std::io;
use tries::line;

fn sound(rt: &impl Print, what: &[u8], passes: bool) -> io::Result<()> {
    let answer = if passes {
        Ok(())
    } else {
        Err(Refusal::Unsound)
    };
    line(rt, what, answer)
}

fn sound_limits(rt: &impl Print) -> io::Result<()> {
    sound(rt, b"limits", limits::sound_limits(tries::of(2, 1, 4)))?;
    sound(
        rt,
        b"limits, w 33",
        limits::sound_limits(tries::of(33, 1, 4)),
    )?;
    sound(
        rt,
        b"limits, wait 0",
        limits::sound_limits(tries::of(2, 1, 0)),
    )
}

// Tables whose every word is 1.
fn sound_tables(rt: &impl Print) -> io::Result<()> {
    let l = tries::of(2, 1, 4);
    sound(
        rt,
        b"data table, 32 messages",
        DataTable::assembled(32, [1; 576]).is_sound(l),
    )?;
    sound(
        rt,
        b"data table, count 33",
        DataTable::assembled(33, [1; 576]).is_sound(l),
    )?;
    sound(
        rt,
        b"reply table, 32 messages",
        ReplyTable::assembled(32, [1; 96]).is_sound(l),
    )?;
    sound(
        rt,
        b"reply table, count largest",
        ReplyTable::assembled(18446744073709551615, [1; 96]).is_sound(l),
    )
}

fn sound_ends(rt: &impl Print) -> io::Result<()> {
    let l = tries::of(2, 1, 4);
    sound(rt, b"mat", Mat::fresh().is_sound(l))?;
    let mut m = Mat::fresh();
    m.next = 4;
    sound(rt, b"mat, next 2w", m.is_sound(l))?;
    m = Mat::fresh();
    m.marks[0] = true;
    sound(rt, b"mat, oldest marked", m.is_sound(l))?;
    sound(rt, b"pad", Pad::fresh().is_sound(l))?;
    let mut p = Pad::fresh();
    p.timers[1] = 2;
    sound(rt, b"pad, timer above its wait", p.is_sound(l))
}

pub fn tries(rt: &impl Print) -> io::Result<()> {
    sound_limits(rt)?;
    sound_tables(rt)?;
    sound_ends(rt)
}
