// Inner: called by exports and cdevices. A link as programs in C keep it, ten numbers and eight arrays: the numbers taken apart and put
// together, and marks, which are numbers in C, as bools.
#![tactic(auto)]

ghost use Rattle.std.specs.Prelude.{◌≡◌, ◌≤◌, ◌<◌, length, map};
ghost use Rattle.clinks.specs.Asked.{capped, asked, limits_or_zeros};
ghost use Rattle.clinks.specs.Links.{is_on, bit, limits_at, numbers_at, limits_list, head_of, numbers_fit};

use events::Numbers;
use limits::Limits;
use limits::answer::Refusal;
use std::array;

// A link that a program in C lends, in the order of its struct.
// Stays (C interface): an array for each part of a place.
#[derive(Drop)]
pub struct LentCLink<'a> {
    pub head: &'a mut [u16; 10],
    pub matmark: &'a mut [u16; 32],
    pub mattimer: &'a mut [u16; 32],
    pub matcell: &'a mut [u16; 512],
    pub padmark: &'a mut [u16; 32],
    pub padtimer: &'a mut [u16; 32],
    pub padcell: &'a mut [u16; 512],
    pub datas: &'a mut [u16; 576],
    pub replies: &'a mut [u16; 96],
}

pub fn marks_of(xs: [u16; 32]) -> [bool; 32]
    ensures { result ≡ map is_on xs }
{
    // Stays (speed): an array's `map` takes some 20 instructions more an element.
    array::from_fn(|k| xs[k] != 0)
}

pub fn bits_of(marks: [bool; 32]) -> [u16; 32]
    ensures { result ≡ map bit marks }
{
    // Stays (speed): as in `marks_of`.
    array::from_fn(|k| u16::from(marks[k]))
}

// The limits are the first five numbers.
pub fn limits_of(h: &[u16]) -> Limits
    requires { 5 ≤ length h.now }
    ensures { result ≡ limits_at h.now }
{
    Limits {
        window: usize::from(h[0]),
        datalife: h[1],
        replylife: h[2],
        replywait: h[3],
        resendwait: h[4],
    }
}

pub fn numbers_of(h: [u16; 10]) -> Numbers
    ensures { result ≡ numbers_at h }
{
    Numbers {
        oldest: usize::from(h[5]),
        next: usize::from(h[6]),
        wanted: usize::from(h[7]),
        datas: usize::from(h[8]),
        replies: usize::from(h[9]),
    }
}

// A limit above 65535 is refused as 65535 is, and a time above it ends every timer, as 65535 does.
pub fn capped(x: u32) -> u16
    ensures { result ≡ capped x }
{
    u16::try_from(x).unwrap_or(u16::MAX)
}

pub fn asked_limits(
    window: u32,
    datalife: u32,
    replylife: u32,
    replywait: u32,
    resendwait: u32,
) -> Limits
    ensures { result ≡ asked window datalife replylife replywait resendwait }
{
    Limits {
        window: usize::from(capped(window)),
        datalife: capped(datalife),
        replylife: capped(replylife),
        replywait: capped(replywait),
        resendwait: capped(resendwait),
    }
}

pub fn limits_or_zeros(opening: Result<Limits, Refusal>) -> Limits
    ensures { result ≡ limits_or_zeros opening }
{
    opening.unwrap_or_default()
}

// Stays (no plainer): `as` narrows a number whose bound is proved, here and below; `try_from` would give an error that cannot be.
pub fn limits_list(l: Limits) -> [u16; 5]
    requires { l.window < 65536 }
    ensures { result ≡ limits_list l }
{
    [
        l.window as u16,
        l.datalife,
        l.replylife,
        l.replywait,
        l.resendwait,
    ]
}

pub fn head_of(l: Limits, n: Numbers) -> [u16; 10]
    requires { numbers_fit l n }
    ensures { result ≡ head_of l n }
{
    let [window, datalife, replylife, replywait, resendwait] = limits_list(l);
    [
        window,
        datalife,
        replylife,
        replywait,
        resendwait,
        n.oldest as u16,
        n.next as u16,
        n.wanted as u16,
        n.datas as u16,
        n.replies as u16,
    ]
}
