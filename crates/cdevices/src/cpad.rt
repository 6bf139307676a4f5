// The calls of a pad.
ghost use Rattle.std.specs.Prelude.{◌≡◌, ◌<◌, ◌∷◌, [], map};
ghost use Rattle.clinks.specs.Links.{bit};
ghost use Rattle.cdevices.specs.Devices.{cdevice, cpad_of, PadStays};
ghost use Rattle.cdevices.specs.Calls.{PadOpen, PadReceive, PadReply, PadTick};

use devices::{Recorded, lentpad};
use limits::Limits;
use pad::lentpad::LentPad;

// A pad that a program in C lends, in the order of its struct.
// Stays (C interface): an array for each part of a place.
#[derive(Drop)]
pub struct LentCPad<'a> {
    pub limits: &'a [u16; 5],
    pub numbers: &'a mut [u16; 1],
    pub mark: &'a mut [u16; 32],
    pub timer: &'a mut [u16; 32],
    pub cell: &'a mut [u16; 512],
}

// The pad that is kept, its arrays lent where they are.
macro_rules! lend {
    ($pad:expr, $held:expr) => {
        LentPad {
            wanted: usize::from($pad.numbers[0]),
            held: &mut $held,
            timers: &mut *$pad.timer,
            cells: &mut *$pad.cell,
        }
    };
}

// The number and the marks that a call left, where the pad keeps them.
// Stays (no plainer): `as` narrows a number whose bound is proved; `try_from` would give an error that cannot be.
fn write_back(pad: &mut LentCPad<'_>, wanted: usize, held: [bool; 32])
    requires { wanted < 65536 }
    ensures lent { PadStays pad.old pad.new }
    ensures kept { cpad_of pad.new ≡ cdevice pad.old.limits.now (wanted ∷ []) (map bit held) pad.old.timer.now pad.old.cell.now }
{
    *pad.numbers = [wanted as u16];
    *pad.mark = clinks::bits_of(held);
}

// Opens a pad: 1, 2, 3. A refusal stores a pad of zeros.
// Stays (C interface): the parts of the struct are handed over one by one, the limits to be written.
pub fn open(
    limits: &mut [u16; 5],
    numbers: &mut [u16; 1],
    mark: &mut [u16; 32],
    timer: &mut [u16; 32],
    cell: &mut [u16; 512],
    asked: Limits,
) -> u8
    ensures { PadOpen asked (cdevice limits.new numbers.new mark.new timer.new cell.new) result }
{
    let opening = limits::accept(asked);
    *limits = clinks::limits_list(clinks::limits_or_zeros(opening));
    *numbers = [0];
    *mark = [0; 32];
    *timer = [0; 32];
    *cell = [0; 512];
    limits::answer::number(&opening)
}

// Any bytes arrive: 4, those of the frame, and for an old row 28. `written` gets the bytes of the reply frame, or 0.
// Stays (C interface): the number and the counts go out apart, here and below.
pub fn receive(pad: &mut LentCPad<'_>, frame: &[u8], reply: &mut [u8], written: &mut usize) -> u8
    ensures lent { PadStays pad.old pad.new }
    ensures receives { PadReceive frame.now reply.old reply.new written.new (cpad_of pad.old) (cpad_of pad.new) result }
{
    let limits = pad.limits;
    let mut held = clinks::marks_of(*pad.mark);
    let mut lent = lend!(pad, held);
    let answer = lentpad::receive(clinks::limits_of(limits), &mut lent, frame, reply);
    let wanted = lent.wanted;
    if answer.is_ok() {
        write_back(pad, wanted, held);
    }
    *written = answer.unwrap_or(0);
    limits::answer::number(&answer)
}

// The run of rows at wanted is recorded and replied to: 4, 20, 21, 28. `rows` and `written` get the rows and the bytes, or 0.
pub fn reply(
    pad: &mut LentCPad<'_>,
    record: &mut [u16],
    reply: &mut [u8],
    rows: &mut usize,
    written: &mut usize,
) -> u8
    ensures lent { PadStays pad.old pad.new }
    ensures replies { PadReply «record».old «record».new reply.old reply.new rows.new written.new (cpad_of pad.old) (cpad_of pad.new) result }
{
    let limits = pad.limits;
    let mut held = clinks::marks_of(*pad.mark);
    let mut lent = lend!(pad, held);
    let answer = lentpad::reply(clinks::limits_of(limits), &mut lent, record, reply);
    let wanted = lent.wanted;
    if answer.is_ok() {
        write_back(pad, wanted, held);
    }
    let done = answer.unwrap_or(Recorded {
        rows: 0,
        written: 0,
    });
    *rows = done.rows;
    *written = done.written;
    limits::answer::number(&answer)
}

// Every reply timer falls by d: 4, 9.
pub fn tick(pad: &mut LentCPad<'_>, d: u32) -> u8
    ensures lent { PadStays pad.old pad.new }
    ensures ticks { PadTick d (cpad_of pad.old) (cpad_of pad.new) result }
{
    let limits = pad.limits;
    let mut held = clinks::marks_of(*pad.mark);
    let mut lent = lend!(pad, held);
    let answer = lentpad::tick(clinks::limits_of(limits), &mut lent, clinks::capped(d));
    let wanted = lent.wanted;
    if answer.is_ok() {
        write_back(pad, wanted, held);
    }
    limits::answer::number(&answer)
}
