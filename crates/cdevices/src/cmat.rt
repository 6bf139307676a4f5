// The calls of a mat.
ghost use Rattle.std.specs.Prelude.{◌≡◌, ◌<◌, ◌∷◌, [], map};
ghost use Rattle.clinks.specs.Links.{bit};
ghost use Rattle.cdevices.specs.Devices.{cdevice, cmat_of, MatStays};
ghost use Rattle.cdevices.specs.Calls.{MatOpen, MatSend, MatResend, MatReceive, MatTick};

use devices::lentmat;
use limits::Limits;
use mat::lentmat::LentMat;

// A mat that a program in C lends, in the order of its struct.
// Stays (C interface): an array for each part of a place.
#[derive(Drop)]
pub struct LentCMat<'a> {
    pub limits: &'a [u16; 5],
    pub numbers: &'a mut [u16; 2],
    pub mark: &'a mut [u16; 32],
    pub timer: &'a mut [u16; 32],
    pub cell: &'a mut [u16; 512],
}

// The mat that is kept, its arrays lent where they are.
macro_rules! lend {
    ($mat:expr, $marks:expr) => {
        LentMat {
            oldest: usize::from($mat.numbers[0]),
            next: usize::from($mat.numbers[1]),
            marks: &mut $marks,
            timers: &mut *$mat.timer,
            cells: &mut *$mat.cell,
        }
    };
}

// The numbers and the marks that a call left, where the mat keeps them.
// Stays (no plainer): each `as` narrows a number whose bound is proved; `try_from` would give an error that cannot be.
fn write_back(mat: &mut LentCMat<'_>, oldest: usize, next: usize, marks: [bool; 32])
    requires { (oldest < 65536) × (next < 65536) }
    ensures lent { MatStays mat.old mat.new }
    ensures kept { cmat_of mat.new ≡ cdevice mat.old.limits.now (oldest ∷ next ∷ []) (map bit marks) mat.old.timer.now mat.old.cell.now }
{
    *mat.numbers = [oldest as u16, next as u16];
    *mat.mark = clinks::bits_of(marks);
}

// Opens a mat: 1, 2, 3. A refusal stores a mat of zeros.
// Stays (C interface): the parts of the struct are handed over one by one, the limits to be written.
pub fn open(
    limits: &mut [u16; 5],
    numbers: &mut [u16; 2],
    mark: &mut [u16; 32],
    timer: &mut [u16; 32],
    cell: &mut [u16; 512],
    asked: Limits,
) -> u8
    ensures { MatOpen asked (cdevice limits.new numbers.new mark.new timer.new cell.new) result }
{
    let opening = limits::accept(asked);
    *limits = clinks::limits_list(clinks::limits_or_zeros(opening));
    *numbers = [0; 2];
    *mark = [0; 32];
    *timer = [0; 32];
    *cell = [0; 512];
    limits::answer::number(&opening)
}

// The first row of the supply is sent: 4, 6, 10, 11, 12, 28. `written` gets the bytes of its frame, or 0.
// Stays (C interface): the number and the count go out apart, here and below.
pub fn send(mat: &mut LentCMat<'_>, supply: &[u16], frame: &mut [u8], written: &mut usize) -> u8
    ensures lent { MatStays mat.old mat.new }
    ensures sends { MatSend supply.now frame.old frame.new written.new (cmat_of mat.old) (cmat_of mat.new) result }
{
    let limits = mat.limits;
    let mut marks = clinks::marks_of(*mat.mark);
    let mut lent = lend!(mat, marks);
    let answer = lentmat::send(clinks::limits_of(limits), &mut lent, supply, frame);
    let LentMat { oldest, next, .. } = lent;
    if answer.is_ok() {
        write_back(mat, oldest, next, marks);
    }
    *written = answer.unwrap_or(0);
    limits::answer::number(&answer)
}

// The kept row oldest + k is sent again: 4, 14, 15, 16, 28. `written` gets the bytes of its frame, or 0.
pub fn resend(mat: &mut LentCMat<'_>, k: u32, frame: &mut [u8], written: &mut usize) -> u8
    ensures lent { MatStays mat.old mat.new }
    ensures sends { MatResend k frame.old frame.new written.new (cmat_of mat.old) (cmat_of mat.new) result }
{
    let limits = mat.limits;
    let mut marks = clinks::marks_of(*mat.mark);
    let mut lent = lend!(mat, marks);
    // Stays (no plainer): std has no From between u32 and usize, of which usize is the wider one here.
    let answer = lentmat::resend(clinks::limits_of(limits), &mut lent, k as usize, frame);
    let LentMat { oldest, next, .. } = lent;
    if answer.is_ok() {
        write_back(mat, oldest, next, marks);
    }
    *written = answer.unwrap_or(0);
    limits::answer::number(&answer)
}

// Any bytes arrive: 4, those of the frame, 19. `acknowledged` gets by how many rows oldest rose, or 0.
pub fn receive(mat: &mut LentCMat<'_>, frame: &[u8], acknowledged: &mut usize) -> u8
    ensures lent { MatStays mat.old mat.new }
    ensures receives { MatReceive frame.now acknowledged.new (cmat_of mat.old) (cmat_of mat.new) result }
{
    let limits = mat.limits;
    let mut marks = clinks::marks_of(*mat.mark);
    let mut lent = lend!(mat, marks);
    let answer = lentmat::receive(clinks::limits_of(limits), &mut lent, frame);
    let LentMat { oldest, next, .. } = lent;
    if answer.is_ok() {
        write_back(mat, oldest, next, marks);
    }
    *acknowledged = answer.unwrap_or(0);
    limits::answer::number(&answer)
}

// Every resend timer falls by d: 4, 9.
pub fn tick(mat: &mut LentCMat<'_>, d: u32) -> u8
    ensures lent { MatStays mat.old mat.new }
    ensures ticks { MatTick d (cmat_of mat.old) (cmat_of mat.new) result }
{
    let limits = mat.limits;
    let mut marks = clinks::marks_of(*mat.mark);
    let mut lent = lend!(mat, marks);
    let answer = lentmat::tick(clinks::limits_of(limits), &mut lent, clinks::capped(d));
    let LentMat { oldest, next, .. } = lent;
    if answer.is_ok() {
        write_back(mat, oldest, next, marks);
    }
    limits::answer::number(&answer)
}
