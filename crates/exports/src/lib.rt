// The calls for programs in C, which keep a link as ten numbers and eight arrays and lend these to each call. What is lent changes
// in place; of the state only the marks are copied, which are numbers in C.
#![tactic(auto)]

ghost use Rattle.std.specs.Prelude.{◌≡◌};
ghost use Rattle.limits.specs.Answer.{number_of};
ghost use Rattle.events.specs.Counts.{risen};
ghost use Rattle.clinks.specs.Links.{clink_of, StaysLent, numbers_fit, written};
ghost use Rattle.exports.specs.Calls.{kind_of, counts_list, OpenCall, StepCall, RunCall, RideCall};

pub mod cpage;

use clinks::LentCLink;
use events::{Counts, LentLink, Numbers};
use limits::Limits;
use limits::answer::Refusal;

// Opens a link: 1, 2, 3. A refusal stores a link of zeros.
pub fn open(link: &mut LentCLink<'_>, asked: Limits) -> u8
    ensures lent { StaysLent link.old link.new }
    ensures opened { OpenCall asked (clink_of link.new) result }
{
    let opening = limits::accept(asked);
    *link.head = clinks::head_of(clinks::limits_or_zeros(opening), Numbers::default());
    *link.matmark = [0; 32];
    *link.mattimer = [0; 32];
    *link.matcell = [0; 512];
    *link.padmark = [0; 32];
    *link.padtimer = [0; 32];
    *link.padcell = [0; 512];
    *link.datas = [0; 576];
    *link.replies = [0; 96];
    limits::answer::number(&opening)
}

// A kind or an argument above 255 is no byte: the event is then of the unknown kind 0.
fn kind_byte(kind: u32, argument: u32) -> u8
    ensures { result ≡ kind_of kind argument }
{
    if argument <= 255 {
        u8::try_from(kind).unwrap_or(0)
    } else {
        0
    }
}

// The link that is kept, its arrays lent where they are.
macro_rules! lend {
    ($link:expr, $marks:expr, $held:expr) => {
        LentLink {
            limits: clinks::limits_of(&*$link.head),
            numbers: clinks::numbers_of(*$link.head),
            marks: &mut $marks,
            mattimers: &mut *$link.mattimer,
            matcells: &mut *$link.matcell,
            held: &mut $held,
            padtimers: &mut *$link.padtimer,
            padcells: &mut *$link.padcell,
            datas: &mut *$link.datas,
            replies: &mut *$link.replies,
        }
    };
}

// The numbers and the marks that a call left, where the link keeps them.
// Stays (C interface): the marks of mat and pad are arrays, as in the C struct.
fn write_back(
    link: &mut LentCLink<'_>,
    limits: Limits,
    numbers: Numbers,
    marks: [bool; 32],
    held: [bool; 32],
)
    requires { numbers_fit limits numbers }
    ensures lent { StaysLent link.old link.new }
    ensures kept { clink_of link.new ≡ written (clink_of link.old) limits numbers marks held }
{
    *link.head = clinks::head_of(limits, numbers);
    *link.matmark = clinks::bits_of(marks);
    *link.padmark = clinks::bits_of(held);
}

// The counts as C has them: rows sent, acknowledged and recorded, and of each table, data and replies, the messages put, arrived, lost
// and dropped.
pub type CCounts = [usize; 11];

// The counts of an answer, and its number.
fn told(answer: Result<Counts, Refusal>, counts: &mut CCounts) -> u8
    ensures { (counts.new ≡ counts_list (risen answer)) × (result ≡ number_of answer) }
{
    let n = answer.unwrap_or_default();
    let (d, r) = (n.datas, n.replies);
    *counts = [
        n.sent,
        n.acknowledged,
        n.recorded,
        d.put,
        d.arrived,
        d.lost,
        d.dropped,
        r.put,
        r.arrived,
        r.lost,
        r.dropped,
    ];
    limits::answer::number(&answer)
}

// One event: 4, 6, then the event's questions. The counts are written always, the link where the answer is 0.
// Stays (C interface): kind, argument, buffers and counts are handed over one by one, here and in the two below.
pub fn step(
    link: &mut LentCLink<'_>,
    kind: u32,
    argument: u32,
    supply: &[u16],
    record: &mut [u16],
    counts: &mut CCounts,
) -> u8
    ensures lent { StaysLent link.old link.new }
    ensures stepped { StepCall kind argument supply.now «record».old «record».new (clink_of link.old) (clink_of link.new) counts.new result }
{
    let mut marks = clinks::marks_of(*link.matmark);
    let mut held = clinks::marks_of(*link.padmark);
    let mut lent = lend!(link, marks, held);
    let answer = runs::step(
        &mut lent,
        kind_byte(kind, argument),
        // Stays (no plainer): the argument is taken modulo 256, as the promise says.
        (argument % 256) as u8,
        supply,
        record,
    );
    let LentLink {
        limits,
        numbers,
        ..
    } = lent;
    if answer.is_ok() {
        write_back(link, limits, numbers, marks, held);
    }
    told(answer, counts)
}

// A run: 4, 5, 6, 7. The counts are written always, the link where the answer is 0.
pub fn run(
    link: &mut LentCLink<'_>,
    events: &[u8],
    supply: &[u16],
    record: &mut [u16],
    answers: &mut [u8],
    counts: &mut CCounts,
) -> u8
    ensures lent { StaysLent link.old link.new }
    ensures ran { RunCall events.now supply.now «record».old «record».new answers.old answers.new
        (clink_of link.old) (clink_of link.new) counts.new result }
{
    let mut marks = clinks::marks_of(*link.matmark);
    let mut held = clinks::marks_of(*link.padmark);
    let mut lent = lend!(link, marks, held);
    let answer = runs::run(&mut lent, events, supply, record, answers);
    let LentLink {
        limits,
        numbers,
        ..
    } = lent;
    if answer.is_ok() {
        write_back(link, limits, numbers, marks, held);
    }
    told(answer, counts)
}

// A link opened and run from fresh: 1, 2, 3, 5, 6, 7. The counts are written always.
pub fn ride(
    asked: Limits,
    events: &[u8],
    supply: &[u16],
    record: &mut [u16],
    answers: &mut [u8],
    counts: &mut CCounts,
) -> u8
    ensures { RideCall asked events.now supply.now «record».old «record».new answers.old answers.new counts.new result }
{
    told(ride::ride(asked, events, supply, record, answers), counts)
}
