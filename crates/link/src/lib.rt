// The link: opening, the call for one event, and the run.
#![tactic(auto)]

ghost use Rattle.std.specs.Prelude.{◌≡◌};
ghost use Rattle.events.specs.View.{sound_link};
ghost use Rattle.runs.specs.View.{Stepped, Ran};
ghost use Rattle.link.specs.View.{fresh_link, renumbered, Opened};

use air::table::{DataTable, ReplyTable};
use events::{Counts, LentLink, Link, Numbers};
use limits::Limits;
use limits::answer::Refusal;
use mat::Mat;
use pad::Pad;

// A link's parts, its arrays lent where they are.
macro_rules! lend {
    ($k:expr) => {{
        let (oldest, next, marks, mattimers, matcells) = mat::mat_parts!($k.mat);
        let (wanted, held, padtimers, padcells) = pad::pad_parts!($k.pad);
        let (datas_count, datas) = air::table_parts!($k.datas);
        let (replies_count, replies) = air::table_parts!($k.replies);
        LentLink {
            limits: $k.limits,
            numbers: Numbers {
                oldest,
                next,
                wanted,
                datas: datas_count,
                replies: replies_count,
            },
            marks,
            mattimers,
            matcells,
            held,
            padtimers,
            padcells,
            datas,
            replies,
        }
    }};
}

fn fresh(limits: Limits) -> Link
    ensures { result ≡ fresh_link limits }
{
    Link {
        limits,
        mat: Mat::fresh(),
        pad: Pad::fresh(),
        datas: DataTable::empty(),
        replies: ReplyTable::empty(),
    }
}

// A link with the limits asked for: 1, 2, 3.
pub fn open(asked: Limits) -> Result<Link, Refusal>
    ensures { Opened asked result }
{
    let accepted = limits::accept(asked)?;
    Ok(fresh(accepted))
}

// Question 4.
// Stays (no plainer): the link is handed over by value, since one that is only looked at lends nothing.
pub fn sound(k: Link) -> bool
    ensures { result ≡ sound_link k }
{
    let mut k = k;
    runs::is_sound(&lend!(k))
}

// The numbers that a call left, where a link keeps them.
fn renumber(k: &mut Link, n: Numbers)
    ensures { k.new ≡ renumbered k.old n }
{
    k.mat.renumber(n.oldest, n.next);
    k.pad.renumber(n.wanted);
    k.datas.recount(n.datas);
    k.replies.recount(n.replies);
}

// The call for one event: 4, 6, then the event's questions.
// Stays (no plainer): this and `run` are two calls with other arguments, between the same two lines.
pub fn step(
    k: &mut Link,
    kind: u8,
    argument: u8,
    supply: &[u16],
    record: &mut [u16],
) -> Result<Counts, Refusal>
    ensures { Stepped k.old kind argument supply.now «record».old «record».new k.new result }
{
    let mut lent = lend!(k);
    let result = runs::step(&mut lent, kind, argument, supply, record);
    let numbers = lent.numbers;
    renumber(k, numbers);
    result
}

// The events in order, two bytes each: 4, 5, 6, 7. One answer byte for each event.
pub fn run(
    k: &mut Link,
    events: &[u8],
    supply: &[u16],
    record: &mut [u16],
    answers: &mut [u8],
) -> Result<Counts, Refusal>
    ensures { Ran k.old events.now supply.now «record».old «record».new answers.old answers.new k.new result }
{
    let mut lent = lend!(k);
    let result = runs::run(&mut lent, events, supply, record, answers);
    let numbers = lent.numbers;
    renumber(k, numbers);
    result
}
