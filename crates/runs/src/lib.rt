// Inner: called by the link's calls and by the functions for C. Question 4, the call for one event and the run, of a link whose
// arrays are lent. The arrays change in place; a refused call leaves them as they are.
#![tactic(auto)]

ghost use Rattle.std.specs.Prelude.{◌≡◌};
ghost use Rattle.limits.specs.Answer.{number_of};
ghost use Rattle.limits.specs.Questions.{first_no};
ghost use Rattle.events.specs.View.{sound_link};
ghost use Rattle.events.specs.Lent.{link_of, lent_link, StaysLent};
ghost use Rattle.runs.specs.View.{lent_asks, Stepped, Ran};

use air::lent;
use events::{Counts, LentLink, Numbers};
use limits::Limits;
use limits::answer::Refusal;
use limits::messages::{Data, Reply};
use mat::lentmat;
use pad::lentpad;

// Question 4, of the parts one by one: a link that is only looked at lends nothing.
// Stays (speed): inlined, as `mat_sound` and `pad_sound` that it asks.
#[inline(always)]
pub fn parts_sound(
    l: Limits,
    n: Numbers,
    marks: &[bool; 32],
    mattimers: &[u16; 32],
    matcells: &[u16; 512],
    held: &[bool; 32],
    padtimers: &[u16; 32],
    padcells: &[u16; 512],
    datas: &[u16; 576],
    replies: &[u16; 96],
) -> bool
    ensures { result ≡ sound_link (link_of l n marks.now mattimers.now matcells.now held.now padtimers.now padcells.now datas.now replies.now) }
{
    limits::sound_limits(l)
        && (lentmat::mat_sound(l, n.oldest, n.next, marks, mattimers, matcells)
            && (lentpad::pad_sound(l, n.wanted, held, padtimers, padcells)
                && (lent::table_sound::<Data>(l, n.datas, datas)
                    && lent::table_sound::<Reply>(l, n.replies, replies))))
}

// Question 4.
pub fn is_sound(link: &LentLink<'_>) -> bool
    ensures { result ≡ sound_link (lent_link link.now) }
{
    parts_sound(
        link.limits,
        link.numbers,
        link.marks,
        link.mattimers,
        link.matcells,
        link.held,
        link.padtimers,
        link.padcells,
        link.datas,
        link.replies,
    )
}

// The call for one event: 4, 6, then the event's questions.
pub fn step(
    link: &mut LentLink<'_>,
    kind: u8,
    argument: u8,
    supply: &[u16],
    record: &mut [u16],
) -> Result<Counts, Refusal>
    ensures lent { StaysLent link.old link.new }
    ensures stepped { Stepped (lent_link link.old) kind argument supply.now «record».old «record».new (lent_link link.new) result }
{
    if !is_sound(link) {
        return Err(Refusal::Unsound);
    }
    if supply.len() % 16 != 0 {
        return Err(Refusal::PartialRow);
    }
    let mut counts = Counts::default();
    link.event(kind, argument, supply, record, &mut counts)?;
    Ok(counts)
}

// What is lent to a run, by its lengths: 5, 6, 7.
fn lent_fits(events: usize, supply: usize, answers: usize) -> Result<(), Refusal>
    ensures { number_of result ≡ first_no (lent_asks events supply answers) }
{
    if events % 2 != 0 {
        return Err(Refusal::OddEvents);
    }
    if supply % 16 != 0 {
        return Err(Refusal::PartialRow);
    }
    if answers < events / 2 {
        return Err(Refusal::ShortAnswers);
    }
    Ok(())
}

// The events in order: 4, 5, 6, 7. One answer byte for each event.
pub fn run(
    link: &mut LentLink<'_>,
    events: &[u8],
    supply: &[u16],
    record: &mut [u16],
    answers: &mut [u8],
) -> Result<Counts, Refusal>
    ensures lent { StaysLent link.old link.new }
    ensures ran { Ran (lent_link link.old) events.now supply.now «record».old «record».new answers.old answers.new (lent_link link.new) result }
{
    if !is_sound(link) {
        return Err(Refusal::Unsound);
    }
    lent_fits(events.len(), supply.len(), answers.len())?;
    Ok(lists::run_events(link, events, supply, record, answers))
}
