// Inner: called by runs. A list of events, two bytes each, of a link that passed question 4 and whose arrays are lent.
#![tactic(auto)]

ghost use Rattle.std.specs.Prelude.{◌≡◌, true, ◌/◌, ◌%◌, ◌≤◌, length, take};
ghost use Rattle.limits.specs.Lists.{all};
ghost use Rattle.events.specs.View.{sound_link, link_state};
ghost use Rattle.events.specs.Lent.{lent_link, StaysLent};
ghost use Rattle.lists.specs.View.{refuses, running};

use events::{Counts, LentLink};

// Every event in order, each on the unsent rest of the supply and the unwritten rest of the record. Where every event was
// refused, the link is as it was.
pub fn run_events(
    link: &mut LentLink<'_>,
    events: &[u8],
    supply: &[u16],
    record: &mut [u16],
    answers: &mut [u8],
) -> Counts
    requires { (sound_link (lent_link link.old) ≡ true) × (length events.now % 2 ≡ 0) × (length events.now / 2 ≤ length answers.old) }
    ensures lent { StaysLent link.old link.new }
    ensures sound { sound_link (lent_link link.new) ≡ true }
    ensures ran { record { state = link_state (lent_link link.new); counts = result; buffer = «record».new; answers = answers.new }
        ≡ running (lent_link link.old) events.now supply.now «record».old answers.old }
    ensures still { all refuses (take (length events.now / 2) answers.new) ≡ true → lent_link link.new ≡ lent_link link.old }
{
    let mut counts = Counts::default();
    for i in 0..events.len() / 2 {
        let answer = link.event(
            events[2 * i],
            events[2 * i + 1],
            &supply[16 * counts.sent..],
            &mut record[16 * counts.recorded..],
            &mut counts,
        );
        answers[i] = limits::answer::number(&answer);
    }
    counts
}
