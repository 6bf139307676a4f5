// A link opened and run from fresh on lent slices, promised against the unbounded ends but for the account of the air, which they do not keep.
#![tactic(auto)]

ghost use Rattle.ride.specs.Ride.{Rode};

use events::Counts;
use limits::Limits;
use limits::answer::Refusal;

// Opens a link and runs the events on it: 1, 2, 3, then 5, 6, 7.
pub fn ride(
    asked: Limits,
    events: &[u8],
    supply: &[u16],
    record: &mut [u16],
    answers: &mut [u8],
) -> Result<Counts, Refusal>
    ensures { Rode asked events.now supply.now «record».old «record».new
        answers.old answers.new result }
{
    let mut fresh = link::open(asked)?;
    link::run(&mut fresh, events, supply, record, answers)
}
