// Inner: called by lists. An event as its two bytes say it, and what a link does at it.
ghost use Rattle.std.specs.Prelude.{◌≡◌, true};
ghost use Rattle.limits.specs.Events.{event};
ghost use Rattle.events.specs.View.{sound_link, Counted, HasRoom};
ghost use Rattle.events.specs.Lent.{lent_link, StaysLent, event_of, ReadAs};

use crate::{Counts, LentLink};
use limits::answer::Refusal;

// Messages and outstanding rows are counted from the oldest, which is 0.
#[derive(Clone, Copy)]
pub enum Event {
    Send,
    Resend(usize),
    ArriveData(usize),
    Reply,
    ArriveReply(usize),
    LoseData(usize),
    LoseReply(usize),
    Tick(u16),
}

impl Event {
    // The event of a kind and an argument: 8, 9.
    // Stays (no plainer): any two bytes may be asked for, here and in the calls above; which event they are is asked here.
    #[inline(always)]
    pub fn read(kind: u8, argument: u8) -> Result<Event, Refusal>
        ensures { ReadAs kind argument result }
    {
        let p = usize::from(argument);
        match kind {
            1 if argument == 0 => Ok(Event::Send),
            2 => Ok(Event::Resend(p)),
            3 => Ok(Event::ArriveData(p)),
            4 if argument == 0 => Ok(Event::Reply),
            5 => Ok(Event::ArriveReply(p)),
            6 => Ok(Event::LoseData(p)),
            7 => Ok(Event::LoseReply(p)),
            8 if argument != 0 => Ok(Event::Tick(u16::from(argument))),
            1 | 4 | 8 => Err(Refusal::BadArgument),
            _ => Err(Refusal::UnknownKind),
        }
    }
}

impl LentLink<'_> {
    // The questions of the event's kind, and what it does.
    #[inline(always)]
    fn act(
        &mut self,
        event: Event,
        supply: &[u16],
        record: &mut [u16],
        counts: &mut Counts,
    ) -> Result<(), Refusal>
        requires { (sound_link (lent_link self.old) ≡ true) × HasRoom counts.old }
        ensures lent { StaysLent self.old self.new }
        ensures counted { Counted (lent_link self.old) supply.now «record».old «record».new counts.old (event_of event) (lent_link self.new) counts.new result }
    {
        match event {
            Event::Send => self.send(supply, counts),
            Event::Resend(k) => self.resend(k, counts),
            Event::ArriveData(p) => self.arrive_data(p, counts),
            Event::Reply => self.reply(record, counts),
            Event::ArriveReply(p) => self.arrive_reply(p, counts),
            Event::LoseData(p) => self.lose_data(p, counts),
            Event::LoseReply(p) => self.lose_reply(p, counts),
            Event::Tick(d) => {
                self.tick(d, counts);
                Ok(())
            }
        }
    }

    // An event of two bytes: 8, 9, then the questions of its kind.
    // Stays (speed): inlined, with all that an event does but a tick, into the two that call it, the run's loop and the call for one
    // event. As one function of both it costs a refused event of a run two to four times as much, and one that is done a fifth to two
    // fifths more.
    #[inline(always)]
    pub fn event(
        &mut self,
        kind: u8,
        argument: u8,
        supply: &[u16],
        record: &mut [u16],
        counts: &mut Counts,
    ) -> Result<(), Refusal>
        requires { (sound_link (lent_link self.old) ≡ true) × HasRoom counts.old }
        ensures lent { StaysLent self.old self.new }
        ensures counted { Counted (lent_link self.old) supply.now «record».old «record».new counts.old (event kind argument) (lent_link self.new) counts.new result }
    {
        let event = Event::read(kind, argument)?;
        self.act(event, supply, record, counts)
    }
}
