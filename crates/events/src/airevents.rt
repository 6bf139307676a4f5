// Inner: called by `act` (event). The events of the air: a message is lost, time passes. The link passed question 4.
ghost use Rattle.std.specs.Prelude.{◌≡◌, true, List, ℕ, ◌≤◌, Ok};
ghost use Rattle.limits.specs.Limits.{sound_limits};
ghost use Rattle.limits.specs.Events.{lose_data, lose_reply, tick};
ghost use Rattle.events.specs.View.{sound_link, HasRoom, Counted};
ghost use Rattle.events.specs.Lent.{lent_link, StaysLent};

use crate::{Counts, LentLink};
use air::lent::LentTable;
use limits::answer::Refusal;
use limits::messages::{Data, Reply};
use mat::lentmat::LentMat;
use pad::lentpad::LentPad;
use std::marker::PhantomData;

// Inlined, as `event` says, but for a tick.
impl LentLink<'_> {
    // Message p leaves the data table: 17.
    // Stays (no plainer): this event and the next are two of document 01, each with a table of its own.
    #[inline(always)]
    pub fn lose_data(&mut self, p: usize, counts: &mut Counts) -> Result<(), Refusal>
        requires { (self.old.numbers.datas ≤ 32) × HasRoom counts.old }
        ensures lent { StaysLent self.old self.new }
        ensures untouched { (self.new.marks.now ≡ self.old.marks.now) × (self.new.mattimers.now ≡ self.old.mattimers.now)
            × (self.new.matcells.now ≡ self.old.matcells.now) × (self.new.held.now ≡ self.old.held.now)
            × (self.new.padtimers.now ≡ self.old.padtimers.now) × (self.new.padcells.now ≡ self.old.padcells.now)
            × (self.new.replies.now ≡ self.old.replies.now) }
        ensures counted { sound_link (lent_link self.old) ≡ true
            → (supply b : List ℕ) → Counted (lent_link self.old) supply b b counts.old (lose_data p) (lent_link self.new) counts.new result }
    {
        if self.numbers.datas <= p {
            return Err(Refusal::NoMessage);
        }
        let mut datas = lend_datas!(self);
        datas.remove(p);
        self.numbers.datas = datas.count;
        counts.datas.lost += 1;
        Ok(())
    }

    // Message p leaves the reply table: 17.
    #[inline(always)]
    pub fn lose_reply(&mut self, p: usize, counts: &mut Counts) -> Result<(), Refusal>
        requires { (self.old.numbers.replies ≤ 32) × HasRoom counts.old }
        ensures lent { StaysLent self.old self.new }
        ensures untouched { (self.new.marks.now ≡ self.old.marks.now) × (self.new.mattimers.now ≡ self.old.mattimers.now)
            × (self.new.matcells.now ≡ self.old.matcells.now) × (self.new.held.now ≡ self.old.held.now)
            × (self.new.padtimers.now ≡ self.old.padtimers.now) × (self.new.padcells.now ≡ self.old.padcells.now)
            × (self.new.datas.now ≡ self.old.datas.now) }
        ensures counted { sound_link (lent_link self.old) ≡ true
            → (supply b : List ℕ) → Counted (lent_link self.old) supply b b counts.old (lose_reply p) (lent_link self.new) counts.new result }
    {
        if self.numbers.replies <= p {
            return Err(Refusal::NoMessage);
        }
        let mut replies = lend_replies!(self);
        replies.remove(p);
        self.numbers.replies = replies.count;
        counts.replies.lost += 1;
        Ok(())
    }

    // Time passes by d ticks.
    pub fn tick(&mut self, d: u16, counts: &mut Counts)
        requires { (sound_limits self.old.limits ≡ true) × (self.old.numbers.datas ≤ 32) × (self.old.numbers.replies ≤ 32) × HasRoom counts.old }
        ensures lent { StaysLent self.old self.new }
        ensures untouched { (self.new.marks.now ≡ self.old.marks.now) × (self.new.matcells.now ≡ self.old.matcells.now)
            × (self.new.held.now ≡ self.old.held.now) × (self.new.padcells.now ≡ self.old.padcells.now) }
        ensures counted { sound_link (lent_link self.old) ≡ true
            → (supply b : List ℕ) → Counted (lent_link self.old) supply b b counts.old (tick d) (lent_link self.new) counts.new (Ok (tt {0})) }
    {
        lend_mat!(self).tick(self.limits, d);
        lend_pad!(self).tick(self.limits, d);
        let mut datas = lend_datas!(self);
        counts.datas.dropped += datas.age(d);
        self.numbers.datas = datas.count;
        let mut aged = lend_replies!(self);
        counts.replies.dropped += aged.age(d);
        self.numbers.replies = aged.count;
    }
}
