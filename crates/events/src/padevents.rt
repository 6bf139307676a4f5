// Inner: called by `act` (event). The events at the pad: data arrives, a reply for the run at wanted. The link passed
// question 4.
ghost use Rattle.std.specs.Prelude.{◌≡◌, true, List, ℕ, ◌*◌, ◌<◌};
ghost use Rattle.limits.specs.Limits.{sound_limits};
ghost use Rattle.limits.specs.Events.{arrive_data, reply};
ghost use Rattle.pad.specs.View.{sound_pad};
ghost use Rattle.air.specs.Data.{sound_data_table};
ghost use Rattle.air.specs.Replies.{sound_reply_table};
ghost use Rattle.events.specs.View.{sound_link, HasRoom, Counted};
ghost use Rattle.events.specs.Lent.{lent_link, StaysLent, OldTaken};

use crate::{Counts, LentLink};
use air::lent::LentTable;
use limits::answer::Refusal;
use limits::messages::{Data, Reply};
use pad::lentpad::LentPad;
use std::marker::PhantomData;

// Inlined, as `event` says.
impl LentLink<'_> {
    // Message p is an old row: it is replied to and leaves the data table: 18.
    #[inline(always)]
    fn take_old(&mut self, p: usize, number: usize) -> Result<(), Refusal>
        requires { (sound_limits self.old.limits ≡ true) × (p < self.old.numbers.datas) × (number < 2 * self.old.limits.window)
            × (sound_data_table self.old.limits (lent_link self.old).datas ≡ true)
            × (sound_reply_table self.old.limits (lent_link self.old).replies ≡ true) }
        ensures lent { StaysLent self.old self.new }
        ensures untouched { (self.new.marks.now ≡ self.old.marks.now) × (self.new.mattimers.now ≡ self.old.mattimers.now)
            × (self.new.matcells.now ≡ self.old.matcells.now) × (self.new.held.now ≡ self.old.held.now)
            × (self.new.padtimers.now ≡ self.old.padtimers.now) × (self.new.padcells.now ≡ self.old.padcells.now) }
        ensures moves { sound_link (lent_link self.old) ≡ true
            → (b : List ℕ) → OldTaken (lent_link self.old) b p (record { first = number; last = number }) (lent_link self.new) result }
    {
        let mut replies = lend_replies!(self);
        if !replies.has_room() {
            return Err(Refusal::ReplyTableFull);
        }
        let reply = Reply {
            first: number,
            last: number,
        };
        replies.put(self.limits, reply);
        self.numbers.replies = replies.count;
        let mut datas = lend_datas!(self);
        datas.remove(p);
        self.numbers.datas = datas.count;
        Ok(())
    }

    // Message p arrives at the pad and leaves the data table: 17, and for an old row 18.
    #[inline(always)]
    pub fn arrive_data(&mut self, p: usize, counts: &mut Counts) -> Result<(), Refusal>
        requires { (sound_limits self.old.limits ≡ true) × (self.old.numbers.wanted < 2 * self.old.limits.window)
            × (sound_data_table self.old.limits (lent_link self.old).datas ≡ true)
            × (sound_reply_table self.old.limits (lent_link self.old).replies ≡ true) × HasRoom counts.old }
        ensures lent { StaysLent self.old self.new }
        ensures untouched { (self.new.marks.now ≡ self.old.marks.now) × (self.new.mattimers.now ≡ self.old.mattimers.now)
            × (self.new.matcells.now ≡ self.old.matcells.now) }
        ensures counted { sound_link (lent_link self.old) ≡ true
            → (supply b : List ℕ) → Counted (lent_link self.old) supply b b counts.old (arrive_data p) (lent_link self.new) counts.new result }
    {
        let data = lend_datas!(self).find(p)?;
        let mut pad = lend_pad!(self);
        if !pad.in_window(self.limits, data.number) {
            self.take_old(p, data.number)?;
            counts.datas.arrived += 1;
            counts.replies.put += 1;
            return Ok(());
        }
        pad.hold(self.limits, data);
        let mut taken = lend_datas!(self);
        taken.remove(p);
        self.numbers.datas = taken.count;
        counts.datas.arrived += 1;
        Ok(())
    }

    // The run of rows at wanted is recorded and replied to: 20, 21, 18.
    #[inline(always)]
    pub fn reply(&mut self, record: &mut [u16], counts: &mut Counts) -> Result<(), Refusal>
        requires { (sound_limits self.old.limits ≡ true) × (sound_pad self.old.limits (lent_link self.old).pad ≡ true)
            × (sound_reply_table self.old.limits (lent_link self.old).replies ≡ true) × HasRoom counts.old }
        ensures lent { StaysLent self.old self.new }
        ensures untouched { (self.new.marks.now ≡ self.old.marks.now) × (self.new.mattimers.now ≡ self.old.mattimers.now)
            × (self.new.matcells.now ≡ self.old.matcells.now) × (self.new.padtimers.now ≡ self.old.padtimers.now)
            × (self.new.padcells.now ≡ self.old.padcells.now) × (self.new.datas.now ≡ self.old.datas.now) }
        ensures counted { sound_link (lent_link self.old) ≡ true
            → (supply : List ℕ) → Counted (lent_link self.old) supply «record».old «record».new counts.old reply (lent_link self.new) counts.new result }
    {
        let mut pad = lend_pad!(self);
        let count = pad.run_length(self.limits)?;
        if record.len() < 16 * count {
            return Err(Refusal::RecordFull);
        }
        let mut replies = lend_replies!(self);
        if !replies.has_room() {
            return Err(Refusal::ReplyTableFull);
        }
        let run = pad.record_run(self.limits, count, record);
        self.numbers.wanted = pad.wanted;
        replies.put(self.limits, run);
        self.numbers.replies = replies.count;
        counts.recorded += count;
        counts.replies.put += 1;
        Ok(())
    }
}
