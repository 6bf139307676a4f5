// Inner: called by `act` (event). The events at the mat: send, resend, a reply arrives. The link passed question 4.
ghost use Rattle.std.specs.Prelude.{◌≡◌, true, List, ℕ};
ghost use Rattle.limits.specs.Limits.{sound_limits};
ghost use Rattle.limits.specs.Events.{send, resend, arrive_reply};
ghost use Rattle.mat.specs.View.{NumbersAt, sound_mat};
ghost use Rattle.air.specs.Data.{sound_data_table};
ghost use Rattle.air.specs.Replies.{sound_reply_table};
ghost use Rattle.events.specs.View.{sound_link, HasRoom, Counted};
ghost use Rattle.events.specs.Lent.{lent_link, StaysLent};

use crate::{Counts, LentLink};
use air::lent::LentTable;
use limits::answer::Refusal;
use limits::messages::{Data, Reply};
use mat::lentmat::LentMat;
use std::marker::PhantomData;

// Inlined, as `event` says.
impl LentLink<'_> {
    // The next row is sent: 10, 11, 12, 13.
    #[inline(always)]
    pub fn send(&mut self, supply: &[u16], counts: &mut Counts) -> Result<(), Refusal>
        requires { NumbersAt self.old.limits (lent_link self.old).mat
            × (sound_data_table self.old.limits (lent_link self.old).datas ≡ true) × HasRoom counts.old }
        ensures lent { StaysLent self.old self.new }
        ensures untouched { (self.new.marks.now ≡ self.old.marks.now) × (self.new.held.now ≡ self.old.held.now)
            × (self.new.padtimers.now ≡ self.old.padtimers.now) × (self.new.padcells.now ≡ self.old.padcells.now)
            × (self.new.replies.now ≡ self.old.replies.now) }
        ensures counted { sound_link (lent_link self.old) ≡ true
            → (b : List ℕ) → Counted (lent_link self.old) supply.now b b counts.old send (lent_link self.new) counts.new result }
    {
        let mut mat = lend_mat!(self);
        let row = mat.next_row(self.limits, supply)?;
        let mut datas = lend_datas!(self);
        if !datas.has_room() {
            return Err(Refusal::DataTableFull);
        }
        let data = mat.keep(self.limits, row);
        self.numbers.next = mat.next;
        datas.put(self.limits, data);
        self.numbers.datas = datas.count;
        counts.sent += 1;
        counts.datas.put += 1;
        Ok(())
    }

    // The kept row oldest + k is sent again: 14, 15, 16, 13.
    #[inline(always)]
    pub fn resend(&mut self, k: usize, counts: &mut Counts) -> Result<(), Refusal>
        requires { (sound_limits self.old.limits ≡ true) × (sound_mat self.old.limits (lent_link self.old).mat ≡ true)
            × (sound_data_table self.old.limits (lent_link self.old).datas ≡ true) × HasRoom counts.old }
        ensures lent { StaysLent self.old self.new }
        ensures untouched { (self.new.marks.now ≡ self.old.marks.now) × (self.new.matcells.now ≡ self.old.matcells.now)
            × (self.new.held.now ≡ self.old.held.now) × (self.new.padtimers.now ≡ self.old.padtimers.now)
            × (self.new.padcells.now ≡ self.old.padcells.now) × (self.new.replies.now ≡ self.old.replies.now) }
        ensures counted { sound_link (lent_link self.old) ≡ true
            → (supply b : List ℕ) → Counted (lent_link self.old) supply b b counts.old (resend k) (lent_link self.new) counts.new result }
    {
        let mut mat = lend_mat!(self);
        let number = mat.due(self.limits, k)?;
        let mut datas = lend_datas!(self);
        if !datas.has_room() {
            return Err(Refusal::DataTableFull);
        }
        let again = mat.again(self.limits, number);
        datas.put(self.limits, again);
        self.numbers.datas = datas.count;
        counts.datas.put += 1;
        Ok(())
    }

    // Message p arrives at the mat and leaves the reply table: 17, 19.
    #[inline(always)]
    pub fn arrive_reply(&mut self, p: usize, counts: &mut Counts) -> Result<(), Refusal>
        requires { NumbersAt self.old.limits (lent_link self.old).mat
            × (sound_reply_table self.old.limits (lent_link self.old).replies ≡ true) × HasRoom counts.old }
        ensures lent { StaysLent self.old self.new }
        ensures untouched { (self.new.mattimers.now ≡ self.old.mattimers.now) × (self.new.matcells.now ≡ self.old.matcells.now)
            × (self.new.held.now ≡ self.old.held.now) × (self.new.padtimers.now ≡ self.old.padtimers.now)
            × (self.new.padcells.now ≡ self.old.padcells.now) × (self.new.datas.now ≡ self.old.datas.now) }
        ensures counted { sound_link (lent_link self.old) ≡ true
            → (supply b : List ℕ) → Counted (lent_link self.old) supply b b counts.old (arrive_reply p) (lent_link self.new) counts.new result }
    {
        let mut replies = lend_replies!(self);
        let reply = replies.find(p)?;
        let mut mat = lend_mat!(self);
        let acknowledged = mat.acknowledge(self.limits, reply)?;
        self.numbers.oldest = mat.oldest;
        replies.remove(p);
        self.numbers.replies = replies.count;
        counts.acknowledged += acknowledged;
        counts.replies.arrived += 1;
        Ok(())
    }
}
