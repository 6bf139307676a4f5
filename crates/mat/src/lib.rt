// The mat (sender). Each call puts question 4 first: to the limits, the mat and the message handed to it.
#![tactic(auto)]

ghost use Rattle.std.specs.Prelude.{◌≡◌, ◌&&◌, ◌∷◌};
ghost use Rattle.limits.specs.Questions.{ask, time_questions};
ghost use Rattle.limits.specs.Limits.{sound_limits};
ghost use Rattle.limits.specs.Tables.{sound_reply};
ghost use Rattle.mat.specs.Rules.{send_questions, sending, resend_questions, resending, acknowledge_questions, acknowledging, ticked};
ghost use Rattle.mat.specs.View.{mat_of, mat_state, fresh_mat, sound_mat, SendCall, AcknowledgeCall, TickCall};

pub mod lentmat;

use lentmat::LentMat;
use limits::Limits;
use limits::answer::Refusal;
use limits::messages::{Data, Reply};

// `oldest` and `next` are numbers modulo 2w: the first unacknowledged row and the one to be sent. Row m stands at place m mod w,
// beside its mark (acknowledged) and its resend timer (retransmission timer).
// Stays (C interface): an array for each part of a place, as in the struct of programs in C.
#[derive(Clone, Copy)]
pub struct Mat {
    pub oldest: usize,
    pub next: usize,
    pub marks: [bool; 32],
    pub timers: [u16; 32],
    pub cells: [u16; 512],
}

// A mat's numbers, and its arrays lent where they are.
macro_rules! lend {
    ($m:expr) => {
        LentMat {
            oldest: $m.oldest,
            next: $m.next,
            marks: &mut $m.marks,
            timers: &mut $m.timers,
            cells: &mut $m.cells,
        }
    };
}

// The same one by one, for what lends the arrays of several parts at once, so that it names no field. A macro, since of references
// that a call hands out whoever lends would not learn what was written.
#[macro_export]
macro_rules! mat_parts {
    ($m:expr) => {
        (
            $m.oldest,
            $m.next,
            &mut $m.marks,
            &mut $m.timers,
            &mut $m.cells,
        )
    };
}

impl Mat {
    // The numbers that a call on the parts left.
    pub fn renumber(&mut self, oldest: usize, next: usize)
        ensures { self.new ≡ mat_of oldest next self.old.marks self.old.timers self.old.cells }
    {
        self.oldest = oldest;
        self.next = next;
    }

    pub fn fresh() -> Mat
        ensures { result ≡ fresh_mat }
    {
        Mat {
            oldest: 0,
            next: 0,
            marks: [false; 32],
            timers: [0; 32],
            cells: [0; 512],
        }
    }

    // Question 4 of limits and a mat.
    pub fn is_sound(&self, l: Limits) -> bool
        ensures { result ≡ (sound_limits l && sound_mat l self.now) }
    {
        limits::sound_limits(l)
            && lentmat::mat_sound(
                l,
                self.oldest,
                self.next,
                &self.marks,
                &self.timers,
                &self.cells,
            )
    }

    // Question 4 of limits, a mat and a message.
    fn is_sound_with(&self, l: Limits, reply: Reply) -> bool
        ensures { result ≡ (sound_limits l && (sound_mat l self.now && sound_reply l reply)) }
    {
        self.is_sound(l) && rows::messages::reply_sound(l, reply)
    }

    // The first row of the supply is sent: 4, 10, 11, 12. Gives the message to put in the data table.
    pub fn send(&mut self, l: Limits, supply: &[u16]) -> Result<Data, Refusal>
        ensures { SendCall l
            (ask 4 (sound_limits l && sound_mat l self.old) ∷ send_questions l (mat_state l.window self.old) supply.now)
            result (sending l (mat_state l.window self.old) supply.now) self.old self.new }
    {
        if !self.is_sound(l) {
            return Err(Refusal::Unsound);
        }
        let mut lent = lend!(self);
        let row = lent.next_row(l, supply)?;
        let data = lent.keep(l, row);
        self.next = lent.next;
        Ok(data)
    }

    // The kept row oldest + k is sent again: 4, 14, 15, 16. Gives the message to put in the data table.
    pub fn resend(&mut self, l: Limits, k: usize) -> Result<Data, Refusal>
        ensures { SendCall l
            (ask 4 (sound_limits l && sound_mat l self.old) ∷ resend_questions l (mat_state l.window self.old) k)
            result (resending l (mat_state l.window self.old) k) self.old self.new }
    {
        if !self.is_sound(l) {
            return Err(Refusal::Unsound);
        }
        let mut lent = lend!(self);
        let number = lent.due(l, k)?;
        Ok(lent.again(l, number))
    }

    // A reply arrives: 4, 19. Gives by how many rows oldest rose.
    pub fn acknowledge(&mut self, l: Limits, reply: Reply) -> Result<usize, Refusal>
        ensures { AcknowledgeCall l
            (ask 4 (sound_limits l && (sound_mat l self.old && sound_reply l reply))
            ∷ acknowledge_questions l (mat_state l.window self.old) reply)
            result (acknowledging l (mat_state l.window self.old) reply) self.old self.new }
    {
        if !self.is_sound_with(l, reply) {
            return Err(Refusal::Unsound);
        }
        let mut lent = lend!(self);
        let passed = lent.acknowledge(l, reply);
        self.oldest = lent.oldest;
        passed
    }

    // Every resend timer falls by d: 4, 9.
    // Stays (no plainer): the tick of a pad has the same words; a trait of this one call would need the laws of both.
    pub fn tick(&mut self, l: Limits, d: u16) -> Result<(), Refusal>
        ensures { TickCall l (ask 4 (sound_limits l && sound_mat l self.old) ∷ time_questions d)
            result (ticked d (mat_state l.window self.old)) self.old self.new }
    {
        if !self.is_sound(l) {
            return Err(Refusal::Unsound);
        }
        if d == 0 {
            return Err(Refusal::BadArgument);
        }
        lend!(self).tick(l, d);
        Ok(())
    }
}
