// The pad (receiver). Each call puts question 4 first: to the limits, the pad and the message handed to it. A refused call leaves
// the pad and the record as they were.
#![tactic(auto)]

ghost use Rattle.std.specs.Prelude.{◌≡◌, ◌&&◌, [], ◌∷◌, length, MatchResult};
ghost use Rattle.limits.specs.Questions.{ask, Answered, time_questions};
ghost use Rattle.limits.specs.Limits.{sound_limits};
ghost use Rattle.limits.specs.Tables.{sound_data};
ghost use Rattle.pad.specs.Rules.{arrival, run, run_questions, reply_questions, replying, ticked};
ghost use Rattle.pad.specs.View.{pad_of, pad_state, fresh_pad, sound_pad, ArriveCall, ReplyCall, TickCall};

pub mod lentpad;

use lentpad::LentPad;
use limits::Limits;
use limits::answer::Refusal;
use limits::messages::{Data, Reply};

// `wanted` is the number, modulo 2w, of the first row that is not recorded. Row m stands at place m mod w, beside its mark (held)
// and its reply timer.
// Stays (C interface): an array for each part of a place, as in `Mat`.
#[derive(Clone, Copy)]
pub struct Pad {
    pub wanted: usize,
    pub held: [bool; 32],
    pub timers: [u16; 32],
    pub cells: [u16; 512],
}

// `count` rows were recorded, and `reply` is to be put.
#[derive(Clone, Copy)]
pub struct Replied {
    pub count: usize,
    pub reply: Reply,
}

// A pad's parts, its arrays lent where they are.
macro_rules! lend {
    ($p:expr) => {
        LentPad {
            wanted: $p.wanted,
            held: &mut $p.held,
            timers: &mut $p.timers,
            cells: &mut $p.cells,
        }
    };
}

// The same one by one, as `mat_parts` of the mat.
#[macro_export]
macro_rules! pad_parts {
    ($p:expr) => {
        ($p.wanted, &mut $p.held, &mut $p.timers, &mut $p.cells)
    };
}

impl Pad {
    // The number that a call on the parts left.
    pub fn renumber(&mut self, wanted: usize)
        ensures { self.new ≡ pad_of wanted self.old.held self.old.timers self.old.cells }
    {
        self.wanted = wanted;
    }

    pub fn fresh() -> Pad
        ensures { result ≡ fresh_pad }
    {
        Pad {
            wanted: 0,
            held: [false; 32],
            timers: [0; 32],
            cells: [0; 512],
        }
    }

    // Question 4 of limits and the pad.
    pub fn is_sound(&self, l: Limits) -> bool
        ensures { result ≡ (sound_limits l && sound_pad l self.now) }
    {
        limits::sound_limits(l)
            && lentpad::pad_sound(l, self.wanted, &self.held, &self.timers, &self.cells)
    }

    // Data arrives: 4. The row is held, or it is an old one and the reply to put for it is given.
    pub fn arrive(&mut self, l: Limits, data: Data) -> Result<Option<Reply>, Refusal>
        ensures { ArriveCall l
            (ask 4 (sound_limits l && (sound_pad l self.old && sound_data l «data»)) ∷ [])
            result (arrival l (pad_state l.window self.old) «data») self.old self.new }
    {
        if !self.is_sound(l) {
            return Err(Refusal::Unsound);
        }
        if !rows::messages::data_sound(l, data) {
            return Err(Refusal::Unsound);
        }
        let mut lent = lend!(self);
        if !lent.in_window(l, data.number) {
            let reply = Reply {
                first: data.number,
                last: data.number,
            };
            return Ok(Some(reply));
        }
        lent.hold(l, data);
        Ok(None)
    }

    // How many rows a reply would record: 4, 20.
    pub fn run_length(&self, l: Limits) -> Result<usize, Refusal>
        ensures { Answered
            (ask 4 (sound_limits l && sound_pad l self.now) ∷ run_questions (pad_state l.window self.now))
            result (run (pad_state l.window self.now)) }
    {
        if !self.is_sound(l) {
            return Err(Refusal::Unsound);
        }
        lentpad::run_length(l, self.wanted, &self.held, &self.timers)
    }

    // A reply for the run of rows at wanted, which are written to the record's front: 4, 20, 21.
    pub fn reply(&mut self, l: Limits, record: &mut [u16]) -> Result<Replied, Refusal>
        ensures pad { ReplyCall l
            (ask 4 (sound_limits l && sound_pad l self.old) ∷ reply_questions (pad_state l.window self.old) (length «record».old))
            result (replying l (pad_state l.window self.old) «record».old) self.old self.new }
        ensures rows { MatchResult result
            (λ _. «record».new ≡ (replying l (pad_state l.window self.old) «record».old).buffer)
            (λ _. «record».new ≡ «record».old) }
    {
        let count = self.run_length(l)?;
        if record.len() < 16 * count {
            return Err(Refusal::RecordFull);
        }
        let mut lent = lend!(self);
        let reply = lent.record_run(l, count, record);
        self.wanted = lent.wanted;
        Ok(Replied { count, reply })
    }

    // Every reply timer falls by d: 4, 9.
    pub fn tick(&mut self, l: Limits, d: u16) -> Result<(), Refusal>
        ensures { TickCall l
            (ask 4 (sound_limits l && sound_pad l self.old) ∷ time_questions d)
            result (ticked d (pad_state l.window self.old)) self.old self.new }
    {
        if !self.is_sound(l) {
            return Err(Refusal::Unsound);
        }
        if d == 0 {
            return Err(Refusal::BadArgument);
        }
        lend!(self).tick(l, d);
        Ok(())
    }
}
