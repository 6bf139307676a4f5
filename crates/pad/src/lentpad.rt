// Inner: called by the pad's public calls, events and runs. The pad's events where question 4 has been put and passed, on a pad
// whose arrays are lent and change in place.
#![tactic(auto, using(limits::proofs::Laws::Good::good))]

ghost use Rattle.std.specs.Prelude.{◌≡◌, List, ℕ, Bool, true, false, ◌&&◌, ◌++◌, ◌+◌, ◌*◌, ◌%◌, ◌<◌, ◌≤◌, ltb, length, get_or, drop, IsTrue, ◌↔◌};
ghost use Rattle.limits.specs.Lists.{tab, leading, joined};
ghost use Rattle.limits.specs.Cells.{row_at, legal_row};
ghost use Rattle.limits.specs.Questions.{pick, Answered};
ghost use Rattle.limits.specs.Limits.{sound_limits};
ghost use Rattle.limits.specs.Ring.{distance};
ghost use Rattle.pad.specs.Rules.{holding, run, run_questions, replying, ticked};
ghost use Rattle.pad.specs.View.{pad_of, lent_pad, StaysLent, pad_state, HeldLegal, sound_pad, Shows};

use limits::answer::Refusal;
use limits::messages::{Data, Reply};
use limits::{Limits, ring};

// The pad's number, and its arrays, which are lent.
// Stays (C interface): an array for each part of a place, as in `Pad`.
#[derive(Drop)]
pub struct LentPad<'a> {
    pub wanted: usize,
    pub held: &'a mut [bool; 32],
    pub timers: &'a mut [u16; 32],
    pub cells: &'a mut [u16; 512],
}

// Whether the row at place `at` has legal cells, where it is held.
fn row_sound(held: bool, cells: &[u16; 512], at: usize) -> bool
    requires { at < 32 }
    ensures { result ≡ pick held (legal_row (row_at cells.now at)) true }
{
    !held || rows::legal_cells(cells, 16 * at, 16 * at + 16)
}

// Whether the rows held at the first w places have legal cells.
fn held_sound(held: &[bool; 32], cells: &[u16; 512], w: usize) -> bool
    requires { w ≤ 32 }
    ensures { IsTrue result ↔ HeldLegal w held.now cells.now }
{
    held[..w]
        .iter()
        .enumerate()
        .all(|(at, held)| row_sound(*held, cells, at))
}

// In most calls no row is held at all; then no row needs to be looked at.
#[inline(always)]
fn cells_sound(held: &[bool; 32], cells: &[u16; 512], w: usize) -> bool
    requires { w ≤ 32 }
    ensures { IsTrue result ↔ HeldLegal w held.now cells.now }
{
    rows::none_set(held, 0, 32) || held_sound(held, cells, w)
}

// Question 4 of the pad.
// Stays (no plainer): this, `in_window` and `run_length` take the parts one by one, since a pad that is only looked at lends nothing.
// Stays (speed): as `mat_sound` of the mat, with `cells_sound`.
#[inline(always)]
pub fn pad_sound(
    l: Limits,
    wanted: usize,
    held: &[bool; 32],
    timers: &[u16; 32],
    cells: &[u16; 512],
) -> bool
    requires { sound_limits l ≡ true }
    ensures { result ≡ sound_pad l (pad_of wanted held.now timers.now cells.now) }
{
    let w = l.window;
    wanted < 2 * w && (rows::at_most(timers, w, l.replywait) && cells_sound(held, cells, w))
}

// Whether the number is one of the window. Any other is an old row's.
pub fn in_window(l: Limits, wanted: usize, number: usize) -> bool
    requires { (sound_limits l ≡ true) × (wanted < 2 * l.window) × (number < 2 * l.window) }
    ensures { result ≡ ltb (distance (2 * l.window) wanted number) l.window }
{
    let w = l.window;
    ring::gap(2 * w, wanted, number) < w
}

// How many rows from place `from` on, round the ring, are ready.
// Stays (no plainer): the run of marked numbers in mat has another test in each step, which its promise names.
fn ready_run(held: &[bool; 32], timers: &[u16; 32], w: usize, from: usize) -> usize
    requires { (w ≤ 32) × (from < w) }
    ensures { result ≡ leading (λ (b : Bool). b)
        (tab w (λ i. get_or held.now ((from + i) % w) false && ltb 0 (get_or timers.now ((from + i) % w) 0))) }
{
    let mut at = from;
    for k in 0..w {
        if !(held[at] && 0 < timers[at]) {
            return k;
        }
        at = rows::after(w, at);
    }
    w
}

// The length of the run at wanted: 20.
pub fn run_length(
    l: Limits,
    wanted: usize,
    held: &[bool; 32],
    timers: &[u16; 32],
) -> Result<usize, Refusal>
    requires { (sound_limits l ≡ true) × (wanted < 2 * l.window) }
    ensures { (cells : List ℕ) → (let s = pad_state l.window (pad_of wanted held.now timers.now cells) in Answered (run_questions s) result (run s)) }
{
    let w = l.window;
    let count = ready_run(held, timers, w, ring::slot(w, wanted));
    if count == 0 {
        return Err(Refusal::NothingReady);
    }
    Ok(count)
}

// Writes `count` rows from place `from` on, round the ring, to the front of `buffer`.
fn write_run(buffer: &mut [u16], cells: &[u16; 512], w: usize, from: usize, count: usize)
    requires { (w ≤ 32) × (from < w) × (count ≤ w) × (16 * count ≤ length buffer.old) }
    ensures { buffer.new
        ≡ joined (tab count (λ i. row_at cells.now ((from + i) % w))) ++ drop (16 * count) buffer.old }
{
    let mut at = from;
    for k in 0..count {
        let row = rows::load(cells, at);
        rows::write(buffer, 16 * k, row);
        at = rows::after(w, at);
    }
}

impl LentPad<'_> {
    // Whether the number is one of the window. Any other is an old row's.
    pub fn in_window(&self, l: Limits, number: usize) -> bool
        requires { (sound_limits l ≡ true) × (self.now.wanted < 2 * l.window) × (number < 2 * l.window) }
        ensures { result ≡ ltb (distance (2 * l.window) self.now.wanted number) l.window }
    {
        in_window(l, self.wanted, number)
    }

    // The row, one of the window, is held, and its reply timer starts.
    pub fn hold(&mut self, l: Limits, data: Data)
        requires { (sound_limits l ≡ true) × («data».number < 2 * l.window) }
        ensures lent { StaysLent self.old self.new }
        ensures stays { self.new.wanted ≡ self.old.wanted }
        ensures moves { sound_pad l (lent_pad self.old) ≡ true → legal_row «data».row ≡ true
            → distance (2 * l.window) self.old.wanted «data».number < l.window
            → Shows l (lent_pad self.new) (holding l (pad_state l.window (lent_pad self.old)) «data») }
    {
        let at = ring::slot(l.window, data.number);
        // The proof knows the lengths of these two as locals only.
        let held = &mut *self.held;
        let timers = &mut *self.timers;
        held[at] = true;
        timers[at] = l.replywait;
        rows::write(self.cells, 16 * at, data.row);
    }

    // The length of the run at wanted: 20.
    pub fn run_length(&self, l: Limits) -> Result<usize, Refusal>
        requires { (sound_limits l ≡ true) × (self.now.wanted < 2 * l.window) }
        ensures { let s = pad_state l.window (lent_pad self.now) in Answered (run_questions s) result (run s) }
    {
        run_length(l, self.wanted, self.held, self.timers)
    }

    // The run of `count` rows at wanted is recorded and passed. The reply covers it.
    pub fn record_run(&mut self, l: Limits, count: usize, buffer: &mut [u16]) -> Reply
        requires { (sound_limits l ≡ true) × (self.old.wanted < 2 * l.window) × (1 ≤ count) × (count ≤ l.window)
            × (16 * count ≤ length buffer.old) }
        ensures lent { StaysLent self.old self.new }
        ensures untouched { (self.new.timers.now ≡ self.old.timers.now) × (self.new.cells.now ≡ self.old.cells.now) }
        ensures moves { sound_pad l (lent_pad self.old) ≡ true → count ≡ run (pad_state l.window (lent_pad self.old))
            → (sound_pad l (lent_pad self.new) ≡ true)
            × (record { state = pad_state l.window (lent_pad self.new); count = count; reply = result; buffer = buffer.new }
            ≡ replying l (pad_state l.window (lent_pad self.old)) buffer.old) }
    {
        let w = l.window;
        let first = self.wanted;
        let from = ring::slot(w, first);
        write_run(buffer, self.cells, w, from, count);
        rows::set_span(self.held, w, from, count, false);
        self.wanted = ring::forward(2 * w, first, count);
        Reply {
            first,
            last: ring::forward(2 * w, first, count - 1),
        }
    }

    // Every reply timer falls by d.
    pub fn tick(&mut self, l: Limits, d: u16)
        requires { sound_limits l ≡ true }
        ensures lent { StaysLent self.old self.new }
        ensures stays { self.new.wanted ≡ self.old.wanted }
        ensures untouched { (self.new.held.now ≡ self.old.held.now) × (self.new.cells.now ≡ self.old.cells.now) }
        ensures moves { sound_pad l (lent_pad self.old) ≡ true
            → Shows l (lent_pad self.new) (ticked d (pad_state l.window (lent_pad self.old))) }
    {
        rows::fall(self.timers, l.window, d);
    }
}
