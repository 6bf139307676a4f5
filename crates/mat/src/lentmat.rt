// Inner: called by the mat's public calls, events and runs. Question 4 of a mat, and the mat's events where it has been put and
// passed, on a mat whose arrays are lent and change in place.
#![tactic(auto, using(limits::proofs::Laws::Good::good))]

ghost use Rattle.std.specs.Prelude.{◌≡◌, Bool, true, false, not, ◌&&◌, List, ℕ, Ok, IfOk, ◌+◌, ◌*◌, ◌%◌, ◌<◌, ◌≤◌, leb, get_or, take};
ghost use Rattle.limits.specs.Lists.{tab, all, leading};
ghost use Rattle.limits.specs.Cells.{row_at, legal_row};
ghost use Rattle.limits.specs.Questions.{Answered};
ghost use Rattle.limits.specs.Limits.{sound_limits};
ghost use Rattle.limits.specs.Ring.{distance, step};
ghost use Rattle.limits.specs.Tables.{sound_reply};
ghost use Rattle.mat.specs.Rules.{send_questions, sending, resend_questions, resending, acknowledge_questions, passing, acknowledging, ticked};
ghost use Rattle.mat.specs.View.{mat_of, lent_mat, StaysLent, NumbersAt, outstanding_of, cells_at, mat_state, sound_numbers, sound_marks, sound_mat, SendCall, AcknowledgeCall};

use limits::answer::Refusal;
use limits::messages::{Data, Reply};
use limits::{Limits, ring};

// The mat's numbers, and its arrays, which are lent.
// Stays (C interface): an array for each part of a place, as in `Mat`.
#[derive(Drop)]
pub struct LentMat<'a> {
    pub oldest: usize,
    pub next: usize,
    pub marks: &'a mut [bool; 32],
    pub timers: &'a mut [u16; 32],
    pub cells: &'a mut [u16; 512],
}

// Whether the marks of `count` numbers from place `from` on, round the ring, are off: a span to the ring's end and one from place 0.
// Stays (no plainer): `legal_rows` looks at the same numbers in other units.
fn unmarked(marks: &[bool; 32], w: usize, from: usize, count: usize) -> bool
    requires { (w ≤ 32) × (from < w) × (count ≤ w) }
    ensures { result ≡ all not (tab count (λ i. get_or marks.now ((from + i) % w) false)) }
{
    let over = (from + count).saturating_sub(w);
    rows::none_set(marks, from, from + count - over) && rows::none_set(marks, 0, over)
}

// Whether the rows of `count` numbers from place `from` on, round the ring, have legal cells.
fn legal_rows(cells: &[u16; 512], w: usize, from: usize, count: usize) -> bool
    requires { (w ≤ 32) × (from < w) × (count ≤ w) }
    ensures { result ≡ all legal_row (tab count (λ i. row_at cells.now ((from + i) % w))) }
{
    let over = (from + count).saturating_sub(w);
    rows::legal_cells(cells, 16 * from, 16 * (from + count - over))
        && rows::legal_cells(cells, 0, 16 * over)
}

fn numbers_sound(w: usize, oldest: usize, next: usize) -> bool
    requires { (1 ≤ w) × (w ≤ 32) }
    ensures { (marks : List Bool) (timers cells : List ℕ) → result ≡ sound_numbers w (mat_of oldest next marks timers cells) }
{
    oldest < 2 * w && next < 2 * w && ring::gap(2 * w, oldest, next) <= w
}

// Stays (no plainer): what this and the two behind it need of the numbers, `numbers_sound` has just asked.
fn marked_sound(w: usize, oldest: usize, next: usize, marks: &[bool; 32]) -> bool
    requires { (1 ≤ w) × (w ≤ 32) × (oldest < 2 * w) × (next < 2 * w) × (distance (2 * w) oldest next ≤ w) }
    ensures { (timers cells : List ℕ) → result ≡ sound_marks w (mat_of oldest next marks.now timers cells) }
{
    let out = ring::gap(2 * w, oldest, next);
    let at = ring::slot(w, oldest);
    !marks[at] && unmarked(marks, w, ring::slot(w, next), w - out)
}

// In most calls no mark is set at all; then no mark needs to be looked at place by place.
#[inline(always)]
fn marks_sound(w: usize, oldest: usize, next: usize, marks: &[bool; 32]) -> bool
    requires { (1 ≤ w) × (w ≤ 32) × (oldest < 2 * w) × (next < 2 * w) × (distance (2 * w) oldest next ≤ w) }
    ensures { (timers cells : List ℕ) → result ≡ sound_marks w (mat_of oldest next marks.now timers cells) }
{
    rows::none_set(marks, 0, 32) || marked_sound(w, oldest, next, marks)
}

fn rows_sound(l: Limits, oldest: usize, next: usize, timers: &[u16; 32], cells: &[u16; 512]) -> bool
    requires { (sound_limits l ≡ true) × (oldest < 2 * l.window) × (next < 2 * l.window) × (distance (2 * l.window) oldest next ≤ l.window) }
    ensures { (marks : List Bool) → (let m = mat_of oldest next marks timers.now cells.now in
        result ≡ (all (λ t. leb t l.resendwait) (tab l.window (λ i. get_or m.timers i 0))
        && all legal_row (tab (outstanding_of l.window m) (cells_at l.window m)))) }
{
    let w = l.window;
    let out = ring::gap(2 * w, oldest, next);
    rows::at_most(timers, w, l.resendwait) && legal_rows(cells, w, ring::slot(w, oldest), out)
}

// The numbers first: the marks and rows to look at lie by them.
// Stays (no plainer): it takes the parts one by one, since a mat that is only looked at lends nothing.
// Stays (speed): inlined, with `marks_sound`, into the few functions that ask it; as functions of their own they cost each call more.
#[inline(always)]
pub fn mat_sound(
    l: Limits,
    oldest: usize,
    next: usize,
    marks: &[bool; 32],
    timers: &[u16; 32],
    cells: &[u16; 512],
) -> bool
    requires { sound_limits l ≡ true }
    ensures { result ≡ sound_mat l (mat_of oldest next marks.now timers.now cells.now) }
{
    numbers_sound(l.window, oldest, next)
        && (marks_sound(l.window, oldest, next, marks)
            && rows_sound(l, oldest, next, timers, cells))
}

// How many of `most` numbers from place `from` on, round the ring, are marked, up to the first that is not.
// Stays (no plainer): the place goes round the ring beside the count.
fn marked_run(marks: &[bool; 32], w: usize, from: usize, most: usize) -> usize
    requires { (w ≤ 32) × (from < w) }
    ensures { result ≡ leading (λ (b : Bool). b) (tab most (λ i. get_or marks.now ((from + i) % w) false)) }
{
    let mut at = from;
    for k in 0..most {
        if !marks[at] {
            return k;
        }
        at = rows::after(w, at);
    }
    most
}

// The first row of the supply, where it may be sent: 10, 11, 12.
// Stays (no plainer): this and `due` take the parts one by one, as `mat_sound`.
pub fn next_row(l: Limits, oldest: usize, next: usize, supply: &[u16]) -> Result<[u16; 16], Refusal>
    requires { (sound_limits l ≡ true) × (oldest < 2 * l.window) × (next < 2 * l.window) }
    ensures { (marks : List Bool) (timers cells : List ℕ)
        → Answered (send_questions l (mat_state l.window (mat_of oldest next marks timers cells)) supply.now) result (take 16 supply.now) }
{
    let w = l.window;
    if w <= ring::gap(2 * w, oldest, next) {
        return Err(Refusal::WindowFull);
    }
    if supply.len() < 16 {
        return Err(Refusal::NoRowLeft);
    }
    let row = rows::read(supply, 0);
    if !rows::legal_row(row) {
        return Err(Refusal::IllegalCell);
    }
    Ok(row)
}

// The number oldest + k, where its row may be sent again: 14, 15, 16.
pub fn due(
    l: Limits,
    oldest: usize,
    next: usize,
    marks: &[bool; 32],
    timers: &[u16; 32],
    k: usize,
) -> Result<usize, Refusal>
    requires { (sound_limits l ≡ true) × (oldest < 2 * l.window) × (next < 2 * l.window) × (distance (2 * l.window) oldest next ≤ l.window) }
    ensures { (cells : List ℕ)
        → Answered (resend_questions l (mat_state l.window (mat_of oldest next marks.now timers.now cells)) k) result (step (2 * l.window) oldest k) }
{
    let w = l.window;
    if ring::gap(2 * w, oldest, next) <= k {
        return Err(Refusal::NotOutstanding);
    }
    let number = ring::forward(2 * w, oldest, k);
    let at = ring::slot(w, number);
    if marks[at] {
        return Err(Refusal::AlreadyAcknowledged);
    }
    if timers[at] != 0 {
        return Err(Refusal::TimerRunning);
    }
    Ok(number)
}

// Where one place of an array is read or set, the array is named first, so that the check follows it and knows its length.
impl LentMat<'_> {
    // The first row of the supply, where it may be sent: 10, 11, 12.
    pub fn next_row(&self, l: Limits, supply: &[u16]) -> Result<[u16; 16], Refusal>
        requires { (sound_limits l ≡ true) × (self.now.oldest < 2 * l.window) × (self.now.next < 2 * l.window) }
        ensures { Answered (send_questions l (mat_state l.window (lent_mat self.now)) supply.now) result (take 16 supply.now) }
    {
        next_row(l, self.oldest, self.next, supply)
    }

    // The first row of a supply, which may be sent, is kept as row next, its timer is set, and next rises by 1. Gives the row's
    // message.
    pub fn keep(&mut self, l: Limits, row: [u16; 16]) -> Data
        requires { (sound_limits l ≡ true) × (self.old.next < 2 * l.window) }
        ensures lent { StaysLent self.old self.new }
        ensures stays { self.new.oldest ≡ self.old.oldest }
        ensures untouched { self.new.marks.now ≡ self.old.marks.now }
        ensures gives { result ≡ record { number = self.old.next; row = row } }
        ensures sends { sound_mat l (lent_mat self.old) ≡ true → (supply : List ℕ) → (let s = mat_state l.window (lent_mat self.old) in
            Answered (send_questions l s supply) (Ok row) (take 16 supply)
            → SendCall l (send_questions l s supply) (Ok result) (sending l s supply) (lent_mat self.old) (lent_mat self.new)) }
    {
        let w = l.window;
        let number = self.next;
        let at = ring::slot(w, number);
        let timers: &mut [u16] = self.timers;
        timers[at] = l.resendwait;
        rows::write(self.cells, 16 * at, row);
        self.next = ring::forward(2 * w, number, 1);
        Data { number, row }
    }

    // The number oldest + k, where its row may be sent again: 14, 15, 16.
    pub fn due(&self, l: Limits, k: usize) -> Result<usize, Refusal>
        requires { NumbersAt l (lent_mat self.now) }
        ensures { Answered (resend_questions l (mat_state l.window (lent_mat self.now)) k) result
            (step (2 * l.window) self.now.oldest k) }
    {
        due(l, self.oldest, self.next, self.marks, self.timers, k)
    }

    // Stays (no plainer): a number that is handed over, here and below, is below 2w by what answered it or by the message it stands in.
    // The timer of the kept row under `number`, which is due, is set again. Gives the row's message.
    pub fn again(&mut self, l: Limits, number: usize) -> Data
        requires { (sound_limits l ≡ true) × (number < 2 * l.window) }
        ensures lent { StaysLent self.old self.new }
        ensures stays { (self.new.oldest ≡ self.old.oldest) × (self.new.next ≡ self.old.next) }
        ensures untouched { (self.new.marks.now ≡ self.old.marks.now) × (self.new.cells.now ≡ self.old.cells.now) }
        ensures resends { sound_mat l (lent_mat self.old) ≡ true → (k : ℕ) → k < outstanding_of l.window (lent_mat self.old) → number ≡ step (2 * l.window) self.old.oldest k
            → (sound_mat l (lent_mat self.new) ≡ true)
            × (record { state = mat_state l.window (lent_mat self.new); message = result }
            ≡ resending l (mat_state l.window (lent_mat self.old)) k) }
    {
        let at = ring::slot(l.window, number);
        let timers: &mut [u16] = self.timers;
        timers[at] = l.resendwait;
        let row = rows::load(self.cells, at);
        Data { number, row }
    }

    // The `count` numbers from `first` on are marked, and oldest passes every marked number, whose marks are taken away. Gives by
    // how many rows oldest rose.
    fn mark_off(&mut self, l: Limits, first: usize, count: usize) -> usize
        requires { NumbersAt l (lent_mat self.old) × (first < 2 * l.window) × (1 ≤ count)
            × (distance (2 * l.window) self.old.oldest first + count ≤ outstanding_of l.window (lent_mat self.old)) }
        ensures lent { StaysLent self.old self.new }
        ensures stays { self.new.next ≡ self.old.next }
        ensures untouched { (self.new.timers.now ≡ self.old.timers.now) × (self.new.cells.now ≡ self.old.cells.now) }
        ensures low { result ≤ l.window }
        ensures passes { sound_mat l (lent_mat self.old) ≡ true → (sound_mat l (lent_mat self.new) ≡ true)
            × (record { state = mat_state l.window (lent_mat self.new); passed = result }
            ≡ passing l (mat_state l.window (lent_mat self.old)) (distance (2 * l.window) self.old.oldest first) count) }
    {
        let w = l.window;
        let out = ring::gap(2 * w, self.oldest, self.next);
        let from = ring::slot(w, self.oldest);
        rows::set_span(self.marks, w, ring::slot(w, first), count, true);
        let passed = marked_run(self.marks, w, from, out);
        rows::set_span(self.marks, w, from, passed, false);
        self.oldest = ring::forward(2 * w, self.oldest, passed);
        passed
    }

    // A reply, where its numbers are outstanding: 19. Gives by how many rows oldest rose.
    pub fn acknowledge(&mut self, l: Limits, reply: Reply) -> Result<usize, Refusal>
        requires { NumbersAt l (lent_mat self.old) × (sound_reply l reply ≡ true) }
        ensures lent { StaysLent self.old self.new }
        ensures stays { self.new.next ≡ self.old.next }
        ensures untouched { (self.new.timers.now ≡ self.old.timers.now) × (self.new.cells.now ≡ self.old.cells.now) }
        ensures low { IfOk result (λ passed. passed ≤ l.window) }
        ensures acknowledges { sound_mat l (lent_mat self.old) ≡ true → (let s = mat_state l.window (lent_mat self.old) in
            AcknowledgeCall l (acknowledge_questions l s reply) result (acknowledging l s reply)
            (lent_mat self.old) (lent_mat self.new)) }
    {
        let w = l.window;
        let Reply { first, last } = reply;
        let count = ring::gap(2 * w, first, last) + 1;
        if ring::gap(2 * w, self.oldest, self.next) < ring::gap(2 * w, self.oldest, first) + count {
            return Err(Refusal::SpanNotOutstanding);
        }
        Ok(self.mark_off(l, first, count))
    }

    // Every resend timer falls by d.
    pub fn tick(&mut self, l: Limits, d: u16)
        requires { sound_limits l ≡ true }
        ensures lent { StaysLent self.old self.new }
        ensures stays { (self.new.oldest ≡ self.old.oldest) × (self.new.next ≡ self.old.next) }
        ensures untouched { (self.new.marks.now ≡ self.old.marks.now) × (self.new.cells.now ≡ self.old.cells.now) }
        ensures ticks { sound_mat l (lent_mat self.old) ≡ true → (sound_mat l (lent_mat self.new) ≡ true)
            × (mat_state l.window (lent_mat self.new) ≡ ticked d (mat_state l.window (lent_mat self.old))) }
    {
        rows::fall(self.timers, l.window, d);
    }
}
