// Inner: called by tables, air, mat, pad, frames, page and horsefile. Work on rows of 16 cells and on arrays of 32 entries, each
// helper with what it needs alone.
// Stays (no plainer): that a place or a width lies in its array is a clause of each function, here and above: a type for places would
// be made of each number and taken apart at each index.
#![tactic(auto)]

ghost use Rattle.std.specs.Prelude.{◌≡◌, ◌+◌, ◌-◌, ◌≤◌, ◌<◌, ◌%◌, length, take, drop, get_or, false, not, leb};
ghost use Rattle.limits.specs.Lists.{tab, all};
ghost use Rattle.limits.specs.Cells.{row_at, legal_cell, legal_row};
ghost use Rattle.rows.specs.Arrays.{pasted, written, fallen, closed, span_set};

pub mod messages;

// The 16 cells from `at` on.
pub fn read(cells: &[u16], at: usize) -> [u16; 16]
    requires { at + 16 ≤ length cells.now }
    ensures { result ≡ take 16 (drop at cells.now) }
{
    let mut row = [0; 16];
    row.copy_from_slice(&cells[at..at + 16]);
    row
}

// Stays (no plainer): the library's method on a part, with a promise of the whole.
pub fn copy(xs: &mut [u16], at: usize, words: &[u16])
    requires { at + length words.now ≤ length xs.old }
    ensures { xs.new ≡ pasted at words.now xs.old }
{
    xs[at..at + words.len()].copy_from_slice(words);
}

pub fn write(cells: &mut [u16], at: usize, row: [u16; 16])
    requires { at + 16 ≤ length cells.old }
    ensures { cells.new ≡ written at row cells.old }
{
    copy(cells, at, &row);
}

pub fn load(cells: &[u16; 512], place: usize) -> [u16; 16]
    requires { place < 32 }
    ensures { result ≡ row_at cells.now place }
{
    read(cells, 16 * place)
}

// Whether the cells from `from` to before `to` are legal. This and the two tests below look at every entry and leave at the end
// only, which makes them vector code.
pub fn legal_cells(cells: &[u16], from: usize, to: usize) -> bool
    requires { (from ≤ to) × (to ≤ length cells.now) }
    ensures { result ≡ all legal_cell (take (to - from) (drop from cells.now)) }
{
    let mut most = 0;
    for cell in &cells[from..to] {
        most = most.max(limits::cells::level(*cell));
    }
    most <= limits::cells::LEGAL
}

pub fn legal_row(row: [u16; 16]) -> bool
    ensures { result ≡ legal_row row }
{
    legal_cells(&row, 0, 16)
}

// Whether the first `n` entries are at most `most`.
pub fn at_most(xs: &[u16; 32], n: usize, most: u16) -> bool
    requires { n ≤ 32 }
    ensures { result ≡ all (λ x. leb x most) (tab n (λ i. get_or xs.now i 0)) }
{
    let mut good = true;
    for x in &xs[..n] {
        good &= *x <= most;
    }
    good
}

// Whether the marks from `from` to before `to` are off.
pub fn none_set(marks: &[bool], from: usize, to: usize) -> bool
    requires { (from ≤ to) × (to ≤ length marks.now) }
    ensures { result ≡ all not (tab (to - from) (λ i. get_or marks.now (from + i) false)) }
{
    let mut good = true;
    for mark in &marks[from..to] {
        good &= !*mark;
    }
    good
}

// The first `n` entries fall by `d` and stop at 0.
pub fn fall(xs: &mut [u16; 32], n: usize, d: u16)
    requires { n ≤ 32 }
    ensures { xs.new ≡ fallen n d xs.old }
{
    for x in &mut xs[..n] {
        *x = x.saturating_sub(d);
    }
}

// Closes the gap of `width` entries at `at` in the first `end`.
pub fn close(xs: &mut [u16], at: usize, width: usize, end: usize)
    requires { (at + width ≤ end) × (end ≤ length xs.old) }
    ensures { xs.new ≡ closed at width end xs.old }
{
    xs.copy_within(at + width..end, at);
}

// The place behind `at`, round the ring.
pub fn after(w: usize, at: usize) -> usize
    requires { at < w }
    ensures { result ≡ (at + 1) % w }
{
    if at + 1 < w { at + 1 } else { 0 }
}

// Sets the places of `count` numbers from `from` on, `from` below w.
pub fn set_span(marks: &mut [bool], w: usize, from: usize, count: usize, value: bool)
    requires { (w ≤ length marks.old) × (from < w) × (count ≤ w) }
    ensures { marks.new ≡ span_set w from count value marks.old }
{
    let mut at = from;
    for _ in 0..count {
        marks[at] = value;
        at = after(w, at);
    }
}
