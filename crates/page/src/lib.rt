// A page of a record: up to 60 of its rows as text.
#![tactic(auto)]

ghost use Rattle.std.specs.Prelude.{◌≡◌, true, ◌+◌, ◌*◌, ◌≤◌, length};
ghost use Rattle.limits.specs.Questions.{Answered};
ghost use Rattle.limits.specs.Cells.{row_at, legal_row};
ghost use Rattle.limits.specs.Lists.{tab, all};
ghost use Rattle.buffers.specs.Buffers.{wrote, writing, WriteCall};
ghost use Rattle.page.specs.Page.{rows_in, rows_on, lines_from, page_bytes, page_into, record_fits, page_questions};

mod line;

use limits::answer::Refusal;

// How many rows page p has. 60 times p is formed only where it is below `rows`.
fn rows_on(rows: usize, p: usize) -> usize
    requires { rows ≤ 100000 }
    ensures { result ≡ rows_on rows p }
{
    if p < rows.div_ceil(60) {
        (rows - 60 * p).min(60)
    } else {
        0
    }
}

// Question 30.
fn record_fits(record: &[u16]) -> bool
    ensures { result ≡ record_fits «record».now }
{
    record.len() % 16 == 0 && record.len() / 16 <= 100000
}

// How many rows page p has, if a buffer of `room` bytes holds them: 30, 31, 12, 32.
fn page_answer(record: &[u16], p: usize, room: usize) -> Result<usize, Refusal>
    ensures { Answered (page_questions «record».now p room) result (rows_on (rows_in «record».now) p) }
{
    if !record_fits(record) {
        return Err(Refusal::BadRecordLength);
    }
    let n = rows_on(record.len() / 16, p);
    if n == 0 {
        return Err(Refusal::NoSuchPage);
    }
    let from = 16 * (60 * p);
    if !rows::legal_cells(record, from, from + 16 * n) {
        return Err(Refusal::IllegalCell);
    }
    if room < 23 * n {
        return Err(Refusal::ShortPageBuffer);
    }
    Ok(n)
}

// The lines of n rows from row `first` on.
fn lines(out: &mut [u8], record: &[u16], first: usize, n: usize)
    requires { (23 * n ≤ length out.old) × (16 * (first + n) ≤ length «record».now)
        × (all legal_row (tab n (λ i. row_at «record».now (first + i))) ≡ true) }
    ensures { out.new ≡ wrote 0 (lines_from «record».now first n) out.old }
{
    for i in 0..n {
        let row = first + i;
        line::line(out, 23 * i, row, &record[16 * row..16 * row + 16]);
    }
}

// Page p of a record, from row 60 p on, at the front of the buffer, and how many bytes it has: 30, 31, 12, 32.
pub fn page(record: &[u16], p: usize, out: &mut [u8]) -> Result<usize, Refusal>
    ensures { WriteCall (page_questions «record».now p (length out.old))
        (writing (page_bytes «record».now p) (page_into «record».now p out.old)) result out.old out.new }
{
    let n = page_answer(record, p, out.len())?;
    lines(out, record, 60 * p, n);
    Ok(23 * n)
}
