// The file of a horse's records: a lookup hands back a body, and a writer builds a file.
#![tactic(auto)]

ghost use Rattle.std.specs.Prelude.{◌≡◌, ◌+◌, ◌*◌, ◌/◌, ◌≤◌, length};
ghost use Rattle.limits.specs.Questions.{Answered};
ghost use Rattle.buffers.specs.Buffers.{wrote, writing, WriteCall};
ghost use Rattle.horsefile.specs.Layout.{count, contents, bodies_at, body, saved_in, contents_bytes, file_into, size_of};
ghost use Rattle.horsefile.specs.Rules.{current, file_fits, file_questions, lookup_questions, write_fits, write_questions};
ghost use Rattle.horsefile.specs.Calls.{Handed};

mod contents;

use limits::answer::Refusal;

// What was saved: rows of a horse's leg, under a number that rises with each press of Save.
#[derive(Clone, Copy, Debug, PartialEq, Eq)]
pub struct Saved {
    pub horse: u16,
    pub leg: u8,
    pub save: u8,
    pub rows: u16,
}

// The same with the start of the body that holds these rows.
#[derive(Clone, Copy, Debug, PartialEq, Eq)]
pub struct Entry {
    pub saved: Saved,
    pub start: u32,
}

// Question 33 of a file.
fn file_fits(file: &[u8]) -> bool
    ensures { result ≡ file_fits file.now }
{
    if file.is_empty() {
        return false;
    }
    let n = usize::from(file[0]);
    n <= 64
        && contents::bodies_at(n) <= file.len()
        && contents::legal_entries(file, 1, 10, n)
        && contents::without_gaps(file, n)
        && contents::legal_bodies(file, contents::bodies_at(n))
}

// How many entries a file has: 33, 34.
fn file_answer(file: &[u8]) -> Result<usize, Refusal>
    ensures { Answered (file_questions file.now) result (count file.now) }
{
    if !file_fits(file) {
        return Err(Refusal::BadFile);
    }
    let n = usize::from(file[0]);
    if !contents::saved_once(file, 1, 10, n) {
        return Err(Refusal::SavedTwice);
    }
    Ok(n)
}

// The entry with the highest save of a horse's leg: 33, 34, 35. No file has a horse above 65535, or a leg that is not 1 to 6.
pub fn find(file: &[u8], horse: u32, leg: u32) -> Result<Entry, Refusal>
    ensures { Answered (lookup_questions file.now horse leg) result (current horse leg (contents file.now)) }
{
    let n = file_answer(file)?;
    let entry = contents::current(file, n, horse, leg);
    if entry.saved.save == 0 {
        return Err(Refusal::NoSuchLeg);
    }
    Ok(entry)
}

// The current body of a horse's leg, as a part of the file: 33, 34, 35.
pub fn lookup(file: &[u8], horse: u32, leg: u32) -> Result<&[u8], Refusal>
    ensures { Handed (lookup_questions file.now horse leg) file.entry (current horse leg (contents file.now)) result }
{
    let entry = find(file, horse, leg)?;
    // Stays (no plainer): std has no From between u32 and usize, of which usize is the wider one here.
    let start = entry.start as usize;
    Ok(&file[start..start + 32 * usize::from(entry.saved.rows)])
}

// How many bytes the file of so many entries and cells has.
fn file_size(entries: &[u8], rows: &[u16]) -> usize
    requires { length entries.now / 6 ≤ 64 }
    ensures { result ≡ bodies_at (length entries.now / 6) + 2 * length rows.now }
{
    contents::bodies_at(entries.len() / 6) + 2 * rows.len()
}

// Question 33 of a writer.
fn write_fits(entries: &[u8], rows: &[u16], room: usize) -> bool
    ensures { result ≡ write_fits entries.now rows.now room }
{
    entries.len() % 6 == 0
        && entries.len() / 6 <= 64
        && contents::legal_entries(entries, 0, 6, entries.len() / 6)
        && rows.len() == 16 * contents::rows_of(entries)
        && rows::legal_cells(rows, 0, rows.len())
        && file_size(entries, rows) <= room
}

// How many bytes the file will have: 33, 34.
fn write_answer(entries: &[u8], rows: &[u16], room: usize) -> Result<usize, Refusal>
    ensures { Answered (write_questions entries.now rows.now room) result (size_of (saved_in entries.now)) }
{
    if !write_fits(entries, rows, room) {
        return Err(Refusal::BadFile);
    }
    if !contents::saved_once(entries, 0, 6, entries.len() / 6) {
        return Err(Refusal::SavedTwice);
    }
    Ok(file_size(entries, rows))
}

// The contents, behind the first byte.
fn put_contents(out: &mut [u8], entries: &[u8])
    requires { (length entries.now / 6 ≤ 64) × (bodies_at (length entries.now / 6) ≤ length out.old) }
    ensures { out.new ≡ wrote 1 (contents_bytes (saved_in entries.now)) out.old }
{
    let n = entries.len() / 6;
    let mut at = 1;
    // Stays (no plainer): `as` narrows a number whose bound is proved, here and in `write`; `try_from` would give an error that cannot
    // be.
    let mut start = contents::bodies_at(n) as u32;
    for i in 0..n {
        let saved = contents::saved_at(entries, 6 * i);
        at = buffers::word(out, at, &contents::entry_bytes(&Entry { saved, start }));
        start += 32 * u32::from(saved.rows);
    }
}

// A file of these entries (six bytes each: horse, leg, save, rows) and rows at the front of the buffer, and how many bytes it has:
// 33, 34.
pub fn write(entries: &[u8], rows: &[u16], out: &mut [u8]) -> Result<usize, Refusal>
    ensures { WriteCall (write_questions entries.now rows.now (length out.old))
        (writing (size_of (saved_in entries.now)) (file_into (saved_in entries.now) rows.now out.old)) result out.old out.new }
{
    let size = write_answer(entries, rows, out.len())?;
    let n = entries.len() / 6;
    out[0] = n as u8;
    put_contents(out, entries);
    buffers::cells(out, contents::bodies_at(n), rows);
    Ok(size)
}
