// Inner: called by horsefile. What stands in the contents of a file, and in the entries that a writer is handed: n of them, `step`
// bytes apart, the first one at `at`.
ghost use Rattle.std.specs.Prelude.{◌≡◌, ◌+◌, ◌-◌, ◌*◌, ◌/◌, ◌≤◌, not, length, drop};
ghost use Rattle.limits.specs.Cells.{legal_cell};
ghost use Rattle.limits.specs.Lists.{all};
ghost use Rattle.buffers.specs.Bytes.{number2, number4, cells_at};
ghost use Rattle.horsefile.specs.Layout.{
  saved_at,
  entry_at,
  entry_bytes,
  entries_in,
  bodies_at,
  saved_from,
  saved_in,
  rows_of,
};
ghost use Rattle.horsefile.specs.Rules.{legal_entry, without_gaps, same_save, saved_once, supersedes, current};

use crate::{Entry, Saved};

fn number2(bytes: &[u8], at: usize) -> u16
    requires { at + 2 ≤ length bytes.now }
    ensures { result ≡ number2 bytes.now at }
{
    u16::from_le_bytes([bytes[at], bytes[at + 1]])
}

fn number4(bytes: &[u8], at: usize) -> u32
    requires { at + 4 ≤ length bytes.now }
    ensures { result ≡ number4 bytes.now at }
{
    u32::from_le_bytes([bytes[at], bytes[at + 1], bytes[at + 2], bytes[at + 3]])
}

pub fn saved_at(bytes: &[u8], at: usize) -> Saved
    requires { at + 6 ≤ length bytes.now }
    ensures { result ≡ saved_at bytes.now at }
{
    Saved {
        horse: number2(bytes, at),
        leg: bytes[at + 2],
        save: bytes[at + 3],
        rows: number2(bytes, at + 4),
    }
}

fn entry_at(file: &[u8], at: usize) -> Entry
    requires { at + 10 ≤ length file.now }
    ensures { result ≡ entry_at file.now at }
{
    Entry {
        saved: saved_at(file, at),
        start: number4(file, at + 6),
    }
}

// The ten bytes of an entry.
pub fn entry_bytes(entry: &Entry) -> [u8; 10]
    ensures { result ≡ entry_bytes entry.now }
{
    let Saved {
        horse,
        leg,
        save,
        rows,
    } = entry.saved;
    let start = entry.start;
    let [horse0, horse1] = horse.to_le_bytes();
    let [rows0, rows1] = rows.to_le_bytes();
    let [start0, start1, start2, start3] = start.to_le_bytes();
    [
        horse0, horse1, leg, save, rows0, rows1, start0, start1, start2, start3,
    ]
}

// Where the bodies of n entries begin.
pub fn bodies_at(n: usize) -> usize
    requires { n ≤ 64 }
    ensures { result ≡ bodies_at n }
{
    1 + 10 * n
}

fn legal_entry(saved: &Saved) -> bool
    ensures { result ≡ legal_entry saved.now }
{
    1 <= saved.leg && saved.leg <= 6 && 1 <= saved.save
}

// Whether legs and saves are in range.
pub fn legal_entries(bytes: &[u8], at: usize, step: usize, n: usize) -> bool
    requires { (n ≤ 64) × (6 ≤ step) × (step ≤ 10) × (at ≤ 1) × (at + step * n ≤ length bytes.now) }
    ensures { result ≡ all legal_entry (saved_from bytes.now at step n) }
{
    for i in 0..n {
        if !legal_entry(&saved_at(bytes, at + step * i)) {
            return false;
        }
    }
    true
}

fn same_save(a: &Saved, b: &Saved) -> bool
    ensures { result ≡ same_save a.now b.now }
{
    a.horse == b.horse && a.leg == b.leg && a.save == b.save
}

// Whether none of those from number `from` on is the same save.
fn none_same(saved: &Saved, bytes: &[u8], at: usize, step: usize, from: usize, n: usize) -> bool
    requires { (n ≤ 64) × (from ≤ n) × (6 ≤ step) × (step ≤ 10) × (at ≤ 1) × (at + step * n ≤ length bytes.now) }
    ensures { result ≡ all (λ t. not (same_save saved.now t)) (drop from (saved_from bytes.now at step n)) }
{
    for i in from..n {
        if same_save(saved, &saved_at(bytes, at + step * i)) {
            return false;
        }
    }
    true
}

// Whether no horse, leg and save stand there twice.
pub fn saved_once(bytes: &[u8], at: usize, step: usize, n: usize) -> bool
    requires { (n ≤ 64) × (6 ≤ step) × (step ≤ 10) × (at ≤ 1) × (at + step * n ≤ length bytes.now) }
    ensures { result ≡ saved_once (saved_from bytes.now at step n) }
{
    for i in 0..n {
        let saved = saved_at(bytes, at + step * i);
        if !none_same(&saved, bytes, at, step, i + 1, n) {
            return false;
        }
    }
    true
}

// Whether the bodies stand one behind the other up to the file's end.
pub fn without_gaps(file: &[u8], n: usize) -> bool
    requires { (n ≤ 64) × (bodies_at n ≤ length file.now) }
    ensures { result ≡ without_gaps (bodies_at n) (entries_in file.now n) (length file.now) }
{
    let mut end = bodies_at(n);
    for i in 0..n {
        let entry = entry_at(file, 1 + 10 * i);
        // Stays (no plainer): std has no From between u32 and usize, of which usize is the wider one here.
        if entry.start as usize != end {
            return false;
        }
        end += 32 * usize::from(entry.saved.rows);
    }
    end == file.len()
}

// Whether the cells from byte `at` to the end are legal. It leaves at the end only, like the tests of crates/rows, for the same reason.
pub fn legal_bodies(file: &[u8], at: usize) -> bool
    requires { at ≤ length file.now }
    ensures { result ≡ all legal_cell (cells_at file.now at ((length file.now - at) / 2)) }
{
    let mut most = 0;
    for cell in file[at..].chunks_exact(2) {
        most = most.max(limits::cells::level(u16::from_le_bytes([cell[0], cell[1]])));
    }
    most <= limits::cells::LEGAL
}

fn supersedes(saved: &Saved, best: &Saved, horse: u32, leg: u32) -> bool
    ensures { result ≡ supersedes horse leg saved.now best.now }
{
    u32::from(saved.horse) == horse && u32::from(saved.leg) == leg && best.save < saved.save
}

// The entry with the highest save of the horse and leg.
// Stays (no plainer): an entry of save 0 where there is none, since no file has that; an `Option` would be taken apart at each entry.
pub fn current(file: &[u8], n: usize, horse: u32, leg: u32) -> Entry
    requires { (n ≤ 64) × (bodies_at n ≤ length file.now) }
    ensures { result ≡ current horse leg (entries_in file.now n) }
{
    let mut best = Entry {
        saved: Saved {
            horse: 0,
            leg: 0,
            save: 0,
            rows: 0,
        },
        start: 0,
    };
    for i in 0..n {
        let entry = entry_at(file, 1 + 10 * i);
        if supersedes(&entry.saved, &best.saved, horse, leg) {
            best = entry;
        }
    }
    best
}

// How many rows the entries of a writer count.
pub fn rows_of(entries: &[u8]) -> usize
    requires { length entries.now / 6 ≤ 64 }
    ensures { (result ≡ rows_of (saved_in entries.now)) × (result ≤ 4194240) }
{
    let mut rows = 0;
    for i in 0..entries.len() / 6 {
        rows += usize::from(saved_at(entries, 6 * i).rows);
    }
    rows
}
