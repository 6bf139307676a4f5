// Inner: called by exports_c. A horse's file for programs in C.
#![tactic(auto)]

ghost use Rattle.std.specs.Prelude.{length};
ghost use Rattle.buffers.specs.Buffers.{writing, WriteNumber};
ghost use Rattle.horsefile.specs.Layout.{contents, saved_in, size_of, file_into};
ghost use Rattle.horsefile.specs.Rules.{current, lookup_questions, write_questions};
ghost use Rattle.horsefile.specs.Calls.{body_place, PlaceNumber};

// 33, 34, 35. Where the body stands and how many bytes it has, or 0 and 0.
// Stays (C interface): the number and the place go out apart.
pub fn lookup(file: &[u8], horse: u32, leg: u32, start: &mut u64, size: &mut u64) -> u8
    ensures { PlaceNumber (lookup_questions file.now horse leg) (body_place (current horse leg (contents file.now)))
        start.new size.new result }
{
    let found = horsefile::find(file, horse, leg);
    (*start, *size) = match &found {
        Ok(entry) => (u64::from(entry.start), 32 * u64::from(entry.saved.rows)),
        Err(_) => (0, 0),
    };
    limits::answer::number(&found)
}

// 33, 34. `count` gets the bytes written, or 0.
// Stays (C interface): the number and the count go out apart.
pub fn write(entries: &[u8], rows: &[u16], buffer: &mut [u8], count: &mut u64) -> u8
    ensures { WriteNumber (write_questions entries.now rows.now (length buffer.old))
        (writing (size_of (saved_in entries.now)) (file_into (saved_in entries.now) rows.now buffer.old))
        buffer.old buffer.new count.new result }
{
    let written = horsefile::write(entries, rows, buffer);
    *count = written.unwrap_or(0) as u64;
    limits::answer::number(&written)
}
