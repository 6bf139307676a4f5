// A horse's file for programs in C.
ghost use Rattle.std.specs.Prelude.{length};
ghost use Rattle.buffers.specs.Buffers.{writing, WriteNumber};
ghost use Rattle.horsefile.specs.Layout.{contents, saved_in, size_of, file_into};
ghost use Rattle.horsefile.specs.Rules.{current, lookup_questions, write_questions};
ghost use Rattle.horsefile.specs.Calls.{body_place, PlaceNumber};

#[unsafe(no_mangle)]
pub extern "C" fn matlink_file_lookup(
    file: &[u8],
    horse: u32,
    leg: u32,
    start: &mut u64,
    length: &mut u64,
) -> u8
    ensures { PlaceNumber (lookup_questions file.now horse leg) (body_place (current horse leg (contents file.now)))
        start.new «length».new result }
{
    cfiles::lookup(file, horse, leg, start, length)
}

#[unsafe(no_mangle)]
pub extern "C" fn matlink_file_write(
    entries: &[u8],
    rows: &[u16],
    buffer: &mut [u8],
    count: &mut u64,
) -> u8
    ensures { WriteNumber (write_questions entries.now rows.now (length buffer.old))
        (writing (size_of (saved_in entries.now)) (file_into (saved_in entries.now) rows.now buffer.old))
        buffer.old buffer.new count.new result }
{
    cfiles::write(entries, rows, buffer, count)
}
