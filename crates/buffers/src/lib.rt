// Inner: called by frames, lines and horsefile. Bytes written into a lent buffer: what the buffer then holds. Writers answer with
// the count, or with a refusal (`WriteCall`).
// Stays (no plainer): a writer takes the whole buffer and a place, and not the rest behind it, since it promises the whole buffer.
#![tactic(auto)]

ghost use Rattle.std.specs.Prelude.{◌≡◌, ◌+◌, ◌*◌, ◌≤◌, length};
ghost use Rattle.buffers.specs.Buffers.{wrote, Wrote};
ghost use Rattle.buffers.specs.Bytes.{cell_bytes};

// Writes `text` at a place of a buffer that has room, and gives the place behind it.
pub fn word(buffer: &mut [u8], at: usize, text: &[u8]) -> usize
    requires { at + length text.now ≤ length buffer.old }
    ensures { Wrote at text.now buffer.old buffer.new result }
{
    let end = at + text.len();
    buffer[at..end].copy_from_slice(text);
    end
}

// Writes cells at a place of a buffer that has room, each low byte first.
pub fn cells(buffer: &mut [u8], at: usize, cells: &[u16])
    requires { at + 2 * length cells.now ≤ length buffer.old }
    ensures { buffer.new ≡ wrote at (cell_bytes cells.now) buffer.old }
{
    for (i, cell) in cells.iter().enumerate() {
        let [low, high] = cell.to_le_bytes();
        buffer[at + 2 * i] = low;
        buffer[at + 2 * i + 1] = high;
    }
}
