// Inner: called by page. One line, written at a place of a buffer that has room.
// Stays (fixed memory): writers at a place, as those of `buffers`, and digits one by one, since `write!` gives an error that no
// contract rules out.
ghost use Rattle.std.specs.Prelude.{◌≡◌, true, ◌++◌, map, ◌+◌, ◌≤◌, length};
ghost use Rattle.limits.specs.Cells.{legal_cell, legal_row};
ghost use Rattle.buffers.specs.Ascii.{space};
ghost use Rattle.buffers.specs.Buffers.{wrote};
ghost use Rattle.page.specs.Page.{shade, printed, column, number_text, line_text};

use limits::cells::TORN;
use std::array;

// The first cells of shades 1 to 9.
const FIRST_CELLS: [u16; 9] = [410, 820, 1229, 1639, 2048, 2458, 2868, 3277, 3687];

// How many of these are at most the cell.
fn shade(cell: u16) -> u8
    requires { cell ≤ 4095 }
    ensures { (result ≡ shade cell) × (result ≤ 9) }
{
    // Stays (speed): `filter` and `count` are not compiled to vector code.
    let mut shade = 0;
    for first in FIRST_CELLS {
        shade += u8::from(first <= cell);
    }
    shade
}

// What a line has for the cell.
fn printed(cell: u16) -> u8
    requires { legal_cell cell ≡ true }
    ensures { result ≡ printed cell }
{
    if cell == TORN {
        b'-'
    } else {
        b'0' + shade(cell)
    }
}

fn column(n: usize, unit: usize) -> u8
    requires { 1 ≤ unit }
    ensures { result ≡ column n unit }
{
    if n < unit {
        b' '
    } else {
        // Stays (no plainer): `as` narrows a digit, here and in `number`; `try_from` would give an error that cannot be.
        b'0' + (n / unit % 10) as u8
    }
}

// The number and the space behind it.
fn number(out: &mut [u8], at: usize, n: usize)
    requires { at + 6 ≤ length out.old }
    ensures { out.new ≡ wrote at (number_text n ++ space) out.old }
{
    let text = [
        column(n, 10000),
        column(n, 1000),
        column(n, 100),
        column(n, 10),
        b'0' + (n % 10) as u8,
        b' ',
    ];
    out[at..at + 6].copy_from_slice(&text);
}

// A character for each of the row's cells.
fn print_row(out: &mut [u8], at: usize, row: &[u16])
    requires { (length row.now ≡ 16) × (at + 16 ≤ length out.old) × (legal_row row.now ≡ true) }
    ensures { out.new ≡ wrote at (map printed row.now) out.old }
{
    let text: [u8; 16] = array::from_fn(|i| printed(row[i]));
    out[at..at + 16].copy_from_slice(&text);
}

// The line of row n.
pub fn line(out: &mut [u8], at: usize, n: usize, row: &[u16])
    requires { (length row.now ≡ 16) × (at + 23 ≤ length out.old) × (legal_row row.now ≡ true) }
    ensures { out.new ≡ wrote at (line_text n row.now) out.old }
{
    number(out, at, n);
    print_row(out, at + 6, row);
    out[at + 22] = b'\n';
}
