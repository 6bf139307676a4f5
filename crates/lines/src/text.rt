// Inner: called by report. Each function writes at a place of a buffer that has room, and gives the place behind.
// Stays (fixed memory): the text goes into a lent buffer, and `write!` into one gives an error that no contract rules out.
ghost use Rattle.std.specs.Prelude.{◌+◌, ◌*◌, ◌≤◌, ◌<◌, ◌++◌, length};
ghost use Rattle.lines.specs.Text.{
  decimal,
  event_line,
  event_lines,
  counts_line,
  refused_line,
};
ghost use Rattle.buffers.specs.Buffers.{Wrote};

// Decimal, without leading zeros.
pub fn number(buffer: &mut [u8], at: usize, n: u8) -> usize
    requires { at + 3 ≤ length buffer.old }
    ensures { Wrote at (decimal n) buffer.old buffer.new result }
{
    if n < 10 {
        buffers::word(buffer, at, &[b'0' + n])
    } else if n < 100 {
        buffers::word(buffer, at, &[b'0' + n / 10, b'0' + n % 10])
    } else {
        buffers::word(
            buffer,
            at,
            &[b'0' + n / 100, b'0' + n / 10 % 10, b'0' + n % 10],
        )
    }
}

// A number, and what stands behind it.
fn field(buffer: &mut [u8], at: usize, n: u8, text: &[u8]) -> usize
    requires { at + 3 + length text.now ≤ length buffer.old }
    ensures { Wrote at (decimal n ++ text.now) buffer.old buffer.new result }
{
    let next = number(buffer, at, n);
    buffers::word(buffer, next, text)
}

// Stays (no plainer): the bytes are printed as they came, those of unknown kinds too.
pub fn event_line(buffer: &mut [u8], at: usize, kind: u8, argument: u8, answer: u8) -> usize
    requires { at + 12 ≤ length buffer.old }
    ensures { Wrote at (event_line kind argument answer) buffer.old buffer.new result }
{
    let second = field(buffer, at, kind, b" ");
    let third = field(buffer, second, argument, b" ");
    field(buffer, third, answer, b"\n")
}

// A line for each two bytes of events, with its answer.
pub fn event_lines(buffer: &mut [u8], at: usize, events: &[u8], answers: &[u8]) -> usize
    requires { (length events.now ≤ 2 * length answers.now) × (at + 6 * length events.now ≤ length buffer.old) }
    ensures { Wrote at (event_lines events.now answers.now) buffer.old buffer.new result }
{
    let mut next = at;
    for (event, answer) in events.chunks_exact(2).zip(answers) {
        next = event_line(buffer, next, event[0], event[1], *answer);
    }
    next
}

pub fn counts_line(buffer: &mut [u8], at: usize, sent: u8, acknowledged: u8, recorded: u8) -> usize
    requires { at + 40 ≤ length buffer.old }
    ensures { Wrote at (counts_line sent acknowledged recorded) buffer.old buffer.new result }
{
    let first = buffers::word(buffer, at, b"sent ");
    let second = field(buffer, first, sent, b" acknowledged ");
    let third = field(buffer, second, acknowledged, b" recorded ");
    field(buffer, third, recorded, b"\n")
}

pub fn refused_line(buffer: &mut [u8], at: usize, n: u8) -> usize
    requires { at + 12 ≤ length buffer.old }
    ensures { Wrote at (refused_line n) buffer.old buffer.new result }
{
    let next = buffers::word(buffer, at, b"refused ");
    field(buffer, next, n, b"\n")
}
