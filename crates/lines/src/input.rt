// Inner: called by report. The parts of the trial's input: question 29, the limits, the rows.
ghost use Rattle.std.specs.Prelude.{◌≡◌, ◌<◌, ◌≤◌};
ghost use Rattle.limits.specs.Lists.{tab};
ghost use Rattle.buffers.specs.Bytes.{byte};
ghost use Rattle.lines.specs.Input.{
  row_count,
  event_start,
  readable,
  limits_of,
  cell_at,
};

use limits::Limits;
use std::array;

// Byte `at`, and 0 past the end.
pub fn byte(input: &[u8], at: usize) -> u8
    ensures { result ≡ byte input.now at }
{
    input.get(at).copied().unwrap_or(0)
}

pub fn row_count(input: &[u8]) -> usize
    ensures { (result ≡ row_count input.now) × (result ≤ 255) }
{
    usize::from(byte(input, 6))
}

// Where the events start.
pub fn event_start(input: &[u8]) -> usize
    ensures { result ≡ event_start input.now }
{
    7 + 32 * row_count(input)
}

// Question 29.
pub fn readable(input: &[u8]) -> bool
    ensures { result ≡ readable input.now }
{
    event_start(input) <= input.len() && input.len() <= 40960
}

pub fn limits_of(input: &[u8]) -> Limits
    ensures { result ≡ limits_of input.now }
{
    Limits {
        window: usize::from(byte(input, 0)),
        datalife: u16::from(byte(input, 1)),
        replylife: u16::from(byte(input, 2)),
        replywait: u16::from(byte(input, 3)),
        resendwait: u16::from_le_bytes([byte(input, 4), byte(input, 5)]),
    }
}

fn cell(input: &[u8], i: usize) -> u16
    requires { i < 4080 }
    ensures { result ≡ cell_at input.now i }
{
    u16::from_le_bytes([byte(input, 7 + 2 * i), byte(input, 8 + 2 * i)])
}

// The cells of 255 rows, as many as a row count can ask for.
pub fn supply_of(input: &[u8]) -> [u16; 4080]
    ensures { result ≡ tab 4080 (cell_at input.now) }
{
    array::from_fn(|i| cell(input, i))
}
