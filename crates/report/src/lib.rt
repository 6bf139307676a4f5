// The trial as a function from its input to the text that it prints.
#![tactic(auto)]

ghost use Rattle.std.specs.Prelude.{◌≤◌, ◌++◌, length};
ghost use Rattle.buffers.specs.Buffers.{Wrote};
ghost use Rattle.lines.specs.Text.{event_lines, counts_line};
ghost use Rattle.report.specs.Report.{output_length, text_of, Room, Ridden, Reports};

use events::Counts;
use limits::answer::Refusal;

// The lines of the events and that of the counts.
fn lines_of(output: &mut [u8], events: &[u8], answers: &[u8], counts: Counts) -> usize
    requires { Room output.old events.now answers.now counts }
    ensures { Wrote 0 (event_lines events.now answers.now
        ++ counts_line counts.sent counts.acknowledged counts.recorded) output.old output.new result }
{
    let next = lines::text::event_lines(output, 0, events, answers);
    // Stays (no plainer): each `as` narrows a number whose bound is proved; `try_from` would give an error that cannot be.
    let sent = counts.sent as u8;
    let acknowledged = counts.acknowledged as u8;
    let recorded = counts.recorded as u8;
    lines::text::counts_line(output, next, sent, acknowledged, recorded)
}

// The ride that the input asks for, and its lines: 29, then the questions of the ride.
fn ridden(input: &[u8], output: &mut [u8]) -> Result<usize, Refusal>
    requires { output_length ≤ length output.old }
    ensures { Ridden input.now output.old output.new result }
{
    if !lines::input::readable(input) {
        return Err(Refusal::BadInputLength);
    }
    let asked = lines::input::limits_of(input);
    let start = lines::input::event_start(input);
    let cells = 16 * lines::input::row_count(input);
    let supply = lines::input::supply_of(input);
    let mut record = [0; 4080];
    let mut answers = [0; 20480];
    let counts = ride::ride(
        asked,
        &input[start..],
        &supply[..cells],
        &mut record[..cells],
        &mut answers,
    )?;
    Ok(lines_of(output, &input[start..], &answers, counts))
}

fn text(input: &[u8], output: &mut [u8]) -> usize
    requires { output_length ≤ length output.old }
    ensures { Wrote 0 (text_of input.now) output.old output.new result }
{
    match ridden(input, output) {
        Ok(count) => count,
        Err(refusal) => lines::text::refused_line(output, 0, u8::from(refusal)),
    }
}

// What the trial prints for this input, at the front of the output, and how many bytes it has: 28.
pub fn report(input: &[u8], output: &mut [u8]) -> Result<usize, Refusal>
    ensures { Reports input.now output.old output.new result }
{
    if output.len() < 245760 {
        return Err(Refusal::ShortBuffer);
    }
    Ok(text(input, output))
}
