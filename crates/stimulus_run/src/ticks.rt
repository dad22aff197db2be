//! The next tick of a run.
ghost use Rattle.std.specs.Prelude.{◌≡◌, ◌≤◌, length};
ghost use Rattle.stimulus_run.specs.Ticks.{time_after as time_after_of, earlier_up_to};

use vector_text::StimulusLine;

/// The first time of the lines that aren't done, and of the end, that is later than a tick.
fn time_after(lines: &[StimulusLine], at: usize, tick: u64, end: u64) -> Option<u64>
    ensures { result ≡ time_after_of lines.now at tick end }
{
    if at < lines.len() {
        Some(lines[at].time)
    } else if tick < end {
        Some(end)
    } else {
        None
    }
}

/// The lesser of that time and of the least due time, where it is no later than the end.
pub(crate) fn next_tick(
    lines: &[StimulusLine],
    at: usize,
    tick: u64,
    due: Option<u64>,
    end: u64,
) -> Option<u64>
    ensures { result ≡ earlier_up_to end (time_after_of lines.now at tick end) due }
{
    let first = match (time_after(lines, at, tick, end), due) {
        (Some(time), Some(due)) => time.min(due),
        (Some(time), None) => time,
        (None, Some(due)) => due,
        (None, None) => return None,
    };
    if first <= end { Some(first) } else { None }
}
