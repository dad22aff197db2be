//! The lines of a stimulus, taken over tick by tick.
ghost use Rattle.std.specs.Prelude.{◌≡◌, ◌&&◌, List, Option, length, nat_eq, AllPairs};
ghost use Rattle.std.specs.Option.{option_map, option_or};
ghost use Rattle.level_range.specs.declared.range.Logic.{Logic as AnyLogic};
ghost use Rattle.flat_net.specs.Soundness.{AreDistinctNets};
ghost use Rattle.plain_sim.specs.Lists.{AreForcedBy, AreUndrivenElsewhere};
ghost use Rattle.vector_text.specs.Lawful.{HasWidth, MayFollow};
ghost use Rattle.vector_text.specs.Written.{is_strobe};
ghost use Rattle.stimulus_run.specs.Inputs.{values_of, listed_signals, strobe_at};
ghost use Rattle.stimulus_run.specs.Lines.{AreBefore, AreUpTo, AreForcedByLines, HaveWidths, DoTimesRise};

use crate::inputs::drive_inputs;
use level_range::Range;
use vector_text::{Stimulus, StimulusLine, StimulusWhat};

/// Takes over what a line does: its values come into force, or those before it stay.
fn take_line(nets: &[u32], what: &StimulusWhat, outputs: usize, forced: &mut [Range])
    requires nets { AreDistinctNets (length forced.old) nets.now }
    requires width { HasWidth (length nets.now) outputs what.now }
    requires others { AreUndrivenElsewhere nets.now forced.old }
    ensures { (before : Option (List AnyLogic))
        → AreForcedBy nets.now (listed_signals (length nets.now) before) forced.old
        → AreForcedBy nets.now (listed_signals (length nets.now)
        (option_or (values_of what.now) before)) forced.new }
{
    match what {
        StimulusWhat::Values(values) => drive_inputs(nets, values.as_slice(), forced),
        StimulusWhat::Strobe | StimulusWhat::Expect(_) => {}
    }
}

/// Takes over the lines up to a tick, where the first lines before it are done: the last values stay
/// in force. The answer says how many lines are done then.
pub(crate) fn take_lines(stimulus: &Stimulus, done: usize, tick: u64, forced: &mut [Range]) -> usize
    requires nets { AreDistinctNets (length forced.old) stimulus.now.inputs }
    requires widths { HaveWidths stimulus.now }
    requires order { DoTimesRise stimulus.now.lines }
    requires before { AreBefore stimulus.now.lines done tick }
    requires forced { AreForcedByLines stimulus.now done forced.old }
    ensures lines { AreUpTo stimulus.now.lines result tick }
    ensures forced { AreForcedByLines stimulus.now result forced.new }
{
    let lines = stimulus.lines.as_slice();
    let nets = stimulus.inputs.as_slice();
    let outputs = stimulus.outputs.as_slice().len();
    let mut at = done;
    'lines: while at < lines.len() && lines[at].time <= tick {
        take_line(nets, &lines[at].what, outputs, forced);
        at += 1;
    }
    at
}

/// Whether a line reads the outputs.
fn is_read(what: &StimulusWhat) -> bool
    ensures { result ≡ is_strobe what.now }
{
    match what {
        StimulusWhat::Values(_) => false,
        StimulusWhat::Strobe | StimulusWhat::Expect(_) => true,
    }
}

/// Whether a line reads the outputs at a tick.
fn reads_at(line: &StimulusLine, tick: u64) -> bool
    ensures { result ≡ nat_eq line.now.time tick && is_strobe line.now.what }
{
    line.time == tick && is_read(&line.what)
}

/// What the last of the first lines reads of the outputs at a tick, where these are the lines up to
/// it.
pub(crate) fn strobe_line(lines: &[StimulusLine], done: usize, tick: u64) -> Option<&StimulusWhat>
    requires order { AllPairs (λ a b. MayFollow a.what a.time b.what b.time) lines.now }
    requires done { AreUpTo lines.now done tick }
    ensures { option_map (λ what. what.now) result ≡ strobe_at lines.now tick }
{
    if done == 0 {
        return None;
    }
    let line = &lines[done - 1];
    if reads_at(line, tick) {
        Some(&line.what)
    } else {
        None
    }
}
