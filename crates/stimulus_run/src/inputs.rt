//! The inputs in force, by the lines of a stimulus.
ghost use Rattle.std.specs.Prelude.{◌≡◌, ◌≤◌, All, ◌<◌, IfOk, length, map, replicate, slice_index_or};
ghost use Rattle.level_range.specs.declared.range.Logic.TheVariants.{X};
ghost use Rattle.level_range.specs.Signal.{undriven};
ghost use Rattle.flat_net.specs.Soundness.{AreDistinctNets};
ghost use Rattle.plain_sim.specs.Lists.{AreForcedBy, AreUndrivenElsewhere};
ghost use Rattle.stimulus_run.specs.Inputs.{driven_signal as driven_signal_of};

use level_range::{Logic, Range, span};
use std::alloc::{AllocError, Global};

/// Drives the inputs of a stimulus with values, each at the place of its net.
pub(crate) fn drive_inputs(nets: &[u32], values: &[Logic], forced: &mut [Range])
    requires nets { AreDistinctNets (length forced.old) nets.now }
    requires values { length values.now ≡ length nets.now }
    requires others { AreUndrivenElsewhere nets.now forced.old }
    ensures { AreForcedBy nets.now (map driven_signal_of values.now) forced.new }
{
    for (k, net) in nets.iter().enumerate() {
        forced[*net as usize] = span(values[k], 6, 6);
    }
}

/// Puts the signal at each input net of a netlist to the place of the input.
pub(crate) fn gather_inputs(nets: &[u32], forced: &[Range], inputs: &mut [Range])
    requires nets { All (λ net. net < length forced.now) nets.now }
    requires inputs { length inputs.old ≡ length nets.now }
    ensures { inputs.new ≡ map (λ net. slice_index_or forced.now net undriven) nets.now }
{
    for (k, net) in nets.iter().enumerate() {
        inputs[k] = forced[*net as usize];
    }
}

/// So many signals z.
pub(crate) fn undriven_signals(alloc: Global, count: usize) -> Result<Vec<Range>, AllocError>
    ensures { IfOk result (λ v. v.items ≡ replicate count undriven) }
{
    vec![in alloc; Range::new(0, 0); count]
}

/// So many values x.
pub(crate) fn unknown_values(alloc: Global, count: usize) -> Result<Vec<Logic>, AllocError>
    ensures { IfOk result (λ v. v.items ≡ replicate count X) }
{
    vec![in alloc; Logic::X; count]
}
