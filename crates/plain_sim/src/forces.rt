//! Inputs in force, by the numbers of nets.
ghost use Rattle.std.specs.Prelude.{◌≡◌, IfOk, length, replicate};
ghost use Rattle.level_range.specs.Signal.{undriven};
ghost use Rattle.flat_net.specs.Soundness.{AreDistinctNets};
ghost use Rattle.plain_sim.specs.Lists.{AreForcedBy, AreUndrivenElsewhere};

use level_range::Range;
use std::alloc::{AllocError, Global};

/// So many signals z.
pub(crate) fn undriven_signals(alloc: Global, count: usize) -> Result<Vec<Range>, AllocError>
    ensures { IfOk result (λ v. v.items ≡ replicate count undriven) }
{
    vec![in alloc; Range::new(0, 0); count]
}

/// Puts the input in force at each input net to the place of the net.
pub(crate) fn force_inputs(nets: &[u32], inputs: &[Range], forced: &mut [Range])
    requires nets { AreDistinctNets (length forced.old) nets.now }
    requires inputs { length inputs.now ≡ length nets.now }
    requires others { AreUndrivenElsewhere nets.now forced.old }
    ensures { AreForcedBy nets.now inputs.now forced.new }
{
    for (k, net) in nets.iter().enumerate() {
        forced[*net as usize] = inputs[k];
    }
}
