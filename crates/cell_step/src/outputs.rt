ghost use Rattle.std.specs.Prelude.{◌≡◌};
ghost use Rattle.flat_net.specs.Patches.{Fits};
ghost use Rattle.flat_net.specs.declared.kinds.Cell.{Cell};
ghost use Rattle.cell_step.specs.Readings.{IsOutput};
ghost use Rattle.cell_step.specs.Elements.{drive_at, conduct_at};

use crate::elements::conduction;
use crate::pins::stuck_signal;
use crate::states::ElementState;
use flat_net::{Flat, Patch};
use level_range::{Conduct, Range};

/// What an element drives at an output pin, by its number among the outputs: a stuck pin drives St0
/// or St1, and an open switch nothing.
pub fn drive_of(flat: &Flat, e: u32, patch: Patch, pin: u32, state: &ElementState) -> Range
    requires pin { IsOutput flat.now.parts e pin }
    requires patch { Fits flat.now.parts (Cell.Element e) patch }
    ensures { result ≡ drive_at patch pin state.now }
{
    prove!((pin as usize) < flat.element(e).outs.as_slice().len());
    match patch {
        Patch::OutStuck { pin: stuck, value } if stuck == pin => stuck_signal(6, value),
        Patch::Open => Range::new(0, 0),
        _ => state.out,
    }
}

/// What a bidirectional switch conducts: an open one nothing, and a closed one always.
pub fn conduct_of(patch: Patch, state: &ElementState) -> Conduct
    ensures { result ≡ conduct_at patch state.now }
{
    conduction(patch, state.on)
}
