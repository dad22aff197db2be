ghost use Rattle.std.specs.Prelude.{◌≡◌, ◌+◌, ◌<◌, ◌≤◌, length, nat_eq};
ghost use Rattle.level_range.specs.Signal.{IsSignal};
ghost use Rattle.flat_net.specs.Patches.{first_input as first_input_of};
ghost use Rattle.cell_step.specs.Readings.{AreNetsOf};
ghost use Rattle.cell_step.specs.Elements.{bit_value as bit_value_of, stuck_signal as stuck_signal_of, input_stuck as input_stuck_of, input_signals, input_at};

use crate::view::View;
use flat_net::{Element, Patch};
use level_range::{Logic, Range, span};

/// 1 or 0.
pub(crate) fn bit_value(value: bool) -> Logic
    ensures { result ≡ bit_value_of value }
{
    if value { Logic::One } else { Logic::Zero }
}

/// The signal of what is stuck at 1 or 0 with a strength.
pub(crate) fn stuck_signal(strength: u8, value: bool) -> Range
    requires { strength ≤ 7 }
    ensures { result ≡ stuck_signal_of strength value }
{
    span(bit_value(value), strength, strength)
}

/// The number of the first input pin: inputs follow the ends and the outputs.
pub(crate) fn first_input(e: &Element) -> usize
    ensures { result ≡ first_input_of e.now }
{
    let ends = if e.ends.is_some() { 2 } else { 0 };
    ends + e.outs.as_slice().len()
}

/// Whether a pin is the input at a place.
fn is_input(e: &Element, pin: u32, place: usize) -> bool
    ensures { result ≡ nat_eq pin (first_input_of e.now + place) }
{
    let pin = pin as usize;
    let first = first_input(e);
    first <= pin && pin - first == place
}

/// At what the input at a place is stuck.
fn input_stuck(e: &Element, patch: Patch, place: usize) -> Option<bool>
    ensures { result ≡ input_stuck_of patch (first_input_of e.now + place) }
{
    match patch {
        Patch::InStuck { pin, value } if is_input(e, pin, place) => Some(value),
        _ => None,
    }
}

/// What the input pin at a place among the inputs reads.
#[tactic(auto, using(crate::proofs::PinLemmas::input_at_is))]
pub(crate) fn read_pin<V: View>(e: &Element, patch: Patch, place: usize, view: &V) -> Range
    requires place { place < length e.now.ins }
    requires nets { AreNetsOf (V.netlist view.now).parts e.now.ins }
    ensures value { result ≡ input_at (input_signals (V.readings view.now) patch e.now) place }
    ensures signal { IsSignal result }
{
    match input_stuck(e, patch, place) {
        Some(value) => stuck_signal(6, value),
        None => view.seen(e.ins.as_slice()[place]),
    }
}
