ghost use Rattle.std.specs.Prelude.{◌≡◌, ◌≢◌, ◌≤◌, ◌++◌, [], false, true, length, drop, take, All};
ghost use Rattle.level_range.specs.declared.range.Logic.TheVariants.{Z};
ghost use Rattle.udp_table.specs.LookUp.{level_value, state_after as state_after_of};
ghost use Rattle.cell_step.specs.Readings.{AreNetsOf};
ghost use Rattle.cell_step.specs.Elements.{known as known_of, input_signals, primitive_inputs, primitive_value as primitive_value_of, remember};
ghost use Rattle.cell_step.specs.Fitting.{IsKnown};

use crate::gates::read_value;
use crate::states::ElementState;
use crate::view::View;
use flat_net::{Element, Patch};
use level_range::Logic;
use udp_table::{Udp, after_changes, level};

/// A value at a primitive's input, where z counts as x.
fn known(value: Logic) -> Logic
    ensures { result ≡ known_of value }
{
    match value {
        Logic::Z => Logic::X,
        other => other,
    }
}

/// The values at a primitive's inputs, in front of what else is in the array.
fn read_inputs<V: View>(e: &Element, patch: Patch, view: &V, seen: [Logic; 10]) -> [Logic; 10]
    requires few { length e.now.ins ≤ 10 }
    requires nets { AreNetsOf (V.netlist view.now).parts e.now.ins }
    ensures { result
        ≡ primitive_inputs (input_signals (V.readings view.now) patch e.now)
        ++ drop (length e.now.ins) seen }
{
    let mut values = seen;
    for place in 0..e.ins.as_slice().len() {
        values[place] = known(read_value(e, patch, place, view));
    }
    values
}

/// The value of a combinational primitive at the first of the values.
fn level_at(udp: &Udp, count: usize, values: [Logic; 10]) -> Logic
    requires combinational { udp.now.sequential ≡ false }
    requires few { count ≤ 10 }
    requires width { count ≡ udp.now.inputs }
    requires known { All (λ v. v ≢ Z) (take count values) }
    ensures { result ≡ level_value udp.now.rows (take count values) }
{
    level(udp, &values[..count])
}

/// The state of a sequential primitive after the first of the values have come in place of those
/// that were seen.
fn state_after(
    udp: &Udp,
    count: usize,
    seen: [Logic; 10],
    values: [Logic; 10],
    state: Logic,
) -> Logic
    requires sequential { udp.now.sequential ≡ true }
    requires few { count ≤ 10 }
    requires width { count ≡ udp.now.inputs }
    requires seen { All (λ v. v ≢ Z) (take count seen) }
    requires known { All (λ v. v ≢ Z) (take count values) }
    requires state { state ≢ Z }
    ensures value { result
        ≡ state_after_of udp.now.rows [] (take count seen) (take count values) state }
    ensures known { result ≢ Z }
{
    after_changes(udp, &seen[..count], &values[..count], state)
}

/// The value of a primitive on what its input pins read. A sequential one goes on from what it
/// remembers, and remembers its state and these inputs.
pub(crate) fn primitive_value<V: View>(
    udp: &Udp,
    e: &Element,
    patch: Patch,
    view: &V,
    state: &mut ElementState,
) -> Logic
    requires inputs { udp.now.inputs ≡ length e.now.ins }
    requires nets { AreNetsOf (V.netlist view.now).parts e.now.ins }
    requires seen { length state.old.seen ≡ 10 }
    requires known { IsKnown udp.now state.old }
    ensures value { result
        ≡ primitive_value_of udp.now state.old
        (primitive_inputs (input_signals (V.readings view.now) patch e.now)) }
    ensures state { state.new
        ≡ remember udp.now
        (primitive_inputs (input_signals (V.readings view.now) patch e.now)) state.old }
    ensures seen { length state.new.seen ≡ 10 }
    ensures known { IsKnown udp.now state.new }
{
    let count = udp.inputs() as usize;
    let seen = state.seen;
    let values = read_inputs(e, patch, view, seen);
    if udp.sequential() {
        let value = state_after(udp, count, seen, values, state.state);
        state.state = value;
        state.seen = values;
        value
    } else {
        level_at(udp, count, values)
    }
}
