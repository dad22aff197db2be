ghost use Rattle.std.specs.Prelude.{◌≡◌, ◌∷◌, [], ◌<◌, length, map, fold};
ghost use Rattle.level_range.specs.Signal.{reads};
ghost use Rattle.logic_tables.specs.Cells.{cell_of, index_of, only_cell};
ghost use Rattle.logic_tables.specs.Fold.{gate_value as gate_value_of, Takes};
ghost use Rattle.cell_step.specs.Readings.{AreNetsOf};
ghost use Rattle.cell_step.specs.Elements.{input_signals, input_at};

use crate::pins::read_pin;
use crate::view::View;
use flat_net::{Element, Patch};
use level_range::{Logic, read};
use logic_tables::{FoldKind, Table, and_table, buf_table, not_table, or_table, xor_table};

/// The row or column of a value in a table.
fn index(value: Logic) -> usize
    ensures { result ≡ index_of value }
{
    match value {
        Logic::Zero => 0,
        Logic::One => 1,
        Logic::X => 2,
        Logic::Z => 3,
    }
}

/// The table of two inputs at two values.
fn two_inputs(table: &Table<4, 4>, a: Logic, b: Logic) -> Logic
    ensures { result ≡ cell_of table.now.cells a b }
{
    table.at(index(a), index(b))
}

/// The table of one input at a value.
fn one_input(table: &Table<4, 1>, pin: Logic) -> Logic
    ensures { result ≡ only_cell table.now.cells pin }
{
    table.at(index(pin), 0)
}

/// What the input pin at a place reads as.
pub(crate) fn read_value<V: View>(e: &Element, patch: Patch, place: usize, view: &V) -> Logic
    requires place { place < length e.now.ins }
    requires nets { AreNetsOf (V.netlist view.now).parts e.now.ins }
    ensures { result ≡ reads (input_at (input_signals (V.readings view.now) patch e.now) place) }
{
    read(read_pin(e, patch, place, view))
}

/// The table of two inputs folded over what the input pins read, from `unit`.
fn fold_pins<V: View>(
    table: &Table<4, 4>,
    unit: Logic,
    e: &Element,
    patch: Patch,
    view: &V,
) -> Logic
    requires nets { AreNetsOf (V.netlist view.now).parts e.now.ins }
    ensures { result ≡ fold (cell_of table.now.cells) unit
        (map reads (input_signals (V.readings view.now) patch e.now)) }
{
    let mut value = unit;
    for place in 0..e.ins.as_slice().len() {
        value = two_inputs(table, value, read_value(e, patch, place, view));
    }
    value
}

/// The inverted value.
fn invert(value: Logic) -> Logic
    ensures { result ≡ gate_value_of FoldKind.Not (value ∷ []) }
{
    one_input(&not_table(), value)
}

/// The value of a logic gate on what its input pins read.
#[tactic(auto, using(crate::proofs::GateLemmas::gate_value_is_table_fold))]
pub(crate) fn gate_value<V: View>(kind: FoldKind, e: &Element, patch: Patch, view: &V) -> Logic
    requires pins { Takes kind (length e.now.ins) }
    requires nets { AreNetsOf (V.netlist view.now).parts e.now.ins }
    ensures { result
        ≡ gate_value_of kind (map reads (input_signals (V.readings view.now) patch e.now)) }
{
    match kind {
        FoldKind::And => fold_pins(&and_table(), Logic::One, e, patch, view),
        FoldKind::Nand => invert(fold_pins(&and_table(), Logic::One, e, patch, view)),
        FoldKind::Or => fold_pins(&or_table(), Logic::Zero, e, patch, view),
        FoldKind::Nor => invert(fold_pins(&or_table(), Logic::Zero, e, patch, view)),
        FoldKind::Xor => fold_pins(&xor_table(), Logic::Zero, e, patch, view),
        FoldKind::Xnor => invert(fold_pins(&xor_table(), Logic::Zero, e, patch, view)),
        FoldKind::Buf => one_input(&buf_table(), read_value(e, patch, 0, view)),
        FoldKind::Not => one_input(&not_table(), read_value(e, patch, 0, view)),
    }
}
