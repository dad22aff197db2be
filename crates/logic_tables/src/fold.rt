ghost use Rattle.std.specs.Prelude.{◌≡◌, length, fold, [], ◌∷◌};
ghost use Rattle.logic_tables.specs.Cells.{cell_of, only_cell};
ghost use Rattle.logic_tables.specs.Fold.{gate_value, Takes};
ghost use Rattle.logic_tables.specs.TableFold.{table_fold};

use crate::gates::{and_table, buf_table, not_table, or_table, xor_table};
use crate::kinds::FoldKind;
use crate::table::{Table, index};
use level_range::Logic;

/// The table of two inputs folded over the pins, from `unit`.
fn fold_pins(table: &Table<4, 4>, unit: Logic, pins: &[Logic]) -> Logic
    ensures { result ≡ fold (cell_of table.now.cells) unit pins.now }
{
    let mut value = unit;
    for pin in pins {
        value = two_inputs(table, value, *pin);
    }
    value
}

/// The table of two inputs at two values.
fn two_inputs(table: &Table<4, 4>, a: Logic, b: Logic) -> Logic
    ensures { result ≡ cell_of table.now.cells a b }
{
    table.at(index(a), index(b))
}

/// The table of one input at a value.
fn one_input(table: &Table<4, 1>, pin: Logic) -> Logic
    ensures { result ≡ only_cell table.now.cells pin }
{
    table.at(index(pin), 0)
}

/// The inverted value.
fn invert(value: Logic) -> Logic
    ensures { result ≡ gate_value FoldKind.Not (value ∷ []) }
{
    one_input(&not_table(), value)
}

/// The value of a logic gate: the one Boolean result of all choices for its unknown inputs, or
/// x where there are two (IEEE 1364-2005, 7.2 and 7.3). An input z counts as x.
#[tactic(auto, using(crate::proofs::Images::gate_value_is_table_fold))]
pub fn fold_gate(kind: FoldKind, pins: &[Logic]) -> Logic
    requires { Takes kind (length pins.now) }
    ensures image { result ≡ gate_value kind pins.now }
    ensures table { result ≡ table_fold kind pins.now }
{
    match kind {
        FoldKind::And => fold_pins(&and_table(), Logic::One, pins),
        FoldKind::Nand => invert(fold_pins(&and_table(), Logic::One, pins)),
        FoldKind::Or => fold_pins(&or_table(), Logic::Zero, pins),
        FoldKind::Nor => invert(fold_pins(&or_table(), Logic::Zero, pins)),
        FoldKind::Xor => fold_pins(&xor_table(), Logic::Zero, pins),
        FoldKind::Xnor => invert(fold_pins(&xor_table(), Logic::Zero, pins)),
        FoldKind::Buf => one_input(&buf_table(), pins[0]),
        FoldKind::Not => one_input(&not_table(), pins[0]),
    }
}
