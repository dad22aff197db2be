ghost use Rattle.std.specs.Prelude.{◌≡◌, ◌<◌};
ghost use Rattle.udp_table.specs.Symbols.{base_has, base_of, has_value as value_in, has_change as change_in, is_change};
ghost use Rattle.udp_table.specs.Tables.{row_of, HasChangeOfRow};

use crate::symbols::{Base, Sym};
use crate::tables::{edge_table, value_table};
use level_range::Logic;

/// The row of a symbol in the table of values.
fn value_row(symbol: Base) -> usize
    ensures { result ≡ row_of symbol }
{
    match symbol {
        Base::Zero => 0,
        Base::One => 1,
        Base::X => 2,
        Base::Any => 3,
        Base::Both => 4,
    }
}

/// Whether the value is among those of a symbol for values.
fn base_has_value(symbol: Base, value: Logic) -> bool
    ensures { result ≡ base_has symbol value }
{
    let table = value_table();
    match value {
        Logic::Zero => table.at(value_row(symbol), 0),
        Logic::One => table.at(value_row(symbol), 1),
        Logic::X => table.at(value_row(symbol), 2),
        Logic::Z => false,
    }
}

/// The symbol as one for values, where it is one.
pub fn as_base(symbol: Sym) -> Option<Base>
    ensures { result ≡ base_of symbol }
{
    match symbol {
        Sym::Zero => Some(Base::Zero),
        Sym::One => Some(Base::One),
        Sym::X => Some(Base::X),
        Sym::Any => Some(Base::Any),
        Sym::Both => Some(Base::Both),
        _ => None,
    }
}

/// Whether the value is among those of a symbol.
pub fn has_value(symbol: Sym, value: Logic) -> bool
    ensures { result ≡ value_in symbol value }
{
    match as_base(symbol) {
        Some(base) => base_has_value(base, value),
        None => false,
    }
}

/// Whether the change is among those of a row of the table of changes.
fn row_has_change(row: usize, was: Logic, now: Logic) -> bool
    requires { row < 5 }
    ensures { HasChangeOfRow row was now result }
{
    let table = edge_table();
    match (was, now) {
        (Logic::Zero, Logic::One) => table.at(row, 0),
        (Logic::Zero, Logic::X) => table.at(row, 1),
        (Logic::One, Logic::Zero) => table.at(row, 2),
        (Logic::One, Logic::X) => table.at(row, 3),
        (Logic::X, Logic::Zero) => table.at(row, 4),
        (Logic::X, Logic::One) => table.at(row, 5),
        _ => false,
    }
}

/// Whether this is a change: from 0, 1 or x to another of them.
fn any_change(was: Logic, now: Logic) -> bool
    ensures { result ≡ is_change was now }
{
    row_has_change(4, was, now)
}

/// Whether the change is among those of a symbol.
pub fn has_change(symbol: Sym, was: Logic, now: Logic) -> bool
    ensures { result ≡ change_in symbol was now }
{
    match symbol {
        Sym::Rise => row_has_change(0, was, now),
        Sym::Fall => row_has_change(1, was, now),
        Sym::Pos => row_has_change(2, was, now),
        Sym::Neg => row_has_change(3, was, now),
        Sym::Change => row_has_change(4, was, now),
        Sym::Edge(from, to) => {
            base_has_value(from, was) && base_has_value(to, now) && any_change(was, now)
        }
        _ => false,
    }
}
