ghost use Rattle.std.specs.Prelude.{◌≡◌};
ghost use Rattle.std.specs.List.{list_all};
ghost use Rattle.udp_table.specs.Rows.{is_edge as edge_symbol};
ghost use Rattle.udp_table.specs.Tests.{value_test, change_test, input_test, state_test, output_test, row_test, edges_test};

use crate::rows::UdpRow;
use crate::symbols::{Base, Sym};
use crate::values::as_base;

/// Whether the symbol has a value.
pub fn is_value_symbol(symbol: Sym) -> bool
    ensures { result ≡ value_test symbol }
{
    as_base(symbol).is_some()
}

/// Whether the symbol contains a change.
fn contains_change(symbol: Sym) -> bool
    ensures { result ≡ change_test symbol }
{
    match symbol {
        Sym::Rise | Sym::Fall | Sym::Pos | Sym::Neg | Sym::Change => true,
        Sym::Edge(Base::Zero, Base::Zero)
        | Sym::Edge(Base::One, Base::One)
        | Sym::Edge(Base::X, Base::X) => false,
        Sym::Edge(_, _) => true,
        _ => false,
    }
}

/// Whether the symbol may stand at an input.
fn is_input(sequential: bool, symbol: Sym) -> bool
    ensures { result ≡ input_test sequential symbol }
{
    is_value_symbol(symbol) || (sequential && contains_change(symbol))
}

/// Whether each symbol may stand at an input.
fn are_inputs(sequential: bool, symbols: &[Sym]) -> bool
    ensures { result ≡ list_all (input_test sequential) symbols.now }
{
    symbols.iter().all(|symbol| is_input(sequential, *symbol))
}

/// Whether the state field may be such.
fn is_state(sequential: bool, state: Option<Sym>) -> bool
    ensures { result ≡ state_test sequential state }
{
    match state {
        None => !sequential,
        Some(symbol) => sequential && is_value_symbol(symbol),
    }
}

/// Whether the symbol may stand at the output.
fn is_output(sequential: bool, symbol: Sym) -> bool
    ensures { result ≡ output_test sequential symbol }
{
    match symbol {
        Sym::Zero | Sym::One | Sym::X => true,
        Sym::Same => sequential,
        _ => false,
    }
}

/// Whether each symbol of the row may stand in its place, and there is one for each input.
pub fn is_well_formed(inputs: u8, sequential: bool, row: &UdpRow) -> bool
    ensures { result ≡ row_test inputs sequential row.now }
{
    row.ins.as_slice().len() == usize::from(inputs)
        && are_inputs(sequential, row.ins.as_slice())
        && is_state(sequential, row.state)
        && is_output(sequential, row.out)
}

/// Whether the symbol is an edge.
fn is_edge(symbol: Sym) -> bool
    ensures { result ≡ edge_symbol symbol }
{
    matches!(
        symbol,
        Sym::Rise | Sym::Fall | Sym::Pos | Sym::Neg | Sym::Change | Sym::Edge(_, _)
    )
}

/// Whether the row has two edges or more.
pub fn has_two_edges(row: &UdpRow) -> bool
    ensures { result ≡ edges_test row.now }
{
    row.ins
        .as_slice()
        .iter()
        .filter(|symbol| is_edge(**symbol))
        .count()
        > 1
}
