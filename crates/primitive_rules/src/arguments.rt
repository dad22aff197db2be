//! The arguments with which a declared primitive is made.
ghost use Rattle.std.specs.Prelude.{◌≡◌, ◌≢◌, ◌-◌, length, map, IfOk};
ghost use Rattle.std.specs.List.{list_any};
ghost use Rattle.level_range.specs.declared.range.Logic.TheVariants.{Z};
ghost use Rattle.primitive_rules.specs.Arguments.{arguments_of, first_value, has_state, has_reg, is_sequential};
ghost use Rattle.primitive_rules.specs.Ports.{header_names, starts, Start};

use crate::ports::{has_reg, input_count, start_of};
use level_range::Logic;
use std::alloc::{AllocError, Global};
use udp_table::RowList;
use v_tree::{PlacedRow, UdpDecl};

/// What a declaration of a primitive gives to `udp_table::build`: one input less than header ports,
/// whether it has a state, the value with which the state starts, and its rows.
#[derive(Debug, Drop)]
pub struct UdpArguments {
    pub inputs: usize,
    pub sequential: bool,
    pub start: Logic,
    pub rows: RowList,
}

/// Whether the row has a state field.
pub(crate) fn has_state(row: &PlacedRow) -> bool
    ensures { result ≡ has_state row.now }
{
    row.row.state.is_some()
}

/// Whether some row has a state field.
fn has_state_row(rows: &[PlacedRow]) -> bool
    ensures { result ≡ list_any has_state rows.now }
{
    rows.iter().any(|row| has_state(row))
}

/// Whether some row has a state field, or there is a `reg` and no row.
fn is_sequential(udp: &UdpDecl) -> bool
    ensures { result ≡ is_sequential udp.now }
{
    has_state_row(udp.rows.as_slice()) || (udp.rows.is_empty() && has_reg(udp))
}

/// Copies of the rows.
fn row_list(alloc: Global, rows: &[PlacedRow]) -> Result<RowList, AllocError>
    ensures { IfOk result (λ list. list ≡ map (λ r. r.row) rows.now) }
{
    let mut list = Vec::new(alloc);
    for row in rows {
        list.push(row.row.copied(alloc)?)?;
    }
    Ok(RowList::from_vec(list))
}

/// The arguments of a declared primitive (IEEE 1364-2005, 8.1). It is sequential where some row has a
/// state field, or where there is a `reg` and no row. The state starts with x where no start value is
/// written, and where that which is written isn't 0, 1 or x.
pub fn arguments_of(alloc: Global, udp: &UdpDecl) -> Result<UdpArguments, AllocError>
    ensures arguments { IfOk result (λ arguments. arguments ≡ arguments_of udp.now) }
    ensures known { IfOk result (λ arguments. arguments.start ≢ Z) }
{
    Ok(UdpArguments {
        inputs: input_count(&udp.ports),
        sequential: is_sequential(udp),
        start: start_of(udp),
        rows: row_list(alloc, udp.rows.as_slice())?,
    })
}
