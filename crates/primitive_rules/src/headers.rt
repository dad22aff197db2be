//! The rule on the headers of primitives.
ghost use Rattle.std.specs.Prelude.{◌≡◌, not, IfOk, if◌then◌else◌};
ghost use Rattle.std.specs.List.{list_any};
ghost use Rattle.primitive_rules.specs.Arguments.{has_state};
ghost use Rattle.primitive_rules.specs.Headers.{breaks_header, breaks_rows};

use crate::arguments::has_state;
use crate::directions::{breaks_directions, breaks_first, breaks_others};
use crate::ports::has_reg;
use crate::states::{breaks_regs, breaks_starts};
use std::alloc::{AllocError, Global};
use v_tree::{PlacedRow, UdpDecl};

/// Whether some row has no state field though it needs one, or has one though it needs none.
fn has_wrong_row(is_sequential: bool, rows: &[PlacedRow]) -> bool
    ensures { result ≡ list_any
        (λ r. if is_sequential then not (has_state r) else has_state r) rows.now }
{
    rows.iter().any(|row| has_state(row) != is_sequential)
}

/// Whether the state fields don't go with the `reg`.
fn breaks_rows(udp: &UdpDecl) -> bool
    ensures { result ≡ breaks_rows udp.now }
{
    has_wrong_row(has_reg(udp), udp.rows.as_slice())
}

/// Whether the header of a primitive is wrong (IEEE 1364-2005, 8.1).
pub fn breaks_header(alloc: Global, udp: &UdpDecl) -> Result<bool, AllocError>
    ensures { IfOk result (λ broken. broken ≡ breaks_header udp.now) }
{
    let directions = breaks_directions(alloc, udp)?;
    let others = breaks_others(alloc, udp)?;
    Ok(
        directions
            || breaks_first(udp)
            || others
            || breaks_regs(udp)
            || breaks_starts(udp)
            || breaks_rows(udp),
    )
}
