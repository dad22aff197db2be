ghost use Rattle.std.specs.Prelude.{◌≡◌, ◌≢◌, not, IfOk, IfErr, ◌↔◌, IsTrue};
ghost use Rattle.std.specs.List.{position};
ghost use Rattle.level_range.specs.declared.range.Logic.TheVariants.{Z};
ghost use Rattle.udp_table.specs.Primitive.{primitive, IsCount, IsAccepted};
ghost use Rattle.udp_table.specs.Tests.{row_test, edges_test, clash_test};
ghost use Rattle.udp_table.specs.Clashes.{IsFirstPair};
ghost use Rattle.udp_table.specs.Faults.{IsFault, IsEachRefusal};

use crate::clash::rows_clash;
use crate::rows::{RowList, UdpRow};
use crate::udp::Udp;
use crate::well_formed::{has_two_edges, is_well_formed};
use level_range::Logic;
use std::alloc::Global;

/// Why a primitive was refused. Rows are counted from 0.
#[derive(Clone, Copy, Debug, PartialEq, Eq)]
pub enum UdpFault {
    /// It hasn't 1 to 10 inputs.
    TooManyInputs,
    /// A symbol of the row may not stand in its place, or the row has too many or too few.
    BadSymbol(u64),
    /// The row has two edges.
    TwoEdges(u64),
    /// The two rows overlap, and their outputs differ.
    Clash(u64, u64),
    /// Memory ran out.
    Memory,
}

/// The first row that isn't well formed.
fn first_bad(inputs: u8, sequential: bool, rows: &[UdpRow]) -> Option<usize>
    ensures { result ≡ position (λ row. not (row_test inputs sequential row)) rows.now }
{
    rows.iter()
        .position(|row| !is_well_formed(inputs, sequential, row))
}

/// The first row that has two edges.
fn first_with_two_edges(rows: &[UdpRow]) -> Option<usize>
    ensures { result ≡ position edges_test rows.now }
{
    rows.iter().position(|row| has_two_edges(row))
}

/// The first of the later rows with which the row clashes.
fn first_clashing(row: &UdpRow, later: &[UdpRow]) -> Option<usize>
    ensures { result ≡ position (clash_test row.now) later.now }
{
    later.iter().position(|other| rows_clash(row, other))
}

/// The least pair of rows that clash.
fn first_clash(rows: &[UdpRow]) -> Option<(usize, usize)>
    ensures { IsFirstPair rows.now result }
{
    for (i, row) in rows.iter().enumerate() {
        if let Some(distance) = first_clashing(row, &rows[i + 1..]) {
            return Some((i, i + 1 + distance));
        }
    }
    None
}

/// Whether a primitive may have so many inputs.
fn is_count(inputs: u8) -> bool
    ensures { IsTrue result ↔ IsCount inputs }
{
    inputs >= 1 && inputs <= 10
}

/// Makes a primitive, where its parts may be one (IEEE 1364-2005, 8.1). `start` is the value with
/// which the state starts.
///
/// It is refused for the first of these: its number of inputs; the first row in which a symbol may
/// not stand in its place, or which has too many or too few; the first row with two edges; the
/// least pair of rows, least first row, then least second, that overlap and whose outputs differ.
pub fn build(
    alloc: Global,
    inputs: u8,
    sequential: bool,
    start: Logic,
    rows: &RowList,
) -> Result<Udp, UdpFault>
    requires { start ≢ Z }
    ensures kept { IfOk result (λ u. u ≡ primitive inputs sequential start rows.now) }
    ensures accepted { IfOk result (λ u. IsAccepted u) }
    ensures fault { IfErr result (IsFault inputs sequential rows.now) }
    ensures exactly { IsEachRefusal inputs sequential rows.now result }
{
    if !is_count(inputs) {
        return Err(UdpFault::TooManyInputs);
    }
    if let Some(row) = first_bad(inputs, sequential, rows.as_slice()) {
        return Err(UdpFault::BadSymbol(row as u64));
    }
    if let Some(row) = first_with_two_edges(rows.as_slice()) {
        return Err(UdpFault::TwoEdges(row as u64));
    }
    if let Some((i, j)) = first_clash(rows.as_slice()) {
        return Err(UdpFault::Clash(i as u64, j as u64));
    }
    let Ok(rows) = rows.copied(alloc) else {
        return Err(UdpFault::Memory);
    };
    Ok(Udp {
        inputs,
        sequential,
        start,
        rows,
    })
}
