ghost use Rattle.std.specs.Prelude.{◌≡◌, ◌<◌, ◌≤◌, ◌+◌, ◌^◌, [], ◌∷◌, length, Some, None, MatchOption, IfOk};
ghost use Rattle.first_vectors.specs.Fields.{fields_of, table_of};
ghost use Rattle.gate_net.specs.Steps.{Gives};
ghost use Rattle.first_vectors.specs.Reading.{value_of, values_of, end_row, value_row, row_of, rows_of, time_at};

use crate::fields::{line_at, time_in, two_fields};
use crate::row::Row;
use gate_net::{BuildFault, LogicList, ValueLine};
use level_range::Logic;
use std::alloc::Global;

fn value_in(byte: u8) -> Option<Logic>
    ensures { result ≡ value_of byte }
{
    match byte {
        b'0' => Some(Logic::Zero),
        b'1' => Some(Logic::One),
        _ => None,
    }
}

fn values_in(alloc: Global, field: &[u8]) -> Result<Vec<Logic>, BuildFault>
    ensures { Gives (λ v. v.items) result (values_of field.now) }
{
    let mut values = Vec::with_capacity(alloc, field.len())?;
    for byte in field {
        match value_in(*byte) {
            Some(value) => values.push(value)?,
            None => return Err(BuildFault::Unbuilt),
        }
    }
    Ok(values)
}

#[tactic(auto, unfolding(crate::specs::Reading::end_row))]
fn end_in(least: u64, field: &[u8]) -> Result<Row, BuildFault>
    ensures row { Gives (λ row. row) result (end_row least field.now) }
    ensures small { IfOk result (λ row. time_at row ≤ 2 ^ 40) }
{
    match time_in(field) {
        Some(time) if least <= time + 1 => Ok(Row::End(time)),
        _ => Err(BuildFault::Unbuilt),
    }
}

#[tactic(auto, unfolding(crate::specs::Reading::value_row))]
fn values_row(
    alloc: Global,
    width: usize,
    least: u64,
    first: &[u8],
    second: &[u8],
) -> Result<Row, BuildFault>
    ensures row { Gives (λ row. row) result (value_row width least first.now second.now) }
    ensures small { IfOk result (λ row. time_at row ≤ 2 ^ 40) }
{
    match time_in(first) {
        Some(time) if least <= time && second.len() == width => {
            let values = LogicList::from_vec(values_in(alloc, second)?);
            Ok(Row::Values(ValueLine { time, values }))
        }
        _ => Err(BuildFault::Unbuilt),
    }
}

#[tactic(auto, unfolding(crate::specs::Reading::row_of))]
fn row_in(alloc: Global, width: usize, least: u64, line: &[u8]) -> Result<Row, BuildFault>
    ensures row { Gives (λ row. row) result (row_of width least (fields_of line.now)) }
    ensures small { IfOk result (λ row. time_at row ≤ 2 ^ 40) }
{
    match two_fields(line) {
        None => Err(BuildFault::Unbuilt),
        Some((first, second)) => {
            if first == b"end".as_slice() {
                end_in(least, second)
            } else {
                values_row(alloc, width, least, first, second)
            }
        }
    }
}

/// The value lines of a text and the end of the run that its last line says.
pub fn rows_in(
    alloc: Global,
    width: usize,
    text: &[u8],
) -> Result<(Vec<ValueLine>, u64), BuildFault>
    ensures { Gives (λ x. (x.0.items, x.1)) result (rows_of width 0 (table_of text.now)) }
{
    let mut lines = Vec::new(alloc);
    let mut least = 0;
    let mut rest = text;
    while let Some((line, after)) = line_at(rest) {
        match row_in(alloc, width, least, line)? {
            Row::Values(line) => {
                least = line.time + 1;
                lines.push(line)?;
            }
            Row::End(time) if after.is_empty() => return Ok((lines, time)),
            Row::End(_) => return Err(BuildFault::Unbuilt),
        }
        rest = after;
    }
    Err(BuildFault::Unbuilt)
}
