//! The counts of all modules, one level after the other.
ghost use Rattle.std.specs.Prelude.{◌≡◌, ◌+◌, ◌<◌, length, replicate, IfOk};
ghost use Rattle.std.specs.List.{All};
ghost use Rattle.hierarchy_counts.specs.Hierarchy.{AreWithin};
ghost use Rattle.hierarchy_counts.specs.Rounds.{cap, next_rows, no_row, row_at, row_of, with_instance};

use crate::counts::{InstanceCounts, InstanceCountsList, ModuleCounts};
use std::alloc::{AllocError, Global};

/// How many levels of instances are looked at.
pub const LEVELS: u64 = 64;

/// What is above every limit, at which counting stops.
const BOUND: u64 = 1 << 32;

/// What is inside a module, down to so many levels: how many levels of instances, and their counts.
#[derive(Clone, Copy, Debug)]
pub struct Row {
    pub levels: u64,
    pub nets: u64,
    pub elements: u64,
    pub names: u64,
}

/// The sum, or the bound where it is greater.
pub fn add(first: u64, second: u64) -> u64
    ensures { result ≡ cap (first + second) }
{
    (first.min(BOUND) + second.min(BOUND)).min(BOUND)
}

/// A row with one more instance, whose module by itself and inside is given.
fn with_instance(row: Row, module: ModuleCounts, bound: u64, inner: Row) -> Row
    ensures { result ≡ with_instance row «module» bound inner }
{
    Row {
        levels: row.levels.max(add(1, inner.levels)).min(BOUND),
        nets: add(row.nets, add(module.nets.saturating_sub(bound), inner.nets)),
        elements: add(row.elements, add(module.elements, inner.elements)),
        names: add(row.names, add(module.names, inner.names)),
    }
}

/// Nothing.
fn no_row() -> Row
    ensures { result ≡ no_row }
{
    Row {
        levels: 0,
        nets: 0,
        elements: 0,
        names: 0,
    }
}

/// The row of a list of instances, by the rows of their modules down to one level less.
fn row_of(modules: &[ModuleCounts], table: &[Row], list: &[InstanceCounts]) -> Row
    requires table { length table.now ≡ length modules.now }
    requires within { All (λ i. i.master < length modules.now) list.now }
    ensures { result ≡ row_of modules.now table.now list.now }
{
    let mut row = no_row();
    for instance in list {
        let (module, inner) = (modules[instance.master], table[instance.master]);
        row = with_instance(row, module, instance.bound, inner);
    }
    row
}

/// The rows of all modules, by those down to one level less.
fn next_rows(
    alloc: Global,
    modules: &[ModuleCounts],
    instances: &[InstanceCountsList],
    table: &[Row],
) -> Result<Vec<Row>, AllocError>
    requires lists { length instances.now ≡ length modules.now }
    requires within { AreWithin (length modules.now) instances.now }
    requires table { length table.now ≡ length modules.now }
    ensures { IfOk result (λ rows. rows.items ≡ next_rows modules.now instances.now table.now) }
{
    let mut rows = Vec::with_capacity(alloc, modules.len())?;
    for index in 0..modules.len() {
        rows.push(row_of(modules, table, instances[index].as_slice()))?;
    }
    Ok(rows)
}

/// The rows of so many modules down to no level.
fn no_rows(alloc: Global, count: usize) -> Result<Vec<Row>, AllocError>
    ensures { IfOk result (λ rows. rows.items ≡ replicate count no_row) }
{
    vec![in alloc; no_row(); count]
}

/// What is inside a top, down to 64 levels. Rounds end when there are no more levels.
pub fn row_of_top(
    alloc: Global,
    modules: &[ModuleCounts],
    instances: &[InstanceCountsList],
    top: usize,
) -> Result<Row, AllocError>
    requires lists { length instances.now ≡ length modules.now }
    requires within { AreWithin (length modules.now) instances.now }
    requires top { top < length modules.now }
    ensures { IfOk result (λ row. row ≡ row_at modules.now instances.now 64 top) }
{
    let mut table = no_rows(alloc, modules.len())?;
    for level in 0..LEVELS {
        table = next_rows(alloc, modules, instances, &table)?;
        if table[top].levels <= level {
            return Ok(table[top]);
        }
    }
    Ok(table[top])
}
