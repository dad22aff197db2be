//! Names in tables.
ghost use Rattle.std.specs.Prelude.{◌≡◌, ◌<◌, ◌≤◌, ◌++◌, ◌||◌, not, filter, length, IfOk, OnOk};
ghost use Rattle.std.specs.List.{list_all};
ghost use Rattle.std.specs.Option.{option_to_list};
ghost use Rattle.name_table.specs.Names.{is_among};
ghost use Rattle.gate_net.specs.Steps.{Gives};
ghost use Rattle.first_netlist.specs.Meaning.{distinct_names, all_among, none_among, instance_names, indices_from, limit};

use crate::tree::Instance;
use byte_lists::Bytes;
use gate_net::BuildFault;
use name_table::NameTable;
use std::alloc::{AllocError, Global};

/// A copy of a name.
fn copy_of(alloc: Global, name: &Bytes) -> Result<Bytes, AllocError>
    ensures { IfOk result (λ copy. copy ≡ name.now) }
{
    Ok(Bytes::from_vec(Vec::from_slice(alloc, name.as_slice())?))
}

/// The names as a table, where none stands twice.
pub fn table_of(alloc: Global, names: &[Bytes]) -> Result<NameTable, BuildFault>
    ensures table { Gives (λ table. table) result (distinct_names names.now) }
    ensures same { IfOk result (λ table. table ≡ names.now) }
{
    let mut table = NameTable::new(alloc);
    for name in names {
        if !table.add(name.as_slice())? {
            return Err(BuildFault::Unbuilt);
        }
    }
    Ok(table)
}

/// Refuses names of which one stands twice.
pub fn check_distinct(alloc: Global, names: &[Bytes]) -> Result<(), BuildFault>
    ensures { Gives (λ _. names.now) result (distinct_names names.now) }
{
    let _ = table_of(alloc, names)?;
    Ok(())
}

/// Whether each name stands in the table.
pub fn all_among(table: &NameTable, names: &[Bytes]) -> bool
    ensures { result ≡ all_among table.now names.now }
{
    names.iter().all(|name| table.contains(name.as_slice()))
}

/// Whether no name stands in the table.
pub fn none_among(table: &NameTable, names: &[Bytes]) -> bool
    ensures { result ≡ none_among table.now names.now }
{
    names.iter().all(|name| !table.contains(name.as_slice()))
}

/// Whether each name stands in one of two tables.
pub fn all_in_either(first: &NameTable, second: &NameTable, names: &[Bytes]) -> bool
    ensures { result
        ≡ list_all (λ name. is_among name first.now || is_among name second.now) names.now }
{
    names.iter().all(|name| {
        let name = name.as_slice();
        first.contains(name) || second.contains(name)
    })
}

/// Copies of the names.
pub fn copies_of(alloc: Global, names: &[Bytes]) -> Result<Vec<Bytes>, AllocError>
    ensures { IfOk result (λ copies. copies.items ≡ names.now) }
{
    let mut copies = Vec::new(alloc);
    for name in names {
        copies.push(copy_of(alloc, name)?)?;
    }
    Ok(copies)
}

/// Puts copies of the names that don't stand in the table at the end of others.
pub fn push_others(
    alloc: Global,
    table: &NameTable,
    names: &[Bytes],
    others: &mut Vec<Bytes>,
) -> Result<(), AllocError>
    ensures { OnOk result (others.new.items
        ≡ others.old.items ++ filter (λ name. not (is_among name table.now)) names.now) }
{
    for name in names {
        if !table.contains(name.as_slice()) {
            others.push(copy_of(alloc, name)?)?;
        }
    }
    Ok(())
}

/// Puts a copy of the name, where there is one, at the end of others.
fn push_name(alloc: Global, name: &Option<Bytes>, others: &mut Vec<Bytes>) -> Result<(), AllocError>
    ensures { OnOk result (others.new.items ≡ others.old.items ++ option_to_list name.now) }
{
    if let Some(name) = name {
        others.push(copy_of(alloc, name)?)?;
    }
    Ok(())
}

/// Copies of the names of those instances that have one.
pub fn instance_names(alloc: Global, gates: &[Instance]) -> Result<Vec<Bytes>, AllocError>
    ensures { IfOk result (λ names. names.items ≡ instance_names gates.now) }
{
    let mut names = Vec::new(alloc);
    for gate in gates {
        push_name(alloc, &gate.name, &mut names)?;
    }
    Ok(names)
}

/// The indices of the names that stand in the table.
pub fn indices_among(
    alloc: Global,
    table: &NameTable,
    names: &[Bytes],
) -> Result<Vec<u32>, AllocError>
    requires { length names.now ≤ limit }
    ensures { IfOk result (λ indices. indices.items ≡ indices_from 0 table.now names.now) }
{
    let mut indices = Vec::new(alloc);
    for (index, name) in names.iter().enumerate() {
        if table.contains(name.as_slice()) {
            indices.push(index as u32)?;
        }
    }
    Ok(indices)
}
