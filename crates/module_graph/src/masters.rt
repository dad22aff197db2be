//! What the names of instances mean.
ghost use Rattle.std.specs.Prelude.{◌≡◌, map, IfOk};
ghost use Rattle.module_graph.specs.Graph.{master_of, module_names, reference_of, references_in, references_of, udp_names};
ghost use Rattle.module_graph.specs.Masters.{HasIndexes, HasMasters, masters_under};

use crate::numbers::NumberTable;
use crate::references::{Master, Reference, ReferenceList, ReferenceLists};
use sqlite_items::Items;
use std::alloc::{AllocError, Global};
use v_tree::{Item, Module, UdpDecl};

/// The index of the first module and of the first primitive of each name.
#[derive(Drop)]
pub(crate) struct MasterTable {
    modules: NumberTable,
    udps: NumberTable,
}

/// The index of the first module of each name.
fn first_modules(alloc: Global, modules: &[Module]) -> Result<NumberTable, AllocError>
    ensures { IfOk result (λ table. HasIndexes (module_names modules.now) table) }
{
    let mut table = NumberTable::new(alloc);
    for (index, module) in modules.iter().enumerate() {
        table.put(module.name.text.as_slice(), index)?;
    }
    Ok(table)
}

/// The index of the first primitive of each name.
fn first_udps(alloc: Global, udps: &[UdpDecl]) -> Result<NumberTable, AllocError>
    ensures { IfOk result (λ table. HasIndexes (udp_names udps.now) table) }
{
    let mut table = NumberTable::new(alloc);
    for (index, udp) in udps.iter().enumerate() {
        table.put(udp.name.text.as_slice(), index)?;
    }
    Ok(table)
}

/// The first module and the first primitive of each name.
fn master_table(
    alloc: Global,
    modules: &[Module],
    udps: &[UdpDecl],
) -> Result<MasterTable, AllocError>
    ensures { IfOk result (HasMasters (module_names modules.now) (udp_names udps.now)) }
{
    Ok(MasterTable {
        modules: first_modules(alloc, modules)?,
        udps: first_udps(alloc, udps)?,
    })
}

/// What a name means.
fn master_of(masters: &MasterTable, name: &[u8]) -> Master
    ensures { result ≡ masters_under masters.now name.now }
{
    if let Some(index) = masters.modules.least(name) {
        return Master::Module(index);
    }
    match masters.udps.least(name) {
        Some(index) => Master::Udp(index),
        None => Master::Unknown,
    }
}

/// The reference of an item, where it is one of instances.
fn reference_of(masters: &MasterTable, item: &Item) -> Option<Reference>
    ensures { result ≡ reference_of (masters_under masters.now) item.now }
{
    match item {
        Item::Instances(instance) => Some(Reference {
            location: instance.name.location,
            master: master_of(masters, instance.name.text.as_slice()),
        }),
        _ => None,
    }
}

/// The references of items.
fn references_in(
    alloc: Global,
    masters: &MasterTable,
    items: &[Item],
) -> Result<ReferenceList, AllocError>
    ensures { IfOk result (λ list. list ≡ references_in (masters_under masters.now) items.now) }
{
    let mut list = Vec::new(alloc);
    for item in items {
        if let Some(reference) = reference_of(masters, item) {
            list.push(reference)?;
        }
    }
    Ok(Items::from_vec(list))
}

/// The references of each module, where the table tells what names mean.
fn references_by(
    alloc: Global,
    masters: &MasterTable,
    modules: &[Module],
) -> Result<ReferenceLists, AllocError>
    ensures { IfOk result (λ lists.
        lists ≡ references_of (masters_under masters.now) modules.now) }
{
    let mut lists = Vec::new(alloc);
    for module in modules {
        lists.push(references_in(alloc, masters, module.items.as_slice())?)?;
    }
    Ok(Items::from_vec(lists))
}

/// The references of each module of a file.
pub(crate) fn references_of(
    alloc: Global,
    modules: &[Module],
    udps: &[UdpDecl],
) -> Result<ReferenceLists, AllocError>
    ensures { IfOk result (λ lists. lists ≡
        references_of (master_of (module_names modules.now) (udp_names udps.now)) modules.now) }
{
    let masters = master_table(alloc, modules, udps)?;
    references_by(alloc, &masters, modules)
}
