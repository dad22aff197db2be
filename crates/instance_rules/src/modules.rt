//! The places of a module's instances.
ghost use Rattle.std.specs.Prelude.{◌≡◌, ℕ, List, IfOk};
ghost use Rattle.module_graph.specs.Graph.{references_in};
ghost use Rattle.module_graph.specs.declared.references.Master.{Master as MasterValue};
ghost use Rattle.instance_rules.specs.Places.{instance_places, places_in};
ghost use Rattle.instance_rules.specs.Walks.{AreFirst, master_at};

use crate::items::item_places;
use crate::places::{ItemPlaces, earliest_places, no_places};
use module_graph::{Master, Reference};
use module_ports::PortTable;
use module_scope::Scope;
use std::alloc::{AllocError, Global};
use v_tree::{Instance, Item, Module};

/// The master of the reference at an index, or unknown where there is none.
pub fn master_at(references: &[Reference], index: usize) -> Master
    ensures { result ≡ master_at references.now index }
{
    match references.get(index) {
        Some(reference) => reference.master,
        None => Master::Unknown,
    }
}

/// The places of the instances among items, where the references are those of the items.
fn items_places(
    alloc: Global,
    scope: &Scope,
    tables: &[PortTable],
    counts: &[usize],
    references: &[Reference],
    items: &[Item],
) -> Result<ItemPlaces, AllocError>
    ensures { IfOk result (λ places. (of : List ℕ → MasterValue) →
        references.now ≡ references_in of items.now → AreFirst
        (λ rule. places_in rule scope.now
        (record { of = of; tables = tables.now; counts = counts.now }) items.now)
        places) }
{
    let mut places = no_places();
    let mut next = 0;
    for item in items {
        if let Item::Instances(instance) = item {
            let master = master_at(references, next);
            let more = item_places(alloc, scope, tables, counts, master, instance)?;
            places = earliest_places(places, more);
            next += 1;
        }
    }
    Ok(places)
}

/// The first place of each rule on the instances of a module, where it is broken. `references` are those
/// of the module in the graph of its file, `tables` the ports of each module of the file and `counts`
/// how many ports each primitive has.
pub fn instance_places(
    alloc: Global,
    scope: &Scope,
    module: &Module,
    references: &[Reference],
    tables: &[PortTable],
    counts: &[usize],
) -> Result<ItemPlaces, AllocError>
    ensures { IfOk result (λ places. (of : List ℕ → MasterValue) →
        references.now ≡ references_in of «module».now.items → places ≡ instance_places scope.now
        (record { of = of; tables = tables.now; counts = counts.now }) «module».now) }
{
    items_places(
        alloc,
        scope,
        tables,
        counts,
        references,
        module.items.as_slice(),
    )
}
