//! The parts of a module.
ghost use Rattle.std.specs.Prelude.{◌≡◌, ℕ, List, [], ◌∷◌, ◌++◌, IfOk, OnOk};
ghost use Rattle.std.specs.List.{enumerate_from, flat_map};
ghost use Rattle.module_graph.specs.Graph.{references_in};
ghost use Rattle.module_graph.specs.declared.references.Master.{Master as MasterValue};
ghost use Rattle.module_parts.specs.Parts.{module_parts, name_texts, parts_of_item};

use crate::assignments::{push_declared, push_pairs};
use crate::gates::push_gates;
use crate::instances::push_instances;
use crate::names::{name_texts, port_names};
use crate::parts::{ModulePart, PartList};
use instance_rules::master_at;
use module_graph::{Master, Reference};
use module_ports::PortTable;
use module_scope::Scope;
use sqlite_items::Items;
use std::alloc::{AllocError, Global};
use v_tree::{Item, Module, Name};

/// Adds names that are declared.
fn push_names(alloc: Global, parts: &mut PartList, names: &[Name]) -> Result<(), AllocError>
    ensures { OnOk result (parts.new ≡ parts.old ++ ModulePart.Names (name_texts names.now) ∷ []) }
{
    parts.push(ModulePart::Names(name_texts(alloc, names)?))
}

/// Adds the parts of the item of an index, where an instance's name means a master.
fn push_item(
    alloc: Global,
    parts: &mut PartList,
    scope: &Scope,
    tables: &[PortTable],
    master: Master,
    index: usize,
    item: &Item,
) -> Result<(), AllocError>
    ensures { OnOk result (parts.new ≡ parts.old
        ++ parts_of_item scope.now tables.now (λ name. master) (index, item.now)) }
{
    match item {
        Item::Ports(decl) => push_names(alloc, parts, decl.names.as_slice()),
        Item::Nets(decl) => push_declared(alloc, parts, scope, index, &decl.declared_names),
        Item::Trireg(decl) => push_names(alloc, parts, decl.names.as_slice()),
        Item::Assign(assign) => push_pairs(alloc, parts, scope, index, assign.pairs.as_slice()),
        Item::Gates(gates) => push_gates(alloc, parts, index, gates.gates.as_slice()),
        Item::Instances(instance) => {
            push_instances(alloc, parts, tables, index, master, instance)
        }
        Item::Cell(_) | Item::Specify(_) => Ok(()),
    }
}

/// Adds the parts of items, where the references are those of the items.
fn push_items(
    alloc: Global,
    parts: &mut PartList,
    scope: &Scope,
    references: &[Reference],
    tables: &[PortTable],
    items: &[Item],
) -> Result<(), AllocError>
    ensures { OnOk result ((of : List ℕ → MasterValue) → references.now ≡ references_in of items.now
        → parts.new ≡ parts.old
        ++ flat_map (parts_of_item scope.now tables.now of) (enumerate_from 0 items.now)) }
{
    let mut next = 0;
    for (index, item) in items.iter().enumerate() {
        let master = master_at(references, next);
        push_item(alloc, parts, scope, tables, master, index, item)?;
        if let Item::Instances(_) = item {
            next += 1;
        }
    }
    Ok(())
}

/// The parts of a module: the names of its header, and those of its items. `references` are those of the
/// module in the graph of its file, and `tables` the ports of each module of the file.
pub fn module_parts(
    alloc: Global,
    scope: &Scope,
    module: &Module,
    references: &[Reference],
    tables: &[PortTable],
) -> Result<PartList, AllocError>
    ensures { IfOk result (λ parts. (of : List ℕ → MasterValue) →
        references.now ≡ references_in of «module».now.items
        → parts ≡ module_parts scope.now tables.now of «module».now) }
{
    let mut parts = Items::new(alloc);
    parts.push(ModulePart::Names(port_names(alloc, &module.ports)?))?;
    let items = module.items.as_slice();
    push_items(alloc, &mut parts, scope, references, tables, items)?;
    Ok(parts)
}
