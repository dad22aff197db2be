//! Instances of modules and of primitives.
ghost use Rattle.std.specs.Prelude.{◌≡◌, [], ◌++◌, map, IfOk, OnOk};
ghost use Rattle.instance_rules.specs.Links.{ports_of};
ghost use Rattle.module_parts.specs.Parts.{instance_parts, module_instance, primitive_instance};

use crate::connections::links_runs;
use crate::names::name_text;
use crate::parts::{GatePart, InstancePart, ModulePart, PartList, PortRuns, TerminalList};
use module_graph::Master;
use module_ports::PortTable;
use sqlite_items::Items;
use std::alloc::{AllocError, Global};
use v_tree::{Inst, Instance};

/// An instance of the module of an index.
fn module_instance(
    alloc: Global,
    tables: &[PortTable],
    item: usize,
    master: usize,
    inst: &Inst,
) -> Result<ModulePart, AllocError>
    ensures { IfOk result (λ part. part ≡ module_instance item master
        (ports_of tables.now [] (Master.Module master)) inst.now) }
{
    let connections = links_runs(alloc, tables, Master::Module(master), &inst.connections)?;
    Ok(ModulePart::Instance(InstancePart {
        item,
        master,
        name: name_text(alloc, &inst.name)?,
        connections: Items::from_vec(connections),
    }))
}

/// The bits of connections.
fn terminals_of(alloc: Global, connections: Vec<PortRuns>) -> Result<TerminalList, AllocError>
    ensures { IfOk result (λ list. list ≡ map (λ (c : PortRuns). c.runs) connections.items) }
{
    let mut list = Items::new(alloc);
    for connection in connections {
        list.push(connection.runs)?;
    }
    Ok(list)
}

/// An instance of the primitive of an index.
fn primitive_instance(
    alloc: Global,
    tables: &[PortTable],
    item: usize,
    primitive: usize,
    inst: &Inst,
) -> Result<ModulePart, AllocError>
    ensures { IfOk result (λ part. part ≡ primitive_instance item
        (ports_of tables.now [] (Master.Udp primitive)) inst.now) }
{
    let connections = links_runs(alloc, tables, Master::Udp(primitive), &inst.connections)?;
    Ok(ModulePart::Gate(GatePart {
        item,
        name: name_text(alloc, &inst.name)?,
        terminals: terminals_of(alloc, connections)?,
    }))
}

/// Adds instances of the module of an index.
fn push_modules(
    alloc: Global,
    parts: &mut PartList,
    tables: &[PortTable],
    item: usize,
    master: usize,
    instances: &[Inst],
) -> Result<(), AllocError>
    ensures { OnOk result (parts.new ≡ parts.old ++ map
        (module_instance item master (ports_of tables.now [] (Master.Module master)))
        instances.now) }
{
    for inst in instances {
        parts.push(module_instance(alloc, tables, item, master, inst)?)?;
    }
    Ok(())
}

/// Adds instances of the primitive of an index.
fn push_primitives(
    alloc: Global,
    parts: &mut PartList,
    tables: &[PortTable],
    item: usize,
    primitive: usize,
    instances: &[Inst],
) -> Result<(), AllocError>
    ensures { OnOk result (parts.new ≡ parts.old ++ map
        (primitive_instance item (ports_of tables.now [] (Master.Udp primitive)))
        instances.now) }
{
    for inst in instances {
        parts.push(primitive_instance(alloc, tables, item, primitive, inst)?)?;
    }
    Ok(())
}

/// Adds the instances of the item of an index.
pub fn push_instances(
    alloc: Global,
    parts: &mut PartList,
    tables: &[PortTable],
    item: usize,
    master: Master,
    instance: &Instance,
) -> Result<(), AllocError>
    ensures { OnOk result (parts.new
        ≡ parts.old ++ instance_parts item tables.now master instance.now) }
{
    let instances = instance.instances.as_slice();
    match master {
        Master::Module(index) => push_modules(alloc, parts, tables, item, index, instances),
        Master::Udp(index) => push_primitives(alloc, parts, tables, item, index, instances),
        Master::Unknown => Ok(()),
    }
}
