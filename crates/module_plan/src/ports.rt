//! The bits of ports.
ghost use Rattle.std.specs.Prelude.{◌≡◌, ◌++◌, ◌∷◌, [], map, IfOk, OnOk};
ghost use Rattle.std.specs.List.{enumerate_from};
ghost use Rattle.module_ports.specs.Ports.{entry_name, port_names};
ghost use Rattle.netlist_plan.specs.Plan.{port_bits};

use crate::numbers::push_range;
use item_parts::name_width;
use module_nets::NetTable;
use module_scope::Scope;
use netlist_plan::{BitList, PortBits, PortBitsList};
use sqlite_items::Items;
use std::alloc::{AllocError, Global};
use v_tree::{AnsiEntry, Name, Ports};

/// Adds the bits of the port of an index and a name.
fn push_port(
    alloc: Global,
    list: &mut PortBitsList,
    scope: &Scope,
    nets: &NetTable,
    port: usize,
    name: &Name,
) -> Result<(), AllocError>
    ensures { OnOk result (list.new
        ≡ list.old ++ port_bits scope.now nets.now (port, name.now.text) ∷ []) }
{
    let name = name.text.as_slice();
    let mut bits = Vec::new(alloc);
    push_range(
        &mut bits,
        nets.name_first(name),
        name_width(scope, name, None),
    )?;
    list.push(PortBits {
        port,
        bits: BitList::from_vec(bits),
    })
}

/// Adds the bits of ports that are names.
fn push_names(
    alloc: Global,
    list: &mut PortBitsList,
    scope: &Scope,
    nets: &NetTable,
    names: &[Name],
) -> Result<(), AllocError>
    ensures { OnOk result (list.new ≡ list.old ++ map (port_bits scope.now nets.now)
        (enumerate_from 0 (map (λ name. name.text) names.now))) }
{
    for (port, name) in names.iter().enumerate() {
        push_port(alloc, list, scope, nets, port, name)?;
    }
    Ok(())
}

/// The name of an entry.
fn entry_name(entry: &AnsiEntry) -> &Name
    ensures { result.now ≡ entry_name entry.now }
{
    match entry {
        AnsiEntry::Port(port) => &port.name,
        AnsiEntry::Name(name) => name,
    }
}

/// Adds the bits of the ports behind the first.
fn push_entries(
    alloc: Global,
    list: &mut PortBitsList,
    scope: &Scope,
    nets: &NetTable,
    others: &[AnsiEntry],
) -> Result<(), AllocError>
    ensures { OnOk result (list.new ≡ list.old ++ map (port_bits scope.now nets.now)
        (enumerate_from 1 (map (λ name. name.text) (map entry_name others.now)))) }
{
    for (index, other) in others.iter().enumerate() {
        push_port(alloc, list, scope, nets, index + 1, entry_name(other))?;
    }
    Ok(())
}

/// Adds the bits of the ports of a header.
fn push_ports(
    alloc: Global,
    list: &mut PortBitsList,
    scope: &Scope,
    nets: &NetTable,
    ports: &Ports,
) -> Result<(), AllocError>
    ensures { OnOk result (list.new ≡ list.old
        ++ map (port_bits scope.now nets.now) (enumerate_from 0 (port_names ports.now))) }
{
    match ports {
        Ports::Absent | Ports::Empty => Ok(()),
        Ports::Names(names) => push_names(alloc, list, scope, nets, names.as_slice()),
        Ports::Ansi(first, others) => {
            push_port(alloc, list, scope, nets, 0, &first.name)?;
            push_entries(alloc, list, scope, nets, others.as_slice())
        }
    }
}

/// The bits of the ports of a header, by their indexes.
pub fn plan_ports(
    alloc: Global,
    scope: &Scope,
    nets: &NetTable,
    ports: &Ports,
) -> Result<PortBitsList, AllocError>
    ensures { IfOk result (λ list. list
        ≡ map (port_bits scope.now nets.now) (enumerate_from 0 (port_names ports.now))) }
{
    let mut list = Items::new(alloc);
    push_ports(alloc, &mut list, scope, nets, ports)?;
    Ok(list)
}
