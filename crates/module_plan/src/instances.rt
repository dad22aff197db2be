//! The instances of modules.
ghost use Rattle.std.specs.Prelude.{◌≡◌, ◌+◌, ◌++◌, ◌∷◌, [], List, IfOk, OnOk};
ghost use Rattle.netlist_plan.specs.Unnamed.{literal_count};
ghost use Rattle.netlist_plan.specs.Elements.{connections_bits};
ghost use Rattle.std.specs.Option.{option_map_or};
ghost use Rattle.v_tree.specs.declared.modules.Item.{Item as ItemValue};
ghost use Rattle.netlist_plan.specs.Plan.{Meanings, instance_plan};
ghost use Rattle.module_plan.specs.Surroundings.{given};

use crate::bits::{RunBits, runs_bits};
use crate::names::instance_name;
use module_nets::NetTable;
use module_parts::{InstancePart, PortRuns};
use module_scope::Scope;
use netlist_plan::{BitList, PlanInstance, PortBits, PortBitsList};
use sqlite_items::Items;
use std::alloc::{AllocError, Global};

/// Adds the bits of a port, where there is one.
fn push_port(list: &mut PortBitsList, port: Option<usize>, bits: Vec<u32>) -> Result<(), AllocError>
    ensures { OnOk result (list.new ≡ list.old
        ++ option_map_or (λ index. record { port = index; bits = bits.items } ∷ []) port []) }
{
    match port {
        Some(port) => list.push(PortBits {
            port,
            bits: BitList::from_vec(bits),
        }),
        None => Ok(()),
    }
}

/// Adds the bits of a connection, where it has a port. Gives the number of the first literal behind it.
fn push_connection(
    alloc: Global,
    list: &mut PortBitsList,
    scope: &Scope,
    nets: &NetTable,
    number: u32,
    connection: &PortRuns,
) -> Result<u32, AllocError>
    ensures bits { OnOk result (list.new
        ≡ list.old ++ connections_bits scope.now nets.now number (connection.now ∷ [])) }
    ensures next { IfOk result (λ next. next ≡ number + literal_count connection.now.runs) }
{
    let RunBits { bits, next } = runs_bits(alloc, scope, nets, number, connection.runs.as_slice())?;
    push_port(list, connection.port, bits)?;
    Ok(next)
}

/// The bits of connections, where the first literal among them has a number.
fn connections_bits(
    alloc: Global,
    scope: &Scope,
    nets: &NetTable,
    number: u32,
    connections: &[PortRuns],
) -> Result<PortBitsList, AllocError>
    ensures { IfOk result (λ list.
        list ≡ connections_bits scope.now nets.now number connections.now) }
{
    let mut list = Items::new(alloc);
    let mut next = number;
    for connection in connections {
        next = push_connection(alloc, &mut list, scope, nets, next, connection)?;
    }
    Ok(list)
}

/// An instance of a module, where the first literal among its connections has a number.
pub fn instance_plan(
    alloc: Global,
    scope: &Scope,
    nets: &NetTable,
    number: u32,
    instance: &InstancePart,
) -> Result<PlanInstance, AllocError>
    ensures { IfOk result (λ plan. (items : List ItemValue) (meanings : Meanings) →
        plan ≡ instance_plan (given scope.now nets.now items meanings) number instance.now) }
{
    let connections = connections_bits(
        alloc,
        scope,
        nets,
        number,
        instance.connections.as_slice(),
    )?;
    Ok(PlanInstance {
        master: instance.master,
        name: instance_name(alloc, &instance.name)?,
        connections,
    })
}
