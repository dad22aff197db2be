//! The nets of the ports of a top.
ghost use Rattle.std.specs.Prelude.{◌≡◌, IfOk};
ghost use Rattle.instance_rules.specs.Links.{net_direction};
ghost use Rattle.module_ports.specs.Ports.{net_at};
ghost use Rattle.netlist_meaning.specs.Netlist.{port_nets};
ghost use Rattle.reached_parts.specs.Sides.{is_on};

use byte_lists::NetList;
use module_ports::PortTable;
use netlist_plan::PortBits;
use std::alloc::{AllocError, Global};
use v_tree::Direction;

/// A side of a netlist: the ports that take values from outside, or those that give values.
#[derive(Clone, Copy, Debug, PartialEq, Eq)]
pub enum Side {
    Inputs,
    Outputs,
}

/// Whether a port of a direction is on a side. An inout is on both, and what has no direction on none.
fn is_on(side: Side, direction: Option<Direction>) -> bool
    ensures { result ≡ is_on side direction }
{
    match (side, direction) {
        (_, None) => false,
        (_, Some(Direction::Inout)) => true,
        (Side::Inputs, Some(direction)) => direction == Direction::Input,
        (Side::Outputs, Some(direction)) => direction == Direction::Output,
    }
}

/// The direction of the port of an index, where it has one.
fn direction_at(table: &PortTable, port: usize) -> Option<Direction>
    ensures { result ≡ net_direction (net_at table.now port) }
{
    match table.net_at(port) {
        Some(net) => net.direction,
        None => None,
    }
}

/// The nets of the ports on a side, in the order of these ports, by the table of a module's ports and the
/// bits of each.
pub fn port_nets(
    alloc: Global,
    side: Side,
    table: &PortTable,
    ports: &[PortBits],
) -> Result<NetList, AllocError>
    ensures { IfOk result (λ nets. nets ≡ port_nets (is_on side) table.now ports.now) }
{
    let mut nets = Vec::new(alloc);
    for port in ports {
        if is_on(side, direction_at(table, port.port)) {
            nets.extend_from_slice(port.bits.as_slice())?;
        }
    }
    Ok(NetList::from_vec(nets))
}
