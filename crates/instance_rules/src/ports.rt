//! The ports of what an instance instantiates.
ghost use Rattle.std.specs.Prelude.{◌≡◌, ℕ, List, [], length, option_and_then, slice_get, slice_index_or};
ghost use Rattle.std.specs.Option.{option_map};
ghost use Rattle.module_ports.specs.Ports.{Port, index_in};
ghost use Rattle.instance_rules.specs.Links.{is_driving, is_output_at, named_port, net_direction, port_width, ports_of, width_at};

use item_parts::net_width;
use module_graph::Master;
use module_ports::PortTable;
use v_tree::Direction;

/// How many ports the module of an index has.
pub fn port_count(tables: &[PortTable], module: usize) -> usize
    ensures { result ≡ length (slice_index_or tables.now «module» []) }
{
    match tables.get(module) {
        Some(table) => table.len(),
        None => 0,
    }
}

/// The index of the first port of a name of the module of an index.
pub fn port_index(tables: &[PortTable], module: usize, name: &[u8]) -> Option<usize>
    ensures { result ≡ index_in name.now (slice_index_or tables.now «module» []) }
{
    match tables.get(module) {
        Some(table) => table.index_of(name),
        None => None,
    }
}

/// The port that a named connection connects, where it is the one of an index in its instance.
pub fn named_port(tables: &[PortTable], master: Master, index: usize, name: &[u8]) -> Option<usize>
    ensures { (counts : List ℕ) →
        result ≡ named_port (ports_of tables.now counts master) index name.now }
{
    match master {
        Master::Module(module) => port_index(tables, module, name),
        Master::Udp(_) => Some(index),
        Master::Unknown => None,
    }
}

/// The width of a port of the module of an index.
fn port_width(tables: &[PortTable], module: usize, port: usize) -> Option<u64>
    ensures { result ≡ option_map port_width
        (slice_get (slice_index_or tables.now «module» []) port) }
{
    match tables.get(module) {
        Some(table) if port < table.len() => Some(net_width(table.net_at(port))),
        _ => None,
    }
}

/// The width that an expression at a port has to have, where there is one to keep.
pub fn width_at(tables: &[PortTable], master: Master, port: Option<usize>) -> Option<u64>
    ensures { (counts : List ℕ) → result ≡ width_at (ports_of tables.now counts master) port }
{
    match (master, port) {
        (Master::Module(module), Some(port)) => port_width(tables, module, port),
        (Master::Udp(_), _) => Some(1),
        (Master::Module(_), None) | (Master::Unknown, _) => None,
    }
}

/// Whether a port of this direction drives the net outside.
fn is_driving(direction: Option<Direction>) -> bool
    ensures { result ≡ is_driving direction }
{
    match direction {
        Some(Direction::Output | Direction::Inout) => true,
        Some(Direction::Input) | None => false,
    }
}

/// Whether a port of the module of an index is an output or an inout.
fn is_output(tables: &[PortTable], module: usize, port: usize) -> bool
    ensures { result ≡ is_driving (option_and_then (λ (p : Port). net_direction p.net)
        (slice_get (slice_index_or tables.now «module» []) port)) }
{
    match tables.get(module) {
        Some(table) => match table.net_at(port) {
            Some(net) => is_driving(net.direction),
            None => false,
        },
        None => false,
    }
}

/// Whether a port is an output or an inout.
pub fn is_output_at(tables: &[PortTable], master: Master, port: Option<usize>) -> bool
    ensures { (counts : List ℕ) → result ≡ is_output_at (ports_of tables.now counts master) port }
{
    match (master, port) {
        (Master::Module(module), Some(port)) => is_output(tables, module, port),
        (Master::Udp(_), Some(port)) => port == 0,
        (_, None) | (Master::Unknown, _) => false,
    }
}
