//! The number of connections, and the names of those that are named.
ghost use Rattle.std.specs.Prelude.{◌≡◌, ◌||◌, not, ℕ, List, [], length, slice_index_or, if◌then◌else◌, IfOk};
ghost use Rattle.std.specs.List.{list_any};
ghost use Rattle.std.specs.Option.{is_none};
ghost use Rattle.name_table.specs.Names.{is_among};
ghost use Rattle.module_ports.specs.Ports.{Port, names_of};
ghost use Rattle.rule_places.specs.Places.{earliest, first_place};
ghost use Rattle.instance_rules.specs.Links.{connections_by_place, ports_of};
ghost use Rattle.instance_rules.specs.Rules.{connects_all, inst_connections, inst_counts, inst_place, module_connections, named_places};

use crate::ports::{port_count, port_index};
use module_graph::Master;
use module_ports::PortTable;
use name_table::NameTable;
use rule_places::earliest;
use std::alloc::{AllocError, Global};
use v_tree::{Connection, Connections, Expr, Inst, Location};

/// The connections by place: `()` is none at all.
fn connections_by_place(values: &[Option<Expr>]) -> &[Option<Expr>]
    ensures { result.now ≡ connections_by_place values.now }
{
    if values.len() == 1 && values[0].is_none() {
        &values[..0]
    } else {
        values
    }
}

/// Whether some of these connections by place is empty.
fn has_empty(values: &[Option<Expr>]) -> bool
    ensures { result ≡ list_any is_none values.now }
{
    values.iter().any(|value| value.is_none())
}

/// Whether there are so many connections by place, and none of them is empty.
fn connects_all(count: usize, connections: &Connections) -> bool
    ensures { result ≡ connects_all count connections.now }
{
    match connections {
        Connections::ByOrder(values) => {
            let values = connections_by_place(values.as_slice());
            values.len() == count && !has_empty(values)
        }
        Connections::ByName(_) => false,
    }
}

/// The name of an instance, or the `(` where it has none.
fn inst_place(inst: &Inst) -> Location
    ensures { result ≡ inst_place inst.now }
{
    match &inst.name {
        Some(name) => name.location,
        None => inst.paren,
    }
}

/// The number of ports of the primitive of an index.
fn primitive_count(counts: &[usize], primitive: usize) -> usize
    ensures { result ≡ slice_index_or counts.now primitive 0 }
{
    match counts.get(primitive) {
        Some(count) => *count,
        None => 0,
    }
}

/// The place of an instance that hasn't the right number of connections, or no name where it needs one.
pub fn count_place(counts: &[usize], master: Master, inst: &Inst) -> Option<Location>
    ensures { (tables : List (List Port)) →
        result ≡ first_place (inst_counts (ports_of tables counts.now master) inst.now) }
{
    match master {
        Master::Module(_) if inst.name.is_none() => Some(inst.paren),
        Master::Udp(primitive)
            if !connects_all(primitive_count(counts, primitive), &inst.connections) => {
            Some(inst_place(inst))
        }
        _ => None,
    }
}

/// Whether the module of an index has a port of a name.
fn has_port(tables: &[PortTable], module: usize, name: &[u8]) -> bool
    ensures { result ≡ is_among name.now (names_of (slice_index_or tables.now «module» [])) }
{
    port_index(tables, module, name).is_some()
}

/// The first place so far, and that of one more connection, where that is of no port or not of a new
/// one.
fn place_more(
    first: Option<Location>,
    has_port: bool,
    is_new: bool,
    place: Location,
) -> Option<Location>
    ensures { result ≡ (if not has_port || not is_new then earliest first (Some place) else first) }
{
    if has_port && is_new {
        first
    } else {
        earliest(first, Some(place))
    }
}

/// The first named connection of no port of the module of an index, or of a port that an earlier one
/// connects.
fn named_place(
    alloc: Global,
    tables: &[PortTable],
    module: usize,
    connections: &[Connection],
) -> Result<Option<Location>, AllocError>
    ensures { IfOk result (λ place. place ≡ first_place
        (named_places (slice_index_or tables.now «module» []) [] connections.now)) }
{
    let mut names = NameTable::new(alloc);
    let mut place = None;
    for connection in connections {
        let name = connection.port.text.as_slice();
        let is_new = names.add(name)?;
        let has_port = has_port(tables, module, name);
        place = place_more(place, has_port, is_new, connection.location);
    }
    Ok(place)
}

/// The first place of the connections of an instance of the module of an index, whose `(` is given.
fn module_place(
    alloc: Global,
    tables: &[PortTable],
    module: usize,
    paren: Location,
    connections: &Connections,
) -> Result<Option<Location>, AllocError>
    ensures { IfOk result (λ place. place ≡ first_place
        (module_connections (slice_index_or tables.now «module» []) paren connections.now)) }
{
    match connections {
        Connections::ByOrder(values) => {
            let count = connections_by_place(values.as_slice()).len();
            Ok(if port_count(tables, module) < count {
                Some(paren)
            } else {
                None
            })
        }
        Connections::ByName(connections) => {
            named_place(alloc, tables, module, connections.as_slice())
        }
    }
}

/// The first place of an instance's connections: named ones of no port or of one that is connected
/// before, and more by place than ports.
pub fn connection_place(
    alloc: Global,
    tables: &[PortTable],
    master: Master,
    inst: &Inst,
) -> Result<Option<Location>, AllocError>
    ensures { IfOk result (λ place. (counts : List ℕ) →
        place ≡ first_place (inst_connections (ports_of tables.now counts master) inst.now)) }
{
    match master {
        Master::Module(module) => module_place(
            alloc,
            tables,
            module,
            inst.paren,
            &inst.connections,
        ),
        Master::Udp(_) | Master::Unknown => Ok(None),
    }
}
