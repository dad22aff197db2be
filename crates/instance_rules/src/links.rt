//! The widths of the expressions that instances connect, and the literals in them.
ghost use Rattle.std.specs.Prelude.{◌≡◌, ◌&&◌, ℕ, List};
ghost use Rattle.std.specs.List.{enumerate_from, flat_map};
ghost use Rattle.item_parts.specs.Literals.{has_literal};
ghost use Rattle.module_scope.specs.Places.{place_if};
ghost use Rattle.rule_places.specs.Places.{first_place};
ghost use Rattle.instance_rules.specs.Links.{links, named_link, ordered_link, ports_of};
ghost use Rattle.instance_rules.specs.Walks.{AreFirst, link_places, links_places};

use crate::places::{ItemPlaces, earliest_places, no_places};
use crate::ports::{is_output_at, named_port, width_at};
use item_parts::{has_literal, location_of, width_place};
use module_graph::Master;
use module_ports::PortTable;
use module_scope::Scope;
use v_tree::{Connection, Connections, Expr, Location};

/// The place of an expression with a literal in it at an output or inout port.
fn literal_place(is_output: bool, place: Location, expr: &Expr) -> Option<Location>
    ensures { result ≡ first_place (place_if (is_output && has_literal expr.now) place) }
{
    if is_output && has_literal(expr) {
        Some(place)
    } else {
        None
    }
}

/// The places of an expression that is connected to a port, where its own place is given.
fn link_places(
    scope: &Scope,
    tables: &[PortTable],
    master: Master,
    port: Option<usize>,
    place: Location,
    expr: &Expr,
) -> ItemPlaces
    ensures { (counts : List ℕ) → AreFirst
        (λ rule. link_places rule scope.now (ports_of tables.now counts master)
        (record { port = port; place = place; value = expr.now }))
        result }
{
    let width = width_at(tables, master, port);
    let is_output = is_output_at(tables, master, port);
    ItemPlaces {
        widths: width_place(scope, width, place, expr),
        literals: literal_place(is_output, place, expr),
        ..no_places()
    }
}

/// The places of a connection by place.
fn value_places(
    scope: &Scope,
    tables: &[PortTable],
    master: Master,
    index: usize,
    value: &Option<Expr>,
) -> ItemPlaces
    ensures { (counts : List ℕ) → AreFirst
        (λ rule. links_places rule scope.now (ports_of tables.now counts master)
        (ordered_link (index, value.now)))
        result }
{
    match value {
        Some(expr) => link_places(scope, tables, master, Some(index), location_of(expr), expr),
        None => no_places(),
    }
}

/// The places of a named connection.
fn connection_places(
    scope: &Scope,
    tables: &[PortTable],
    master: Master,
    index: usize,
    connection: &Connection,
) -> ItemPlaces
    ensures { (counts : List ℕ) → AreFirst
        (λ rule. links_places rule scope.now (ports_of tables.now counts master)
        (named_link (ports_of tables.now counts master) (index, connection.now)))
        result }
{
    match &connection.value {
        Some(expr) => {
            let port = named_port(tables, master, index, connection.port.text.as_slice());
            link_places(scope, tables, master, port, connection.location, expr)
        }
        None => no_places(),
    }
}

/// The places of connections by place.
fn values_places(
    scope: &Scope,
    tables: &[PortTable],
    master: Master,
    values: &[Option<Expr>],
) -> ItemPlaces
    ensures { (counts : List ℕ) → AreFirst
        (λ rule. links_places rule scope.now (ports_of tables.now counts master)
        (flat_map ordered_link (enumerate_from 0 values.now)))
        result }
{
    let mut places = no_places();
    for (index, value) in values.iter().enumerate() {
        let more = value_places(scope, tables, master, index, value);
        places = earliest_places(places, more);
    }
    places
}

/// The places of named connections.
fn connections_places(
    scope: &Scope,
    tables: &[PortTable],
    master: Master,
    connections: &[Connection],
) -> ItemPlaces
    ensures { (counts : List ℕ) → AreFirst
        (λ rule. links_places rule scope.now (ports_of tables.now counts master)
        (flat_map (named_link (ports_of tables.now counts master))
        (enumerate_from 0 connections.now)))
        result }
{
    let mut places = no_places();
    for (index, connection) in connections.iter().enumerate() {
        let more = connection_places(scope, tables, master, index, connection);
        places = earliest_places(places, more);
    }
    places
}

/// The places of the expressions of an instance's connections.
pub fn links_places(
    scope: &Scope,
    tables: &[PortTable],
    master: Master,
    connections: &Connections,
) -> ItemPlaces
    ensures { (counts : List ℕ) → AreFirst
        (λ rule. links_places rule scope.now (ports_of tables.now counts master)
        (links (ports_of tables.now counts master) connections.now))
        result }
{
    match connections {
        Connections::ByOrder(values) => values_places(scope, tables, master, values.as_slice()),
        Connections::ByName(connections) => {
            connections_places(scope, tables, master, connections.as_slice())
        }
    }
}
