//! The bits that instances connect to ports.
ghost use Rattle.std.specs.Prelude.{◌≡◌, ◌∷◌, [], ◌++◌, map, IfOk, OnOk};
ghost use Rattle.std.specs.List.{enumerate_from, flat_map};
ghost use Rattle.v_tree.specs.declared.locations.Location.{Location};
ghost use Rattle.instance_rules.specs.Links.{links, named_link, ordered_link, ports_of};
ghost use Rattle.module_parts.specs.Parts.{port_runs};

use crate::parts::PortRuns;
use expression_bits::place_runs;
use instance_rules::{named_port, width_at};
use module_graph::Master;
use module_ports::PortTable;
use std::alloc::{AllocError, Global};
use v_tree::{Connection, Connections, Expr};

/// The bits at a port.
fn port_runs(
    alloc: Global,
    tables: &[PortTable],
    master: Master,
    port: Option<usize>,
    value: &Expr,
) -> Result<PortRuns, AllocError>
    ensures { IfOk result (λ runs. (place : Location) → runs ≡ port_runs
        (ports_of tables.now [] master)
        (record { port = port; place = place; value = value.now })) }
{
    let width = match width_at(tables, master, port) {
        Some(width) => width as usize,
        None => 1,
    };
    Ok(PortRuns {
        port,
        runs: place_runs(alloc, width, value)?,
    })
}

/// Adds what the connection by place of an index connects.
fn push_value(
    alloc: Global,
    list: &mut Vec<PortRuns>,
    tables: &[PortTable],
    master: Master,
    index: usize,
    value: &Option<Expr>,
) -> Result<(), AllocError>
    ensures { OnOk result (list.new.items ≡ list.old.items
        ++ map (port_runs (ports_of tables.now [] master)) (ordered_link (index, value.now))) }
{
    if let Some(expr) = value {
        list.push(port_runs(alloc, tables, master, Some(index), expr)?)?;
    }
    Ok(())
}

/// Adds what the named connection of an index connects.
fn push_connection(
    alloc: Global,
    list: &mut Vec<PortRuns>,
    tables: &[PortTable],
    master: Master,
    index: usize,
    connection: &Connection,
) -> Result<(), AllocError>
    ensures { OnOk result (let ports = ports_of tables.now [] master in list.new.items
        ≡ list.old.items ++ map (port_runs ports) (named_link ports (index, connection.now))) }
{
    if let Some(expr) = &connection.value {
        let port = named_port(tables, master, index, connection.port.text.as_slice());
        list.push(port_runs(alloc, tables, master, port, expr)?)?;
    }
    Ok(())
}

/// What connections by place connect.
fn values_runs(
    alloc: Global,
    tables: &[PortTable],
    master: Master,
    values: &[Option<Expr>],
) -> Result<Vec<PortRuns>, AllocError>
    ensures { IfOk result (λ list. list.items ≡ map (port_runs (ports_of tables.now [] master))
        (flat_map ordered_link (enumerate_from 0 values.now))) }
{
    let mut list = Vec::new(alloc);
    for (index, value) in values.iter().enumerate() {
        push_value(alloc, &mut list, tables, master, index, value)?;
    }
    Ok(list)
}

/// What named connections connect.
fn connections_runs(
    alloc: Global,
    tables: &[PortTable],
    master: Master,
    connections: &[Connection],
) -> Result<Vec<PortRuns>, AllocError>
    ensures { IfOk result (λ list. let ports = ports_of tables.now [] master in
        list.items ≡ map (port_runs ports)
        (flat_map (named_link ports) (enumerate_from 0 connections.now))) }
{
    let mut list = Vec::new(alloc);
    for (index, connection) in connections.iter().enumerate() {
        push_connection(alloc, &mut list, tables, master, index, connection)?;
    }
    Ok(list)
}

/// What an instance's connections connect.
pub fn links_runs(
    alloc: Global,
    tables: &[PortTable],
    master: Master,
    connections: &Connections,
) -> Result<Vec<PortRuns>, AllocError>
    ensures { IfOk result (λ list. let ports = ports_of tables.now [] master in
        list.items ≡ map (port_runs ports) (links ports connections.now)) }
{
    match connections {
        Connections::ByOrder(values) => values_runs(alloc, tables, master, values.as_slice()),
        Connections::ByName(connections) => {
            connections_runs(alloc, tables, master, connections.as_slice())
        }
    }
}
