//! The ports of the modules and primitives of a file.
ghost use Rattle.std.specs.Prelude.{◌≡◌, map, IfOk};
ghost use Rattle.netlist_scopes.specs.Reached.{scope_under};
ghost use Rattle.netlist_rules.specs.Items.{port_counts, port_tables};

use module_ports::PortTable;
use module_scope::Scope;
use primitive_rules::port_count;
use sqlite_items::Items;
use std::alloc::{AllocError, Global};
use v_tree::{Directive, Module, UdpDecl};

/// Ports, a table for each module.
pub type PortTableList = Items<PortTable>;

/// The ports of each module under its scope.
pub fn port_tables(
    alloc: Global,
    directives: &[Directive],
    modules: &[Module],
    scopes: &[Scope],
) -> Result<PortTableList, AllocError>
    requires { scopes.now ≡ map (scope_under directives.now) modules.now }
    ensures { IfOk result (λ tables. tables ≡ port_tables directives.now modules.now) }
{
    let mut tables = Items::new(alloc);
    for i in 0..modules.len() {
        tables.push(PortTable::new(alloc, &modules[i], &scopes[i])?)?;
    }
    Ok(tables)
}

/// How many ports each primitive has.
pub fn port_counts(alloc: Global, udps: &[UdpDecl]) -> Result<Vec<usize>, AllocError>
    ensures { IfOk result (λ counts. counts.items ≡ port_counts udps.now) }
{
    let mut counts = Vec::new(alloc);
    for udp in udps {
        counts.push(port_count(&udp.ports))?;
    }
    Ok(counts)
}
