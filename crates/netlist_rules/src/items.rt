//! The first places of the rules on the items of a module.
ghost use Rattle.std.specs.Prelude.{◌≡◌, ℕ, List, IfOk};
ghost use Rattle.module_graph.specs.Graph.{references_in};
ghost use Rattle.module_graph.specs.declared.references.Master.{Master as MasterValue};
ghost use Rattle.netlist_rules.specs.Walks.{first_under, joined_places};

use gate_rules::{GatePlaces, gate_places};
use instance_rules::{ItemPlaces, instance_places};
use module_graph::Reference;
use module_ports::PortTable;
use module_scope::Scope;
use rule_places::earliest;
use std::alloc::{AllocError, Global};
use v_tree::Module;

/// For each rule the earlier of a place of gates and one of instances.
fn joined_places(gates: GatePlaces, instances: ItemPlaces) -> ItemPlaces
    ensures { result ≡ joined_places gates instances }
{
    ItemPlaces {
        widths: earliest(gates.widths, instances.widths),
        counts: earliest(gates.counts, instances.counts),
        delays: earliest(gates.delays, instances.delays),
        drives: earliest(gates.drives, instances.drives),
        connections: instances.connections,
        literals: earliest(gates.literals, instances.literals),
    }
}

/// The first place of each rule in a module, given its references, the ports of each module and how
/// many ports each primitive has.
pub fn module_places(
    alloc: Global,
    scope: &Scope,
    module: &Module,
    references: &[Reference],
    tables: &[PortTable],
    counts: &[usize],
) -> Result<ItemPlaces, AllocError>
    ensures { IfOk result (λ places. (of : List ℕ → MasterValue) →
        references.now ≡ references_in of «module».now.items → places ≡ first_under scope.now
        (record { of = of; tables = tables.now; counts = counts.now }) «module».now) }
{
    let gates = gate_places(scope, module);
    let instances = instance_places(alloc, scope, module, references, tables, counts)?;
    Ok(joined_places(gates, instances))
}
