//! The plan of a module.
ghost use Rattle.std.specs.Prelude.{◌≡◌, ℕ, List, IfOk};
ghost use Rattle.module_graph.specs.Graph.{references_in};
ghost use Rattle.module_graph.specs.declared.references.Master.{Master as MasterValue};
ghost use Rattle.netlist_plan.specs.Plan.{module_plan};
ghost use Rattle.module_plan.specs.Meant.{meanings};

use crate::forms::item_forms;
use crate::nets::plan_nets;
use crate::parts::plan_steps;
use crate::ports::plan_ports;
use crate::terminals::switch_terminals;
use module_graph::Reference;
use module_nets::NetTable;
use module_parts::ModulePart;
use module_scope::Scope;
use netlist_plan::ModulePlan;
use std::alloc::{AllocError, Global};
use v_tree::Module;

/// The plan of a module under its scope, by its parts. `references` are those of the module in the graph
/// of its file, and `udp_numbers` has the number of each primitive of the file by its index. A number of
/// a bit or of a thing without name that a `u32` doesn't hold is want of memory.
pub fn module_plan(
    alloc: Global,
    scope: &Scope,
    module: &Module,
    references: &[Reference],
    udp_numbers: &[u32],
    parts: &[ModulePart],
) -> Result<ModulePlan, AllocError>
    ensures { IfOk result (λ plan. (of : List ℕ → MasterValue) →
        references.now ≡ references_in of «module».now.items
        → plan ≡ module_plan scope.now (meanings of udp_numbers.now) «module».now parts.now) }
{
    let nets = NetTable::new(alloc, scope, parts)?;
    let items = module.items.as_slice();
    let forms = item_forms(alloc, references, udp_numbers, items)?;
    Ok(ModulePlan {
        nets: plan_nets(alloc, scope, nets.as_slice())?,
        ports: plan_ports(alloc, scope, &nets, &module.ports)?,
        steps: plan_steps(alloc, scope, &nets, forms.as_slice(), items, parts)?,
        terminals: switch_terminals(alloc, scope, &nets, items)?,
    })
}
