//! The plans of modules that are reached.
ghost use Rattle.std.specs.Prelude.{◌≡◌, ℕ, List, length, map, IfOk, if◌then◌else◌};
ghost use Rattle.module_graph.specs.Graph.{references_in};
ghost use Rattle.module_graph.specs.declared.references.Master.{Master as MasterValue};
ghost use Rattle.netlist_plan.specs.Flattening.{no_plan};
ghost use Rattle.netlist_plan.specs.Plan.{module_plan};
ghost use Rattle.module_plan.specs.Meant.{meanings};
ghost use Rattle.netlist_scopes.specs.Reached.{scope_under};
ghost use Rattle.netlist_meaning.specs.Plans.{graph_in};
ghost use Rattle.hierarchy_plans.specs.Lists.{part_lists, plan_list};

use list_of::ListOf;
use module_graph::Reference;
use module_parts::{ModulePart, PartList};
use module_plan::module_plan;
use module_scope::Scope;
use netlist_plan::ModulePlan;
use netlist_rules::Rules;
use sqlite_items::Items;
use std::alloc::{AllocError, Global};
use v_tree::{File, Module};

/// Plans, one for each module.
pub type PlanList = Items<ModulePlan>;

/// The plan of a module that isn't reached.
fn no_plan(alloc: Global) -> ModulePlan
    ensures { result ≡ no_plan }
{
    ModulePlan {
        nets: Items::new(alloc),
        ports: Items::new(alloc),
        steps: Items::new(alloc),
        terminals: ListOf::from_vec(Vec::new(alloc)),
    }
}

/// The plan of a module under its scope, by its parts; one that isn't reached has none.
fn plan_if(
    alloc: Global,
    is_reached: bool,
    scope: &Scope,
    module: &Module,
    references: &[Reference],
    numbers: &[u32],
    parts: &[ModulePart],
) -> Result<ModulePlan, AllocError>
    ensures { IfOk result (λ plan. (of : List ℕ → MasterValue) →
        references.now ≡ references_in of «module».now.items → plan ≡ (if is_reached
        then module_plan scope.now (meanings of numbers.now) «module».now parts.now else no_plan)) }
{
    if is_reached {
        module_plan(alloc, scope, module, references, numbers, parts)
    } else {
        Ok(no_plan(alloc))
    }
}

/// The plan of each module of a file, by the rules on it, the numbers of its primitives and the parts of
/// its modules; one that isn't reached has none.
pub fn plan_list(
    alloc: Global,
    file: &File,
    rules: &Rules,
    numbers: &[u32],
    parts: &[PartList],
) -> Result<PlanList, AllocError>
    requires graph { rules.now.scopes.graph ≡ graph_in file.now }
    requires scopes { rules.now.scopes.scopes
        ≡ map (scope_under file.now.directives) file.now.modules }
    requires reached { length rules.now.scopes.reached ≡ length file.now.modules }
    requires parts { parts.now ≡ part_lists file.now rules.now.scopes.reached }
    ensures { IfOk result (λ plans. plans
        ≡ plan_list file.now numbers.now rules.now.scopes.reached) }
{
    let modules = file.modules.as_slice();
    let scopes = rules.scopes.scopes.as_slice();
    let references = rules.scopes.graph.references();
    let reached = rules.scopes.reached.as_slice();
    let mut plans = Items::new(alloc);
    for i in 0..modules.len() {
        let (list, own) = (references[i].as_slice(), parts[i].as_slice());
        let plan = plan_if(
            alloc,
            reached[i],
            &scopes[i],
            &modules[i],
            list,
            numbers,
            own,
        )?;
        plans.push(plan)?;
    }
    Ok(plans)
}
