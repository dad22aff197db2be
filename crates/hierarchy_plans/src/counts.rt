//! The counts of modules that are reached, and of the instances in them.
ghost use Rattle.std.specs.Prelude.{◌≡◌, ℕ, List, [], length, map, IfOk, if◌then◌else◌};
ghost use Rattle.netlist_plan.specs.declared.plan.ModulePlan.{ModulePlan as PlanValue};
ghost use Rattle.netlist_plan.specs.Plan.{Meanings, module_plan};
ghost use Rattle.netlist_scopes.specs.Reached.{scope_under};
ghost use Rattle.hierarchy_counts.specs.Hierarchy.{nothing};
ghost use Rattle.flattening_laws.specs.Counts.{all_instance_counts, all_module_counts, instance_counts, instance_list, module_counts};
ghost use Rattle.plan_counts.specs.PortWidths.{widths_in};
ghost use Rattle.v_tree.specs.declared.modules.Module.{Module as ModuleValue};
ghost use Rattle.hierarchy_plans.specs.Lists.{part_lists, plan_list, width_lists};

use hierarchy_counts::{InstanceCountsList, ModuleCounts};
use list_of::ListOf;
use module_parts::{ModulePart, PartList};
use module_scope::Scope;
use netlist_rules::Rules;
use plan_counts::{WidthList, instance_counts, module_counts};
use sqlite_items::Items;
use std::alloc::{AllocError, Global};
use v_tree::{File, Module};

/// Counts of instances, a list for each module.
pub type InstanceCountLists = Items<InstanceCountsList>;

/// The counts of a module under its scope, by its parts; one that isn't reached has nothing.
fn counts_if(
    alloc: Global,
    is_reached: bool,
    scope: &Scope,
    module: &Module,
    parts: &[ModulePart],
) -> Result<ModuleCounts, AllocError>
    ensures { IfOk result (λ counts. (given : Meanings) → counts ≡ (if is_reached
        then module_counts (module_plan scope.now given «module».now parts.now) else nothing)) }
{
    if is_reached {
        module_counts(alloc, scope, module, parts)
    } else {
        Ok(ModuleCounts {
            nets: 0,
            elements: 0,
            names: 0,
        })
    }
}

/// The counts of each module of a file, by the rules on it and the parts of its modules. They are the same
/// for all numbers of primitives.
pub fn module_count_list(
    alloc: Global,
    file: &File,
    rules: &Rules,
    parts: &[PartList],
) -> Result<Vec<ModuleCounts>, AllocError>
    requires scopes { rules.now.scopes.scopes
        ≡ map (scope_under file.now.directives) file.now.modules }
    requires reached { length rules.now.scopes.reached ≡ length file.now.modules }
    requires parts { parts.now ≡ part_lists file.now rules.now.scopes.reached }
    ensures { IfOk result (λ counts. (numbers : List ℕ) → counts.items
        ≡ all_module_counts (plan_list file.now numbers rules.now.scopes.reached)) }
{
    let modules = file.modules.as_slice();
    let scopes = rules.scopes.scopes.as_slice();
    let reached = rules.scopes.reached.as_slice();
    let mut counts = Vec::new(alloc);
    for i in 0..modules.len() {
        let own = parts[i].as_slice();
        counts.push(counts_if(alloc, reached[i], &scopes[i], &modules[i], own)?)?;
    }
    Ok(counts)
}

/// The counts of the instances in a module under its scope, by its parts and the widths of the ports of
/// each module; one that isn't reached has no instances.
fn instances_if(
    alloc: Global,
    is_reached: bool,
    scope: &Scope,
    widths: &[WidthList],
    parts: &[ModulePart],
) -> Result<InstanceCountsList, AllocError>
    ensures { IfOk result (λ counts. (given : Meanings) (m : ModuleValue) (plans : List PlanValue)
        → map widths_in plans ≡ widths.now → counts ≡ (if is_reached then map (instance_counts plans)
        (instance_list (module_plan scope.now given m parts.now).steps) else [])) }
{
    if is_reached {
        instance_counts(alloc, scope, widths, parts)
    } else {
        Ok(ListOf::from_vec(Vec::new(alloc)))
    }
}

/// The counts of the instances in each module of a file, by the rules on it, the widths of ports and the
/// parts of its modules. They are the same for all numbers of primitives.
pub fn instance_count_lists(
    alloc: Global,
    file: &File,
    rules: &Rules,
    widths: &[WidthList],
    parts: &[PartList],
) -> Result<InstanceCountLists, AllocError>
    requires scopes { rules.now.scopes.scopes
        ≡ map (scope_under file.now.directives) file.now.modules }
    requires reached { length rules.now.scopes.reached ≡ length file.now.modules }
    requires widths { widths.now ≡ width_lists file.now rules.now.scopes.reached }
    requires parts { parts.now ≡ part_lists file.now rules.now.scopes.reached }
    ensures { IfOk result (λ lists. (numbers : List ℕ) → lists
        ≡ all_instance_counts (plan_list file.now numbers rules.now.scopes.reached)) }
{
    let scopes = rules.scopes.scopes.as_slice();
    let reached = rules.scopes.reached.as_slice();
    let mut lists = Items::new(alloc);
    for i in 0..file.modules.as_slice().len() {
        let own = parts[i].as_slice();
        lists.push(instances_if(alloc, reached[i], &scopes[i], widths, own)?)?;
    }
    Ok(lists)
}
