//! The counts of a module.
ghost use Rattle.std.specs.Prelude.{◌≡◌, IfOk};
ghost use Rattle.netlist_plan.specs.Plan.{Meanings, module_plan};
ghost use Rattle.flattening_laws.specs.Counts.{module_counts};
ghost use Rattle.plan_counts.specs.PartCounts.{instances_in, part_instances};

use crate::elements::elements_in;
use crate::nets::plan_bits;
use crate::sums::sum_of;
use hierarchy_counts::ModuleCounts;
use module_nets::NetTable;
use module_parts::ModulePart;
use module_scope::Scope;
use std::alloc::{AllocError, Global};
use v_tree::Module;

/// How many instances of modules a part is.
fn part_instances(part: &ModulePart) -> u64
    ensures { result ≡ part_instances part.now }
{
    match part {
        ModulePart::Names(_) | ModulePart::Gate(_) | ModulePart::Pair(_) => 0,
        ModulePart::Instance(_) => 1,
    }
}

/// How many instances of modules parts are.
fn instances_in(parts: &[ModulePart]) -> Result<u64, AllocError>
    ensures { IfOk result (λ count. count ≡ instances_in parts.now) }
{
    let mut count = 0;
    for part in parts {
        count = sum_of(count, part_instances(part))?;
    }
    Ok(count)
}

/// How many bits of nets, how many elements, and how many names of bits and of instances the plan
/// of a module has, by its scope and its parts. A count that a `u64` doesn't hold is want of memory.
/// It takes time in proportion to the parts and their runs.
pub fn module_counts(
    alloc: Global,
    scope: &Scope,
    module: &Module,
    parts: &[ModulePart],
) -> Result<ModuleCounts, AllocError>
    ensures { IfOk result (λ counts. (given : Meanings) →
        counts ≡ module_counts (module_plan scope.now given «module».now parts.now)) }
{
    let table = NetTable::new(alloc, scope, parts)?;
    let nets = plan_bits(scope, table.as_slice())?;
    let elements = elements_in(scope, module.items.as_slice(), parts)?;
    let names = sum_of(nets, instances_in(parts)?)?;
    Ok(ModuleCounts {
        nets,
        elements,
        names,
    })
}
