//! How many bits the instances of modules connect.
ghost use Rattle.std.specs.Prelude.{◌≡◌, ◌++◌, [], List, map, slice_index_or, sum_by, IfOk, OnOk};
ghost use Rattle.v_tree.specs.declared.modules.Module.{Module as ModuleValue};
ghost use Rattle.netlist_plan.specs.declared.plan.ModulePlan.{ModulePlan};
ghost use Rattle.netlist_plan.specs.Plan.{Meanings, module_plan};
ghost use Rattle.flattening_laws.specs.Counts.{instance_counts, instance_list};
ghost use Rattle.plan_counts.specs.PartCounts.{bound_bits, counts_of, part_counts};
ghost use Rattle.plan_counts.specs.PortWidths.{widths_in};

use crate::ports::WidthList;
use crate::sums::{count_of, sum_of};
use expression_bits::runs_width;
use hierarchy_counts::{InstanceCounts, InstanceCountsList};
use module_parts::{InstancePart, ModulePart, PortRuns};
use module_scope::Scope;
use std::alloc::{AllocError, Global};

/// The widths of the ports of the module of an index; one that isn't there has none.
fn widths_at(widths: &[WidthList], master: usize) -> &[u64]
    ensures { result.now ≡ slice_index_or widths.now master [] }
{
    match widths.get(master) {
        Some(widths) => widths.as_slice(),
        None => &[],
    }
}

/// How many bits of a port are connected; a port that isn't there has none.
fn bound_bits(scope: &Scope, widths: &[u64], connection: &PortRuns) -> Result<u64, AllocError>
    ensures { IfOk result (λ bits. bits ≡ bound_bits scope.now widths.now connection.now) }
{
    let Some(port) = connection.port else {
        return Ok(0);
    };
    match widths.get(port) {
        Some(width) => {
            count_of(u128::from(*width).min(runs_width(scope, connection.runs.as_slice())))
        }
        None => Ok(0),
    }
}

/// How many bits connections connect together.
fn bound_in(scope: &Scope, widths: &[u64], connections: &[PortRuns]) -> Result<u64, AllocError>
    ensures { IfOk result (λ bits.
        bits ≡ sum_by (bound_bits scope.now widths.now) connections.now) }
{
    let mut bits = 0;
    for connection in connections {
        bits = sum_of(bits, bound_bits(scope, widths, connection)?)?;
    }
    Ok(bits)
}

/// An instance with the bits that it connects.
fn counts_of(
    scope: &Scope,
    widths: &[WidthList],
    instance: &InstancePart,
) -> Result<InstanceCounts, AllocError>
    ensures { IfOk result (λ counts. counts ≡ counts_of scope.now widths.now instance.now) }
{
    let ports = widths_at(widths, instance.master);
    Ok(InstanceCounts {
        master: instance.master,
        bound: bound_in(scope, ports, instance.connections.as_slice())?,
    })
}

/// Adds the instance that a part is.
fn push_part(
    counts: &mut Vec<InstanceCounts>,
    scope: &Scope,
    widths: &[WidthList],
    part: &ModulePart,
) -> Result<(), AllocError>
    ensures { OnOk result (counts.new.items
        ≡ counts.old.items ++ part_counts scope.now widths.now part.now) }
{
    match part {
        ModulePart::Names(_) | ModulePart::Gate(_) | ModulePart::Pair(_) => Ok(()),
        ModulePart::Instance(instance) => {
            counts.push(counts_of(scope, widths, instance)?)?;
            Ok(())
        }
    }
}

/// How many bits each instance in a module connects, by the scope and the parts of that module and
/// the widths of the ports of all modules. A connection counts up to the width of its port, and one
/// without a port counts nothing. A count that a `u64` doesn't hold is want of memory.
pub fn instance_counts(
    alloc: Global,
    scope: &Scope,
    widths: &[WidthList],
    parts: &[ModulePart],
) -> Result<InstanceCountsList, AllocError>
    ensures { IfOk result (λ counts.
        (given : Meanings) (m : ModuleValue) (plans : List ModulePlan) →
        map widths_in plans ≡ widths.now → counts ≡ map (instance_counts plans)
        (instance_list (module_plan scope.now given m parts.now).steps)) }
{
    let mut counts = Vec::new(alloc);
    for part in parts {
        push_part(&mut counts, scope, widths, part)?;
    }
    Ok(InstanceCountsList::from_vec(counts))
}
