ghost use Rattle.std.specs.Prelude.{◌≡◌, ◌+◌, ◌<◌, length, IfOk};
ghost use Rattle.hierarchy_counts.specs.Hierarchy.{AreWithin, Nets, Elements, Names, levels_inside, whole};
ghost use Rattle.hierarchy_counts.specs.Rounds.{cap};

use crate::rounds::{Row, add, row_of_top};
use list_of::ListOf;
use std::alloc::{AllocError, Global};

/// What a module has by itself: the bits of all its nets, its elements, and the names of its net bits and
/// of the instances in it.
#[derive(Clone, Copy, Debug, PartialEq, Eq)]
pub struct ModuleCounts {
    pub nets: u64,
    pub elements: u64,
    pub names: u64,
}

/// An instance: the index of its module, and how many bits of that module's nets are connected outside.
#[derive(Clone, Copy, Debug, PartialEq, Eq)]
pub struct InstanceCounts {
    pub master: usize,
    pub bound: u64,
}

/// The instances in a module.
pub type InstanceCountsList = ListOf<InstanceCounts>;

/// The counts of a hierarchy: how many modules stand in one another, the top among them, where 65 is
/// said of all that are deeper than 64; and its nets, elements and names when it is written out down to
/// 64 levels below the top, each up to 2^32.
#[derive(Clone, Copy, Debug, PartialEq, Eq)]
pub struct HierarchyCounts {
    pub depth: u64,
    pub nets: u64,
    pub elements: u64,
    pub names: u64,
}

/// A top with what is inside it.
fn counts_with(top: ModuleCounts, inside: Row) -> HierarchyCounts
    ensures { result ≡ record {
      depth = cap (inside.levels + 1);
      nets = cap (top.nets + inside.nets);
      elements = cap (top.elements + inside.elements);
      names = cap (top.names + inside.names);
    } }
{
    HierarchyCounts {
        depth: add(inside.levels, 1),
        nets: add(top.nets, inside.nets),
        elements: add(top.elements, inside.elements),
        names: add(top.names, inside.names),
    }
}

/// The counts of the hierarchy below a top, by the counts of each module and its instances. It takes
/// time in proportion to the modules and instances for each level that the top has, up to 64.
pub fn hierarchy_counts(
    alloc: Global,
    modules: &[ModuleCounts],
    instances: &[InstanceCountsList],
    top: usize,
) -> Result<HierarchyCounts, AllocError>
    requires lists { length instances.now ≡ length modules.now }
    requires within { AreWithin (length modules.now) instances.now }
    requires top { top < length modules.now }
    ensures depth { IfOk result (λ counts.
        counts.depth ≡ 1 + levels_inside instances.now 64 top) }
    ensures nets { IfOk result (λ counts.
        counts.nets ≡ cap (whole Nets modules.now instances.now 64 top)) }
    ensures elements { IfOk result (λ counts.
        counts.elements ≡ cap (whole Elements modules.now instances.now 64 top)) }
    ensures names { IfOk result (λ counts.
        counts.names ≡ cap (whole Names modules.now instances.now 64 top)) }
{
    let row = row_of_top(alloc, modules, instances, top)?;
    Ok(counts_with(modules[top], row))
}
