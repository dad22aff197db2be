//! The limits on what a hierarchy counts.
ghost use Rattle.std.specs.Prelude.{◌≡◌, ◌<◌, ℕ, List, length, map, IfOk};
ghost use Rattle.hierarchy_counts.specs.Hierarchy.Measure.{Elements, Names, Nets};
ghost use Rattle.hierarchy_counts.specs.Rounds.{cap};
ghost use Rattle.netlist_meaning.specs.Limits.{depth, first_passed, total};
ghost use Rattle.netlist_meaning.specs.Plans.{plans_in};
ghost use Rattle.hierarchy_plans.specs.Lists.{part_lists};
ghost use Rattle.elaborate.specs.Rules.{AreRulesOf};
ghost use Rattle.elaborate.specs.Steps.{hierarchy_tests};

use hierarchy_counts::{HierarchyCounts, hierarchy_counts};
use hierarchy_plans::{instance_count_lists, module_count_list, width_lists};
use module_parts::PartList;
use netlist_meaning::NetlistLimit;
use netlist_rules::Rules;
use std::alloc::{AllocError, Global};
use v_tree::File;

/// How deep modules may stand in one another.
const GREATEST_DEPTH: u64 = 64;

/// How many nets a netlist may have, and how many elements.
const GREATEST_COUNT: u64 = 1_048_576;

/// How many names.
const GREATEST_NAMES: u64 = 2_097_152;

/// The counts of the hierarchy below a top, by the rules on its file and the parts of the modules.
pub fn counts_of(
    alloc: Global,
    file: &File,
    rules: &Rules,
    parts: &[PartList],
    top: usize,
) -> Result<HierarchyCounts, AllocError>
    requires rules { AreRulesOf file.now top rules.now }
    requires parts { parts.now ≡ part_lists file.now rules.now.scopes.reached }
    requires top { top < length file.now.modules }
    ensures depth { IfOk result (λ counts. counts.depth ≡ depth (plans_in file.now top) top) }
    ensures nets { IfOk result (λ counts.
        counts.nets ≡ cap (total Nets (plans_in file.now top) top)) }
    ensures elements { IfOk result (λ counts.
        counts.elements ≡ cap (total Elements (plans_in file.now top) top)) }
    ensures names { IfOk result (λ counts.
        counts.names ≡ cap (total Names (plans_in file.now top) top)) }
{
    let counts = module_count_list(alloc, file, rules, parts)?;
    let widths = width_lists(alloc, file, rules)?;
    let instances = instance_count_lists(alloc, file, rules, widths.as_slice(), parts)?;
    let counts = hierarchy_counts(alloc, &counts, instances.as_slice(), top)?;
    Ok(counts)
}

/// The first limit that counts pass, of those on depth, nets, elements and names in this order.
pub fn passed_limit(counts: HierarchyCounts) -> Option<NetlistLimit>
    ensures { result ≡ first_passed (hierarchy_tests counts) }
{
    if counts.depth > GREATEST_DEPTH {
        Some(NetlistLimit::Depth)
    } else if counts.nets > GREATEST_COUNT {
        Some(NetlistLimit::Nets)
    } else if counts.elements > GREATEST_COUNT {
        Some(NetlistLimit::Elements)
    } else if counts.names > GREATEST_NAMES {
        Some(NetlistLimit::Names)
    } else {
        None
    }
}
