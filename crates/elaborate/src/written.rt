//! A hierarchy that is written out.
ghost use Rattle.std.specs.Prelude.{◌≡◌, ◌<◌, [], length, slice_index_or, IfOk};
ghost use Rattle.std.specs.List.{list_any};
ghost use Rattle.module_directives.specs.Precisions.{coarse_precisions};
ghost use Rattle.instance_rules.specs.Links.{is_driving};
ghost use Rattle.netlist_plan.specs.Flattening.{flattening, no_plan};
ghost use Rattle.flattening.specs.Delays.{hierarchy};
ghost use Rattle.flattening.specs.Lists.{all_in};
ghost use Rattle.netlist_meaning.specs.Delays.{has_long};
ghost use Rattle.netlist_meaning.specs.Limits.{modules_in};
ghost use Rattle.netlist_meaning.specs.Netlist.{additions_in, is_driven, port_nets, top_nets};
ghost use Rattle.netlist_meaning.specs.Plans.{plans_in, primitive_numbers, primitives_in, primitives_reached};
ghost use Rattle.hierarchy_plans.specs.Lists.{part_lists};
ghost use Rattle.reached_parts.specs.Sides.{is_on};
ghost use Rattle.elaborate.specs.Rules.{AreRulesOf};

use byte_lists::NetList;
use chosen_delays::Mtm;
use flat_net::UdpList;
use flattening::{FlatLists, ItemDelays, flatten};
use hierarchy_plans::{PlanList, plan_list, primitive_numbers};
use item_delays::item_delays;
use module_graph::ReachedList;
use module_parts::PartList;
use module_ports::PortTable;
use netlist_plan::ModulePlan;
use netlist_rules::Rules;
use reached_parts::{Side, port_nets, reached_primitives};
use std::alloc::{AllocError, Global};
use v_lexer::ReservedWords;
use v_tree::File;

/// What a top adds with all that is in it, whether a delay is past the greatest, the primitives, and the
/// nets of the top's inputs and outputs.
#[derive(Debug, Drop)]
pub struct Written {
    pub flat: FlatLists,
    pub is_long: bool,
    pub udps: UdpList,
    pub inputs: NetList,
    pub outputs: NetList,
}

/// For each primitive of a file whether the top reaches it.
fn primitives_reached(
    alloc: Global,
    file: &File,
    rules: &Rules,
    top: usize,
) -> Result<ReachedList, AllocError>
    requires rules { AreRulesOf file.now top rules.now }
    ensures { IfOk result (λ reached. reached ≡ primitives_reached file.now top) }
{
    let reached = rules.scopes.reached.as_slice();
    let count = file.udps.as_slice().len();
    let udps = rules.scopes.graph.reached_udps(alloc, reached, count)?;
    Ok(udps)
}

/// The plans of a file's modules, given for each primitive whether the top reaches it.
fn plans_of(
    alloc: Global,
    file: &File,
    rules: &Rules,
    reached: &[bool],
    parts: &[PartList],
    top: usize,
) -> Result<PlanList, AllocError>
    requires rules { AreRulesOf file.now top rules.now }
    requires reached { reached.now ≡ primitives_reached file.now top }
    requires parts { parts.now ≡ part_lists file.now rules.now.scopes.reached }
    ensures { IfOk result (λ plans. plans ≡ plans_in file.now top) }
{
    let numbers = primitive_numbers(alloc, reached)?;
    let plans = plan_list(alloc, file, rules, &numbers, parts)?;
    Ok(plans)
}

/// The nets on a side of a top, by the ports and the plans of all modules.
fn top_nets(
    alloc: Global,
    side: Side,
    tables: &[PortTable],
    plans: &[ModulePlan],
    top: usize,
) -> Result<NetList, AllocError>
    requires tables { top < length tables.now }
    requires plans { top < length plans.now }
    ensures { IfOk result (λ nets. nets ≡ port_nets (is_on side) (slice_index_or tables.now top [])
        (slice_index_or plans.now top no_plan).ports) }
{
    let nets = port_nets(alloc, side, &tables[top], plans[top].ports.as_slice())?;
    Ok(nets)
}

/// A top by its index with all that is in it, by plans and delays.
fn flat_lists(
    alloc: Global,
    plans: &[ModulePlan],
    delays: &ItemDelays,
    top: usize,
) -> Result<FlatLists, AllocError>
    ensures { IfOk result
        (λ flat. all_in flat ≡ flattening (hierarchy plans.now delays.now) top) }
{
    let words = ReservedWords::new(alloc)?;
    let flat = flatten(alloc, &words, plans, delays, top)?;
    Ok(flat)
}

/// The hierarchy of a top, written out by the rules on its file, the parts of its modules and the choice of
/// delays.
pub fn write_out(
    alloc: Global,
    file: &File,
    rules: &Rules,
    parts: &[PartList],
    choice: Mtm,
    top: usize,
) -> Result<Written, AllocError>
    requires rules { AreRulesOf file.now top rules.now }
    requires precisions { coarse_precisions file.now.directives ≡ [] }
    requires parts { parts.now ≡ part_lists file.now rules.now.scopes.reached }
    requires top { top < length file.now.modules }
    ensures flat { IfOk result (λ w. all_in w.flat ≡ additions_in choice file.now top) }
    ensures is_long { IfOk result (λ w. w.is_long
        ≡ list_any (has_long choice file.now.directives) (modules_in file.now top)) }
    ensures udps { IfOk result (λ w. w.udps ≡ primitives_in file.now top) }
    ensures inputs { IfOk result (λ w. w.inputs ≡ top_nets is_driven file.now top) }
    ensures outputs { IfOk result (λ w. w.outputs ≡ top_nets is_driving file.now top) }
{
    let reached = primitives_reached(alloc, file, rules, top)?;
    let plans = plans_of(alloc, file, rules, reached.as_slice(), parts, top)?;
    let settings = rules.scopes.settings.as_slice();
    let chosen = item_delays(
        alloc,
        file,
        settings,
        rules.scopes.reached.as_slice(),
        choice,
    )?;
    let (tables, plans) = (rules.tables.as_slice(), plans.as_slice());
    Ok(Written {
        flat: flat_lists(alloc, plans, &chosen.delays, top)?,
        is_long: chosen.is_long,
        udps: reached_primitives(alloc, file.udps.as_slice(), reached.as_slice())?,
        inputs: top_nets(alloc, Side::Inputs, tables, plans, top)?,
        outputs: top_nets(alloc, Side::Outputs, tables, plans, top)?,
    })
}
