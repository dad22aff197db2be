//! Instances with all that is in them.
ghost use Rattle.std.specs.Prelude.{◌≡◌, ◌++◌, [], length, IfOk, OnOk};
ghost use Rattle.flat_names.specs.Spelling.{Written, part_spelling};
ghost use Rattle.netlist_plan.specs.Additions.{joined};
ghost use Rattle.netlist_plan.specs.Flattening.{bound_numbers, flattening};
ghost use Rattle.flattening.specs.Delays.{hierarchy};
ghost use Rattle.flattening.specs.Lists.{all_in, so_far};
ghost use Rattle.flattening.specs.Spelled.{additions, plan_in};

use crate::connections::bound_numbers;
use crate::delays::ItemDelays;
use crate::elements::push_element;
use crate::lists::{FlatLists, Growth, all_of, no_growth};
use crate::nets::push_nets;
use crate::numbers::place_of;
use crate::places::Place;
use flat_names::push_instance as push_instance_name;
use netlist_plan::{ModulePlan, PlanInstance, PlanStep};
use std::alloc::{AllocError, Global};
use v_lexer::ReservedWords;

/// How many levels of modules are written out, the top among them.
const LEVELS: u64 = 64;

/// The path of an instance in another, as it is written before a name.
fn inner_prefix(
    alloc: Global,
    words: &ReservedWords,
    at: &Place,
    instance: &PlanInstance,
) -> Result<Vec<u8>, AllocError>
    ensures { IfOk result (λ prefix. prefix.items
        ≡ at.now.prefix ++ part_spelling (Written instance.now.name)) }
{
    let mut prefix = Vec::from_slice(alloc, at.prefix.as_slice())?;
    push_instance_name(&mut prefix, words, instance.name.as_slice())?;
    Ok(prefix)
}

/// The bits of an instance's module that are connected, with the numbers of the nets outside.
fn inner_numbers(
    alloc: Global,
    plans: &[ModulePlan],
    at: &Place,
    instance: &PlanInstance,
) -> Result<Vec<(u32, u32)>, AllocError>
    ensures { IfOk result (λ outside. outside.items ≡ bound_numbers at.now.numbers
        (plan_in plans.now instance.now.master).ports instance.now.connections) }
{
    match plans.get(instance.master) {
        Some(plan) => bound_numbers(
            alloc,
            at.numbers.as_slice(),
            plan.ports.as_slice(),
            instance.connections.as_slice(),
        ),
        None => bound_numbers(
            alloc,
            at.numbers.as_slice(),
            &[],
            instance.connections.as_slice(),
        ),
    }
}

/// Adds an instance of a module with all that is in it, down to so many levels, where the next number of
/// a net is that of the nets so far.
fn push_instance(
    alloc: Global,
    words: &ReservedWords,
    plans: &[ModulePlan],
    delays: &ItemDelays,
    levels: u64,
    master: usize,
    prefix: Vec<u8>,
    outside: &[(u32, u32)],
    to: &mut Growth,
) -> Result<(), AllocError>
    ensures { OnOk result (so_far to.new ≡ joined (so_far to.old) (additions plans.now delays.now
        levels master prefix.items outside.now (length to.old.net_names.items))) }
{
    if levels == 0 {
        return Ok(());
    }
    if let Some(plan) = plans.get(master) {
        let nets = plan.nets.as_slice();
        let at = place_of(alloc, nets, master, prefix, outside, to.net_names.len())?;
        push_nets(alloc, words, delays, &at, plan, to)?;
        for step in plan.steps.as_slice() {
            match step {
                PlanStep::Element(element) => {
                    push_element(alloc, words, delays, &at, element, to)?;
                }
                PlanStep::Instance(instance) => {
                    let inner = inner_prefix(alloc, words, &at, instance)?;
                    let bound = inner_numbers(alloc, plans, &at, instance)?;
                    push_instance(
                        alloc,
                        words,
                        plans,
                        delays,
                        levels - 1,
                        instance.master,
                        inner,
                        &bound,
                        to,
                    )?;
                }
            }
        }
    }
    Ok(())
}

/// The top by its index with all that is in it, at most 64 levels deep, by the plans of modules and the
/// delays of their items. More nets than a `u32` counts are want of memory. It takes time and memory in
/// proportion to the instances and what they add.
pub fn flatten(
    alloc: Global,
    words: &ReservedWords,
    plans: &[ModulePlan],
    delays: &ItemDelays,
    top: usize,
) -> Result<FlatLists, AllocError>
    ensures { IfOk result
        (λ flat. all_in flat ≡ flattening (hierarchy plans.now delays.now) top) }
{
    let mut growth = no_growth(alloc);
    let prefix = Vec::new(alloc);
    push_instance(
        alloc,
        words,
        plans,
        delays,
        LEVELS,
        top,
        prefix,
        &[],
        &mut growth,
    )?;
    Ok(all_of(growth))
}
