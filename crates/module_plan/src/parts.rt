//! The steps of parts.
ghost use Rattle.std.specs.Prelude.{◌≡◌, ◌+◌, ◌++◌, map, IfOk, OnOk};
ghost use Rattle.std.specs.List.{flat_map};
ghost use Rattle.netlist_plan.specs.Unnamed.{literal_count, numbered_from, own_count, runs_in, unnamed_count};
ghost use Rattle.netlist_plan.specs.Elements.{constants};
ghost use Rattle.netlist_plan.specs.Plan.{Meanings, element_steps, gate_elements, item_form, own_steps, pair_elements, part_steps};
ghost use Rattle.module_plan.specs.Surroundings.{given};

use crate::assignments::{cut_bits, push_copies};
use crate::bits::{runs_bits, terminal_bits};
use crate::constants::{push_connection_constants, push_constants, push_terminal_constants};
use crate::forms::{form_at, strengths_at};
use crate::gates::push_gate;
use crate::instances::instance_plan;
use crate::numbers::number_after;
use element_forms::ElementForm;
use module_nets::NetTable;
use module_parts::{GatePart, ModulePart, PairPart};
use module_scope::Scope;
use netlist_plan::{PlanStep, PlanStepList};
use sqlite_items::Items;
use std::alloc::{AllocError, Global};
use v_tree::Item;

/// How many things without name a part itself is.
fn own_count(part: &ModulePart) -> usize
    ensures { result ≡ own_count part.now }
{
    match part {
        ModulePart::Gate(gate) => match gate.name {
            Some(_) => 0,
            None => 1,
        },
        ModulePart::Pair(_) => 1,
        ModulePart::Names(_) | ModulePart::Instance(_) => 0,
    }
}

/// Adds the constants of the literals of an assignment, and gives the number behind them.
fn push_pair_constants(
    alloc: Global,
    steps: &mut PlanStepList,
    nets: &NetTable,
    number: u32,
    pair: &PairPart,
) -> Result<u32, AllocError>
    ensures steps { OnOk result (steps.new ≡ steps.old
        ++ element_steps (constants nets.now number (runs_in (ModulePart.Pair pair.now)))) }
    ensures next { IfOk result (λ next.
        next ≡ number + literal_count (runs_in (ModulePart.Pair pair.now))) }
{
    let middle = push_constants(alloc, steps, nets, number, pair.target.as_slice())?;
    push_constants(alloc, steps, nets, middle, pair.value.runs.as_slice())
}

/// Adds the constants of the literals of a part, and gives the number behind them.
fn push_part_constants(
    alloc: Global,
    steps: &mut PlanStepList,
    nets: &NetTable,
    number: u32,
    part: &ModulePart,
) -> Result<u32, AllocError>
    ensures steps { OnOk result (steps.new
        ≡ steps.old ++ element_steps (constants nets.now number (runs_in part.now))) }
    ensures next { IfOk result (λ next. next ≡ number + literal_count (runs_in part.now)) }
{
    match part {
        ModulePart::Names(_) => Ok(number),
        ModulePart::Gate(gate) => {
            push_terminal_constants(alloc, steps, nets, number, gate.terminals.as_slice())
        }
        ModulePart::Pair(pair) => push_pair_constants(alloc, steps, nets, number, pair),
        ModulePart::Instance(instance) => {
            let connections = instance.connections.as_slice();
            push_connection_constants(alloc, steps, nets, number, connections)
        }
    }
}

/// Adds the elements of a gate, of which the first thing without name has a number.
fn push_gate_elements(
    alloc: Global,
    steps: &mut PlanStepList,
    scope: &Scope,
    nets: &NetTable,
    forms: &[ElementForm],
    items: &[Item],
    number: u32,
    behind: u32,
    gate: &GatePart,
) -> Result<(), AllocError>
    requires { behind ≡ number + own_count (ModulePart.Gate gate.now) }
    ensures { OnOk result ((meant : Meanings) → forms.now ≡ map (item_form meant) items.now
        → steps.new ≡ steps.old ++ element_steps
        (gate_elements (given scope.now nets.now items.now meant) number gate.now)) }
{
    let terminals = terminal_bits(alloc, scope, nets, behind, gate.terminals.as_slice())?;
    let form = form_at(forms, gate.item);
    let strengths = strengths_at(items, gate.item);
    push_gate(
        alloc, steps, number, &gate.name, form, strengths, gate.item, &terminals,
    )
}

/// Adds the elements of an assignment of a number, behind which its literals are counted.
fn push_pair_elements(
    alloc: Global,
    steps: &mut PlanStepList,
    scope: &Scope,
    nets: &NetTable,
    items: &[Item],
    number: u32,
    behind: u32,
    pair: &PairPart,
) -> Result<(), AllocError>
    requires { behind ≡ number + 1 }
    ensures { OnOk result ((meant : Meanings) → steps.new ≡ steps.old ++ element_steps
        (pair_elements (given scope.now nets.now items.now meant) number pair.now)) }
{
    let targets = runs_bits(alloc, scope, nets, behind, pair.target.as_slice())?;
    let values = runs_bits(alloc, scope, nets, targets.next, pair.value.runs.as_slice())?;
    let kept = cut_bits(&values.bits, pair.value.cut);
    let strengths = strengths_at(items, pair.item);
    push_copies(
        alloc,
        steps,
        number,
        strengths,
        pair.item,
        &targets.bits,
        kept,
    )
}

/// Adds the steps of a part without the constants, where it and what it counts have numbers.
fn push_own(
    alloc: Global,
    steps: &mut PlanStepList,
    scope: &Scope,
    nets: &NetTable,
    forms: &[ElementForm],
    items: &[Item],
    number: u32,
    behind: u32,
    part: &ModulePart,
) -> Result<(), AllocError>
    requires { behind ≡ number + own_count part.now }
    ensures { OnOk result ((meant : Meanings) → forms.now ≡ map (item_form meant) items.now
        → steps.new ≡ steps.old ++ own_steps (given scope.now nets.now items.now meant) number part.now) }
{
    match part {
        ModulePart::Names(_) => Ok(()),
        ModulePart::Gate(gate) => {
            push_gate_elements(
                alloc, steps, scope, nets, forms, items, number, behind, gate,
            )
        }
        ModulePart::Pair(pair) => {
            push_pair_elements(alloc, steps, scope, nets, items, number, behind, pair)
        }
        ModulePart::Instance(instance) => {
            let plan = instance_plan(alloc, scope, nets, number, instance)?;
            steps.push(PlanStep::Instance(plan))
        }
    }
}

/// Adds the steps of a part, of which the first thing without name has a number. Gives the number
/// behind it.
fn push_part(
    alloc: Global,
    steps: &mut PlanStepList,
    scope: &Scope,
    nets: &NetTable,
    forms: &[ElementForm],
    items: &[Item],
    number: u32,
    part: &ModulePart,
) -> Result<u32, AllocError>
    ensures steps { OnOk result ((meant : Meanings) → forms.now ≡ map (item_form meant) items.now
        → steps.new ≡ steps.old
        ++ part_steps (given scope.now nets.now items.now meant) (number, part.now)) }
    ensures next { IfOk result (λ next. next ≡ number + unnamed_count part.now) }
{
    let behind = number_after(number, own_count(part))?;
    let next = push_part_constants(alloc, steps, nets, behind, part)?;
    push_own(
        alloc, steps, scope, nets, forms, items, number, behind, part,
    )?;
    Ok(next)
}

/// The steps of parts.
pub fn plan_steps(
    alloc: Global,
    scope: &Scope,
    nets: &NetTable,
    forms: &[ElementForm],
    items: &[Item],
    parts: &[ModulePart],
) -> Result<PlanStepList, AllocError>
    ensures { IfOk result (λ steps. (meant : Meanings)
        → forms.now ≡ map (item_form meant) items.now
        → steps ≡ flat_map (part_steps (given scope.now nets.now items.now meant))
        (numbered_from 0 parts.now)) }
{
    let mut steps = Items::new(alloc);
    let mut next = 0;
    for part in parts {
        next = push_part(alloc, &mut steps, scope, nets, forms, items, next, part)?;
    }
    Ok(steps)
}
