//! The constants that literals are.
ghost use Rattle.std.specs.Prelude.{◌≡◌, ◌+◌, ◌∷◌, [], ◌++◌, IfOk, OnOk};
ghost use Rattle.std.specs.List.{flat_map};
ghost use Rattle.netlist_plan.specs.Unnamed.{literal_count};
ghost use Rattle.netlist_plan.specs.Elements.{bit_value, constant, constants, literal_constants};
ghost use Rattle.netlist_plan.specs.Plan.{element_steps};

use crate::bits::literals_in;
use crate::elements::{no_bits, one_bit, push_element};
use crate::numbers::{number_after, plan_number, plan_sum};
use element_forms::drive_strengths;
use expression_bits::{BitRun, RunList};
use flat_net::ElementKind;
use level_range::Logic;
use module_nets::NetTable;
use module_parts::PortRuns;
use netlist_plan::{ElementName, PlanElement, PlanStepList};
use std::alloc::{AllocError, Global};
use v_lexer::Bit;

fn bit_value(bit: Bit) -> Logic
    ensures { result ≡ bit_value bit }
{
    match bit {
        Bit::Zero => Logic::Zero,
        Bit::One => Logic::One,
        Bit::X => Logic::X,
        Bit::Z => Logic::Z,
    }
}

/// The constant of a bit of a literal of a number, a width and a first bit, by its place from the left.
fn constant(
    alloc: Global,
    number: u32,
    width: usize,
    first: u64,
    place: usize,
    bit: Bit,
) -> Result<PlanElement, AllocError>
    ensures { IfOk result (λ element. element ≡ constant number width first (place, bit)) }
{
    let index = plan_number(width.saturating_sub(1).saturating_sub(place) as u64)?;
    let out = plan_sum(first, place as u64)?;
    Ok(PlanElement {
        name: ElementName::Bit(number, index),
        kind: ElementKind::Constant(bit_value(bit)),
        strengths: drive_strengths(None),
        item: None,
        resistive: false,
        outs: one_bit(alloc, out)?,
        ins: no_bits(alloc),
        ends: None,
    })
}

/// Adds the constants of a literal of a number.
fn push_literal(
    alloc: Global,
    steps: &mut PlanStepList,
    nets: &NetTable,
    number: u32,
    bits: &[Bit],
) -> Result<(), AllocError>
    ensures { OnOk result (steps.new
        ≡ steps.old ++ element_steps (literal_constants nets.now number bits.now)) }
{
    let first = nets.literal_first(number as usize);
    for (place, bit) in bits.iter().enumerate() {
        push_element(
            steps,
            constant(alloc, number, bits.len(), first, place, *bit)?,
        )?;
    }
    Ok(())
}

/// Adds the constants of a run, where it has a number if it is a literal.
fn push_run(
    alloc: Global,
    steps: &mut PlanStepList,
    nets: &NetTable,
    number: u32,
    run: &BitRun,
) -> Result<(), AllocError>
    ensures { OnOk result (steps.new
        ≡ steps.old ++ element_steps (constants nets.now number (run.now ∷ []))) }
{
    match run {
        BitRun::Net(_, _) => Ok(()),
        BitRun::Literal(bits) => push_literal(alloc, steps, nets, number, bits.as_slice()),
    }
}

/// Adds the constants of the literals among runs, where the first of them has a number. Gives the
/// number of the first literal behind them.
pub fn push_constants(
    alloc: Global,
    steps: &mut PlanStepList,
    nets: &NetTable,
    number: u32,
    runs: &[BitRun],
) -> Result<u32, AllocError>
    ensures steps { OnOk result (steps.new
        ≡ steps.old ++ element_steps (constants nets.now number runs.now)) }
    ensures next { IfOk result (λ next. next ≡ number + literal_count runs.now) }
{
    let mut next = number;
    for run in runs {
        push_run(alloc, steps, nets, next, run)?;
        next = number_after(next, literals_in(run))?;
    }
    Ok(next)
}

/// Adds the constants of the literals among terminals, and gives the number behind them.
pub fn push_terminal_constants(
    alloc: Global,
    steps: &mut PlanStepList,
    nets: &NetTable,
    number: u32,
    terminals: &[RunList],
) -> Result<u32, AllocError>
    ensures steps { OnOk result (let runs = flat_map (λ list. list) terminals.now in
        steps.new ≡ steps.old ++ element_steps (constants nets.now number runs)) }
    ensures next { IfOk result (λ next. let runs = flat_map (λ list. list) terminals.now in
        next ≡ number + literal_count runs) }
{
    let mut next = number;
    for runs in terminals {
        next = push_constants(alloc, steps, nets, next, runs.as_slice())?;
    }
    Ok(next)
}

/// Adds the constants of the literals among connections, and gives the number behind them.
pub fn push_connection_constants(
    alloc: Global,
    steps: &mut PlanStepList,
    nets: &NetTable,
    number: u32,
    connections: &[PortRuns],
) -> Result<u32, AllocError>
    ensures steps { OnOk result (let runs = flat_map (λ c. c.runs) connections.now in
        steps.new ≡ steps.old ++ element_steps (constants nets.now number runs)) }
    ensures next { IfOk result (λ next. let runs = flat_map (λ c. c.runs) connections.now in
        next ≡ number + literal_count runs) }
{
    let mut next = number;
    for connection in connections {
        next = push_constants(alloc, steps, nets, next, connection.runs.as_slice())?;
    }
    Ok(next)
}
