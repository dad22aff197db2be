//! The elements of assignments.
ghost use Rattle.std.specs.Prelude.{◌≡◌, ◌++◌, drop, IfOk, OnOk};
ghost use Rattle.netlist_plan.specs.Elements.{copied_bit, copies};
ghost use Rattle.netlist_plan.specs.Plan.{element_steps};

use crate::elements::{one_bit, push_element, single};
use crate::numbers::plan_number;
use element_forms::Strengths;
use flat_net::ElementKind;
use netlist_plan::{ElementName, PlanElement, PlanStepList};
use std::alloc::{AllocError, Global};

/// What is left of bits when so many are cut on the left.
pub fn cut_bits(bits: &[u32], cut: u128) -> &[u32]
    ensures { result.now ≡ drop cut bits.now }
{
    if cut >= bits.len() as u128 {
        return &bits[bits.len()..];
    }
    &bits[cut as usize..]
}

/// The copy of a bit of an assignment of a number and a width, by its place from the left.
fn copied_bit(
    alloc: Global,
    number: u32,
    width: usize,
    strengths: Strengths,
    item: usize,
    place: usize,
    target: u32,
    value: u32,
) -> Result<PlanElement, AllocError>
    ensures { IfOk result (λ element.
        element ≡ copied_bit number width strengths item (place, (target, value))) }
{
    let index = plan_number(width.saturating_sub(1).saturating_sub(place) as u64)?;
    let outs = one_bit(alloc, target)?;
    let ins = one_bit(alloc, value)?;
    let name = ElementName::Bit(number, index);
    Ok(single(name, ElementKind::Copy, false, strengths, item, outs, ins))
}

/// Adds an element for each bit of the target, from the left.
pub fn push_copies(
    alloc: Global,
    steps: &mut PlanStepList,
    number: u32,
    strengths: Strengths,
    item: usize,
    targets: &[u32],
    values: &[u32],
) -> Result<(), AllocError>
    ensures { OnOk result (steps.new ≡ steps.old
        ++ element_steps (copies number strengths item targets.now values.now)) }
{
    let width = targets.len();
    for place in 0..width.min(values.len()) {
        let (target, value) = (targets[place], values[place]);
        let copy = copied_bit(alloc, number, width, strengths, item, place, target, value)?;
        push_element(steps, copy)?;
    }
    Ok(())
}
