//! The elements of gates.
ghost use Rattle.std.specs.Prelude.{◌≡◌, ◌∷◌, [], ◌++◌, IfOk, OnOk};
ghost use Rattle.netlist_plan.specs.Elements.{form_elements, gate_name, half, has_many_outputs, output_count};
ghost use Rattle.netlist_plan.specs.Plan.{element_steps};

use crate::bits::bit_at;
use crate::elements::{front_bits, no_bits, push_element, rest_bits, single, two_bits};
use crate::names::gate_name;
use byte_lists::Bytes;
use element_forms::{ElementForm, Strengths};
use flat_net::ElementKind;
use logic_tables::FoldKind;
use netlist_plan::{ElementName, OwnName, PlanElement, PlanStepList};
use std::alloc::{AllocError, Global};

/// Whether the last of the terminals is the input, and the others are outputs.
fn has_many_outputs(kind: ElementKind) -> bool
    ensures { result ≡ has_many_outputs kind }
{
    match kind {
        ElementKind::Fold(FoldKind::Buf) | ElementKind::Fold(FoldKind::Not) => true,
        _ => false,
    }
}

/// How many of so many terminals are outputs.
fn output_count(kind: ElementKind, terminals: usize) -> usize
    ensures { result ≡ output_count kind terminals }
{
    if has_many_outputs(kind) {
        terminals.saturating_sub(1)
    } else {
        1
    }
}

/// The one element of a gate.
fn single_element(
    alloc: Global,
    own: OwnName,
    kind: ElementKind,
    strengths: Strengths,
    item: usize,
    terminals: &[u32],
) -> Result<PlanElement, AllocError>
    ensures { IfOk result (λ element. element ∷ []
        ≡ form_elements own (ElementForm.Single kind) strengths item terminals.now) }
{
    let outs = output_count(kind, terminals.len());
    let front = front_bits(alloc, terminals, outs)?;
    let rest = rest_bits(alloc, terminals, outs)?;
    Ok(single(
        ElementName::Gate(own),
        kind,
        false,
        strengths,
        item,
        front,
        rest,
    ))
}

/// The bidirectional switch of a gate.
fn bidirectional_element(
    alloc: Global,
    own: OwnName,
    kind: ElementKind,
    resistive: bool,
    strengths: Strengths,
    item: usize,
    terminals: &[u32],
) -> Result<PlanElement, AllocError>
    ensures { IfOk result (λ element. element ∷ []
        ≡ form_elements own (ElementForm.Bidirectional kind resistive) strengths item terminals.now) }
{
    Ok(PlanElement {
        name: ElementName::Gate(own),
        kind,
        strengths,
        item: Some(item),
        resistive,
        outs: no_bits(alloc),
        ins: rest_bits(alloc, terminals, 2)?,
        ends: Some((bit_at(terminals, 0), bit_at(terminals, 1))),
    })
}

/// The half of a complementary switch whose control is the terminal of an index.
fn half(
    alloc: Global,
    own: OwnName,
    on_one: bool,
    resistive: bool,
    strengths: Strengths,
    item: usize,
    terminals: &[u32],
    control: usize,
) -> Result<PlanElement, AllocError>
    ensures { IfOk result (λ element.
        element ≡ half own on_one resistive strengths item terminals.now control) }
{
    let outs = front_bits(alloc, terminals, 1)?;
    let ins = two_bits(alloc, bit_at(terminals, 1), bit_at(terminals, control))?;
    let kind = ElementKind::Mos { on_one, resistive };
    Ok(single(
        ElementName::Half(own, on_one),
        kind,
        resistive,
        strengths,
        item,
        outs,
        ins,
    ))
}

/// Adds the elements of a gate of a name, or of a number where it has none, by the bits of its
/// terminals.
pub fn push_gate(
    alloc: Global,
    steps: &mut PlanStepList,
    number: u32,
    name: &Option<Bytes>,
    form: ElementForm,
    strengths: Strengths,
    item: usize,
    terminals: &[u32],
) -> Result<(), AllocError>
    ensures { OnOk result (steps.new ≡ steps.old ++ element_steps
        (form_elements (gate_name number name.now) form strengths item terminals.now)) }
{
    let own = gate_name(alloc, number, name)?;
    match form {
        ElementForm::Single(kind) => {
            push_element(
                steps,
                single_element(alloc, own, kind, strengths, item, terminals)?,
            )
        }
        ElementForm::Bidirectional { kind, resistive } => {
            let element = bidirectional_element(
                alloc, own, kind, resistive, strengths, item, terminals,
            )?;
            push_element(steps, element)
        }
        ElementForm::Complementary { resistive } => {
            let other = gate_name(alloc, number, name)?;
            let on_one = half(alloc, own, true, resistive, strengths, item, terminals, 2)?;
            let on_zero = half(
                alloc, other, false, resistive, strengths, item, terminals, 3,
            )?;
            push_element(steps, on_one)?;
            push_element(steps, on_zero)
        }
    }
}
