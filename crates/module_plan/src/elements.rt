//! Elements, and the lists of their pins.
ghost use Rattle.std.specs.Prelude.{◌≡◌, ◌∷◌, [], ◌++◌, take, drop, IfOk, OnOk};
ghost use Rattle.netlist_plan.specs.Elements.{single};

use element_forms::Strengths;
use flat_net::ElementKind;
use netlist_plan::{BitList, ElementName, PlanElement, PlanStep, PlanStepList};
use std::alloc::{AllocError, Global};

/// No bits. It allocates nothing.
pub fn no_bits(alloc: Global) -> BitList
    ensures { result ≡ [] }
{
    BitList::from_vec(Vec::new(alloc))
}

/// One bit.
pub fn one_bit(alloc: Global, bit: u32) -> Result<BitList, AllocError>
    ensures { IfOk result (λ bits. bits ≡ bit ∷ []) }
{
    let mut bits = Vec::new(alloc);
    bits.push(bit)?;
    Ok(BitList::from_vec(bits))
}

/// Two bits.
pub fn two_bits(alloc: Global, first: u32, second: u32) -> Result<BitList, AllocError>
    ensures { IfOk result (λ bits. bits ≡ first ∷ second ∷ []) }
{
    let mut bits = Vec::new(alloc);
    bits.push(first)?;
    bits.push(second)?;
    Ok(BitList::from_vec(bits))
}

/// So many bits from the front, or all where there are fewer.
pub fn front_bits(alloc: Global, bits: &[u32], count: usize) -> Result<BitList, AllocError>
    ensures { IfOk result (λ front. front ≡ take count bits.now) }
{
    if count >= bits.len() {
        return Ok(BitList::from_vec(Vec::from_slice(alloc, bits)?));
    }
    Ok(BitList::from_vec(Vec::from_slice(alloc, &bits[..count])?))
}

/// The bits behind so many from the front.
pub fn rest_bits(alloc: Global, bits: &[u32], count: usize) -> Result<BitList, AllocError>
    ensures { IfOk result (λ rest. rest ≡ drop count bits.now) }
{
    if count >= bits.len() {
        return Ok(no_bits(alloc));
    }
    Ok(BitList::from_vec(Vec::from_slice(alloc, &bits[count..])?))
}

/// An element of an item, with its output and input pins.
pub fn single(
    name: ElementName,
    kind: ElementKind,
    resistive: bool,
    strengths: Strengths,
    item: usize,
    outs: BitList,
    ins: BitList,
) -> PlanElement
    ensures { result ≡ single name kind resistive strengths item outs ins }
{
    PlanElement {
        name,
        kind,
        strengths,
        item: Some(item),
        resistive,
        outs,
        ins,
        ends: None,
    }
}

/// Adds an element.
pub fn push_element(steps: &mut PlanStepList, element: PlanElement) -> Result<(), AllocError>
    ensures { OnOk result (steps.new ≡ steps.old ++ PlanStep.Element element ∷ []) }
{
    steps.push(PlanStep::Element(element))
}
