//! What the elements of an instance add.
ghost use Rattle.std.specs.Prelude.{◌≡◌, IfOk, OnOk};
ghost use Rattle.netlist_plan.specs.Additions.{joined};
ghost use Rattle.netlist_plan.specs.Flattening.{end_numbers, numbers_of};
ghost use Rattle.std.specs.Option.{option_map};
ghost use Rattle.flattening.specs.Lists.{so_far};
ghost use Rattle.flattening.specs.Spelled.{element_additions, flat_element};

use crate::delays::ItemDelays;
use crate::lists::Growth;
use crate::names::element_text;
use crate::places::{Place, number_of};
use byte_lists::NetList;
use flat_net::Element;
use netlist_plan::PlanElement;
use std::alloc::{AllocError, Global};
use v_lexer::ReservedWords;

/// The numbers of bits.
pub fn numbers_of(alloc: Global, numbers: &[u32], bits: &[u32]) -> Result<NetList, AllocError>
    ensures { IfOk result (λ nets. nets ≡ numbers_of numbers.now bits.now) }
{
    let mut nets = Vec::new(alloc);
    for bit in bits {
        nets.push(number_of(numbers, u64::from(*bit)))?;
    }
    Ok(NetList::from_vec(nets))
}

/// The numbers of the two ends of a switch.
fn end_numbers(numbers: &[u32], ends: Option<(u32, u32)>) -> Option<(u32, u32)>
    ensures { result ≡ option_map (end_numbers numbers.now) ends }
{
    match ends {
        Some((first, second)) => Some((
            number_of(numbers, u64::from(first)),
            number_of(numbers, u64::from(second)),
        )),
        None => None,
    }
}

/// An element with the numbers of its nets.
fn flat_element(
    alloc: Global,
    delays: &ItemDelays,
    at: &Place,
    element: &PlanElement,
) -> Result<Element, AllocError>
    ensures { IfOk result (λ flat. flat ≡ flat_element delays.now at.now element.now) }
{
    let numbers = at.numbers.as_slice();
    Ok(Element {
        kind: element.kind,
        s0: element.strengths.zero,
        s1: element.strengths.one,
        delays: delays.of(at.master, element.item),
        outs: numbers_of(alloc, numbers, element.outs.as_slice())?,
        ins: numbers_of(alloc, numbers, element.ins.as_slice())?,
        ends: end_numbers(numbers, element.ends),
    })
}

/// Adds an element with its name.
pub fn push_element(
    alloc: Global,
    words: &ReservedWords,
    delays: &ItemDelays,
    at: &Place,
    element: &PlanElement,
    to: &mut Growth,
) -> Result<(), AllocError>
    ensures { OnOk result
        (so_far to.new ≡ joined (so_far to.old) (element_additions delays.now at.now element.now)) }
{
    to.elements.push(flat_element(alloc, delays, at, element)?)?;
    to.element_names.push(element_text(alloc, words, at.prefix.as_slice(), &element.name)?)?;
    to.resistive.push(element.resistive)?;
    Ok(())
}
