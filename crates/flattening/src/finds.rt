//! What finds the nets of an instance.
ghost use Rattle.std.specs.Prelude.{◌≡◌, ◌+◌, ◌<◌, ◌++◌, ◌∷◌, [], map, slice_index_or, IfOk, OnOk};
ghost use Rattle.std.specs.List.{flat_map};
ghost use Rattle.item_parts.specs.Widths.{range_width};
ghost use Rattle.netlist_plan.specs.Flattening.{net_places};
ghost use Rattle.flattening.specs.Spelled.{bit_find, bit_finds, net_find, net_finds};

use crate::names::{bit_index, flat_name};
use crate::places::{Place, net_width, number_at};
use byte_lists::NetList;
use flat_net::Find;
use netlist_plan::PlanNet;
use std::alloc::{AllocError, Global};
use v_lexer::ReservedWords;

/// The numbers of the bits of a net, from the left.
fn net_numbers(alloc: Global, numbers: &[u32], net: &PlanNet) -> Result<NetList, AllocError>
    ensures { IfOk result (λ nets. nets ≡ map
        (λ place. slice_index_or numbers.now (net.now.first + place) 0)
        (net_places net.now)) }
{
    let mut nets = Vec::new(alloc);
    for place in 0..net_width(net) {
        nets.push(number_at(numbers, net, place as u32))?;
    }
    Ok(NetList::from_vec(nets))
}

/// A list of one number.
fn one_number(alloc: Global, number: u32) -> Result<NetList, AllocError>
    ensures { IfOk result (λ nets. nets ≡ number ∷ []) }
{
    let mut nets = Vec::new(alloc);
    nets.push(number)?;
    Ok(NetList::from_vec(nets))
}

/// What finds a bit of a net, by its place from the left.
fn bit_find(
    alloc: Global,
    words: &ReservedWords,
    at: &Place,
    net: &PlanNet,
    place: u32,
) -> Result<Find, AllocError>
    requires { place < range_width net.now.range }
    ensures { IfOk result (λ find. find ≡ bit_find at.now net.now place) }
{
    let index = bit_index(net.range, place);
    let name = flat_name(alloc, words, at.prefix.as_slice(), &net.name, index)?;
    let number = number_at(at.numbers.as_slice(), net, place);
    Ok(Find {
        name,
        nets: one_number(alloc, number)?,
    })
}

/// Adds what finds each bit of a net.
fn push_each_bit(
    alloc: Global,
    words: &ReservedWords,
    at: &Place,
    net: &PlanNet,
    finds: &mut Vec<Find>,
) -> Result<(), AllocError>
    ensures { OnOk result
        (finds.new.items ≡ finds.old.items ++ map (bit_find at.now net.now) (net_places net.now)) }
{
    for place in 0..net_width(net) {
        finds.push(bit_find(alloc, words, at, net, place as u32)?)?;
    }
    Ok(())
}

/// Adds what finds each bit of a net that is a vector.
fn push_bit_finds(
    alloc: Global,
    words: &ReservedWords,
    at: &Place,
    net: &PlanNet,
    finds: &mut Vec<Find>,
) -> Result<(), AllocError>
    ensures { OnOk result
        (finds.new.items ≡ finds.old.items ++ bit_finds at.now net.now net.now.range) }
{
    match net.range {
        Some(_) => push_each_bit(alloc, words, at, net, finds),
        None => Ok(()),
    }
}

/// What finds a net as a whole.
fn net_find(
    alloc: Global,
    words: &ReservedWords,
    at: &Place,
    net: &PlanNet,
) -> Result<Find, AllocError>
    ensures { IfOk result (λ find. find ≡ net_find at.now net.now) }
{
    Ok(Find {
        name: flat_name(alloc, words, at.prefix.as_slice(), &net.name, None)?,
        nets: net_numbers(alloc, at.numbers.as_slice(), net)?,
    })
}

/// Adds what finds a net.
fn push_finds(
    alloc: Global,
    words: &ReservedWords,
    at: &Place,
    net: &PlanNet,
    finds: &mut Vec<Find>,
) -> Result<(), AllocError>
    ensures { OnOk result (finds.new.items ≡ finds.old.items ++ net_finds at.now net.now) }
{
    finds.push(net_find(alloc, words, at, net)?)?;
    push_bit_finds(alloc, words, at, net, finds)
}

/// Adds what finds the nets of an instance.
pub fn push_all_finds(
    alloc: Global,
    words: &ReservedWords,
    at: &Place,
    nets: &[PlanNet],
    finds: &mut Vec<Find>,
) -> Result<(), AllocError>
    ensures { OnOk result
        (finds.new.items ≡ finds.old.items ++ flat_map (net_finds at.now) nets.now) }
{
    for net in nets {
        push_finds(alloc, words, at, net, finds)?;
    }
    Ok(())
}
