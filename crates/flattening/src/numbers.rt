//! The numbers of the nets of an instance.
ghost use Rattle.std.specs.Prelude.{◌≡◌, ◌+◌, ◌<◌, ◌^◌, length, map, replicate, is_some, IfOk};
ghost use Rattle.std.specs.List.{range_with_len};
ghost use Rattle.netlist_plan.specs.Flattening.{bit_count, number_outside};
ghost use Rattle.flattening.specs.Slots.{number_slots, slot_numbers};
ghost use Rattle.flattening.specs.Spelled.{place_of};

use crate::places::{Place, net_width};
use byte_lists::{Bytes, NetList};
use list_of::ListOf;
use netlist_plan::PlanNet;
use std::alloc::{AllocError, Global};

/// How many nets can't be numbered any more.
const LIMIT: u128 = 1 << 32;

/// How many bits nets have.
fn bit_count(nets: &[PlanNet]) -> u128
    ensures { result ≡ bit_count nets.now }
{
    let mut count: u128 = 0;
    for net in nets {
        count += u128::from(net_width(net));
    }
    count
}

/// A number of bits that can be held, where numbers of nets go on from `next`. More nets than a `u32`
/// counts are want of memory.
fn held_count(next: usize, count: u128) -> Result<usize, AllocError>
    ensures count { IfOk result (λ held. held ≡ count) }
    ensures room { IfOk result (λ held. next + held < 2 ^ 32) }
{
    if count >= LIMIT || next as u128 >= LIMIT - count {
        return Err(AllocError);
    }
    Ok(count as usize)
}

/// Takes one more number outside, of a bit: it counts where none before it for that bit did.
fn take_number(slots: &mut Vec<Option<u32>>, bit: usize, number: u32)
    ensures { slots.new.items ≡ number_slots slots.old.items bit number }
{
    if bit < slots.len() && slots[bit].is_none() {
        slots[bit] = Some(number);
    }
}

/// So many slots with nothing in them.
fn no_slots(alloc: Global, count: usize) -> Result<Vec<Option<u32>>, AllocError>
    ensures { IfOk result (λ slots. slots.items ≡ replicate count None) }
{
    vec![in alloc; None; count]
}

/// For each bit the number outside, where it is connected.
fn slots_of(
    alloc: Global,
    count: usize,
    outside: &[(u32, u32)],
) -> Result<Vec<Option<u32>>, AllocError>
    ensures { IfOk result (λ slots. slots.items
        ≡ map (number_outside outside.now) (range_with_len 0 count)) }
{
    let mut slots = no_slots(alloc, count)?;
    for (bit, number) in outside {
        take_number(&mut slots, *bit as usize, *number);
    }
    Ok(slots)
}

/// The number of each bit: the one outside, else the next.
fn slot_numbers(alloc: Global, first: u32, slots: &[Option<u32>]) -> Result<Vec<u32>, AllocError>
    requires { first + length slots.now < 2 ^ 32 }
    ensures { IfOk result (λ numbers. numbers.items ≡ slot_numbers first slots.now) }
{
    let mut numbers = Vec::new(alloc);
    let mut next = first;
    for slot in slots {
        numbers.push(slot.unwrap_or(next))?;
        if slot.is_none() {
            next += 1;
        }
    }
    Ok(numbers)
}

/// Whether each bit is connected outside.
fn slot_flags(alloc: Global, slots: &[Option<u32>]) -> Result<Vec<bool>, AllocError>
    ensures { IfOk result (λ flags. flags.items ≡ map is_some slots.now) }
{
    let mut flags = Vec::new(alloc);
    for slot in slots {
        flags.push(slot.is_some())?;
    }
    Ok(flags)
}

/// An instance of a module with these nets, by its index, its path, its bits that are connected, and the
/// next number of a net.
pub fn place_of(
    alloc: Global,
    nets: &[PlanNet],
    master: usize,
    prefix: Vec<u8>,
    outside: &[(u32, u32)],
    next: usize,
) -> Result<Place, AllocError>
    ensures { IfOk result
        (λ at. at ≡ place_of nets.now master prefix.items outside.now next) }
{
    let count = held_count(next, bit_count(nets))?;
    let slots = slots_of(alloc, count, outside)?;
    let numbers = slot_numbers(alloc, next as u32, &slots)?;
    Ok(Place {
        master,
        prefix: Bytes::from_vec(prefix),
        numbers: NetList::from_vec(numbers),
        bound: ListOf::from_vec(slot_flags(alloc, &slots)?),
    })
}
