//! Instances, with the numbers of their nets.
ghost use Rattle.std.specs.Prelude.{◌≡◌, ◌+◌, ◌≤◌, ◌^◌, true, slice_index_or};
ghost use Rattle.item_parts.specs.Widths.{range_width};

use crate::lists::FlagList;
use byte_lists::{Bytes, NetList};
use netlist_plan::PlanNet;

/// An instance: the index of its module, its path as it is written before a name, the number of each bit
/// of its module's nets, and for each whether it is connected outside.
#[derive(Debug, Drop)]
pub struct Place {
    pub master: usize,
    pub prefix: Bytes,
    pub numbers: NetList,
    pub bound: FlagList,
}

/// How many bits a net has, at most 2^32.
pub fn net_width(net: &PlanNet) -> u64
    ensures width { result ≡ range_width net.now.range }
    ensures small { result ≤ 2 ^ 32 }
{
    match net.range {
        Some(range) => u64::from(range.left.abs_diff(range.right)) + 1,
        None => 1,
    }
}

/// The number of a bit, 0 where there is no such bit.
pub fn number_of(numbers: &[u32], bit: u64) -> u32
    ensures { result ≡ slice_index_or numbers.now bit 0 }
{
    match numbers.get(bit as usize) {
        Some(number) => *number,
        None => 0,
    }
}

/// The number of a bit of a net, by its place from the left.
pub fn number_at(numbers: &[u32], net: &PlanNet, place: u32) -> u32
    ensures { result ≡ slice_index_or numbers.now (net.now.first + place) 0 }
{
    number_of(numbers, u64::from(net.first) + u64::from(place))
}

/// Whether a bit of a net is connected outside, or isn't there.
pub fn is_bound(bound: &[bool], net: &PlanNet, place: u32) -> bool
    ensures { result ≡ slice_index_or bound.now (net.now.first + place) true }
{
    match bound.get((u64::from(net.first) + u64::from(place)) as usize) {
        Some(flag) => *flag,
        None => true,
    }
}
