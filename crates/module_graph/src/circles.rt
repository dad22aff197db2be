//! References that lead back to the module that has them.
ghost use Rattle.std.specs.Prelude.{◌≡◌, ◌<◌, ℕ, true, false, [], length, slice_index_or, IfOk};
ghost use Rattle.module_graph.specs.Order.{IsSettled};
ghost use Rattle.module_graph.specs.Reach.{instantiates, is_module};
ghost use Rattle.module_graph.specs.Rules.{leads_back, places_in, reached_places};
ghost use Rattle.rule_places.specs.Places.{earliest, first_place, places_where};

use crate::order::{is_in_order, position_of, positions_of};
use crate::reach::{is_reached, reached_from};
use crate::references::{Master, Reference, ReferenceList};
use rule_places::{earliest, precedes};
use std::alloc::{AllocError, Global};
use v_tree::Location;

/// Whether a master of a reached module is a module from which that module is reached again. A module
/// that has a position is none.
fn leads_back(
    alloc: Global,
    references: &[ReferenceList],
    reached: &[bool],
    positions: &[usize],
    module: usize,
    master: Master,
) -> Result<bool, AllocError>
    requires within { «module» < length references.now }
    requires here { slice_index_or reached.now «module» false ≡ true }
    requires settled { IsSettled positions.now reached.now references.now }
    requires instantiated { (other : ℕ) → is_module other master ≡ true →
        instantiates references.now «module» other ≡ true }
    ensures { IfOk result (λ back. back ≡ leads_back references.now «module» master) }
{
    match master {
        Master::Module(other) => {
            if position_of(positions, other) != 0 {
                return Ok(false);
            }
            let onward = reached_from(alloc, references, other)?;
            Ok(is_reached(onward.as_slice(), module))
        }
        Master::Udp(_) | Master::Unknown => Ok(false),
    }
}

/// Of a first place and those references of a reached module that lead back to it the first.
fn circular_in(
    alloc: Global,
    references: &[ReferenceList],
    reached: &[bool],
    positions: &[usize],
    module: usize,
    list: &[Reference],
    start: Option<Location>,
) -> Result<Option<Location>, AllocError>
    requires within { «module» < length references.now }
    requires here { slice_index_or reached.now «module» false ≡ true }
    requires settled { IsSettled positions.now reached.now references.now }
    requires list { list.now ≡ slice_index_or references.now «module» [] }
    ensures { IfOk result (λ first. first ≡ earliest start (first_place
        (places_where (λ r. leads_back references.now «module» r.master) (λ r. r.location)
        list.now))) }
{
    let mut first = start;
    for reference in list {
        let master = reference.master;
        if !precedes(first, reference.location)
            && leads_back(alloc, references, reached, positions, module, master)?
        {
            first = earliest(first, Some(reference.location));
        }
    }
    Ok(first)
}

/// The same, where the module is reached.
fn circular_of(
    alloc: Global,
    references: &[ReferenceList],
    reached: &[bool],
    positions: &[usize],
    module: usize,
    start: Option<Location>,
) -> Result<Option<Location>, AllocError>
    requires within { «module» < length references.now }
    requires settled { IsSettled positions.now reached.now references.now }
    ensures { IfOk result (λ first. first ≡ earliest start (first_place
        (places_in (λ index r. leads_back references.now index r.master) reached.now
        («module», slice_index_or references.now «module» [])))) }
{
    if is_reached(reached, module) {
        let list = references[module].as_slice();
        circular_in(alloc, references, reached, positions, module, list, start)
    } else {
        Ok(start)
    }
}

/// The first of the references of reached modules that lead back. What a module leads to is asked for
/// where it has no position.
fn circular_among(
    alloc: Global,
    references: &[ReferenceList],
    reached: &[bool],
    positions: &[usize],
) -> Result<Option<Location>, AllocError>
    requires { IsSettled positions.now reached.now references.now }
    ensures { IfOk result (λ place. place ≡ first_place
        (reached_places (λ index r. leads_back references.now index r.master)
        references.now reached.now)) }
{
    let mut first = None;
    for module in 0..references.len() {
        first = circular_of(alloc, references, reached, positions, module, first)?;
    }
    Ok(first)
}

/// The first of the references of reached modules that lead back.
pub(crate) fn first_circular(
    alloc: Global,
    references: &[ReferenceList],
    reached: &[bool],
) -> Result<Option<Location>, AllocError>
    ensures { IfOk result (λ place. place ≡ first_place
        (reached_places (λ index r. leads_back references.now index r.master)
        references.now reached.now)) }
{
    let positions = positions_of(alloc, reached, references)?;
    if is_in_order(&positions, reached, references) {
        circular_among(alloc, references, reached, &positions)
    } else {
        circular_among(alloc, references, reached, &[])
    }
}
