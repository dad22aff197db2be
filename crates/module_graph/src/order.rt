//! Positions of the modules, from 1 up, by which a module stands behind all that instantiate it. A module
//! that a circle leads to has none, which is told by 0.
ghost use Rattle.std.specs.Prelude.{◌≡◌, slice_index};
ghost use Rattle.module_graph.specs.Order.{are_later, is_behind, is_in_order, is_later};

use crate::reach::is_reached;
use crate::references::{Master, Reference, ReferenceList};
use std::alloc::{AllocError, Global};

/// The position of a module, 0 where it has none.
pub(crate) fn position_of(positions: &[usize], module: usize) -> usize
    ensures { result ≡ slice_index positions.now «module» }
{
    if module < positions.len() {
        positions[module]
    } else {
        0
    }
}

/// Whether a position is none, or behind another that is one.
fn is_behind(before: usize, position: usize) -> bool
    ensures { result ≡ is_behind before position }
{
    position == 0 || (0 < before && before < position)
}

/// Whether the module that a reference is to is reached, and has no position or one behind that of the
/// module that has the reference.
fn is_later(positions: &[usize], reached: &[bool], module: usize, reference: &Reference) -> bool
    ensures { result ≡ is_later positions.now reached.now «module» reference.now }
{
    match reference.master {
        Master::Module(other) => {
            let before = position_of(positions, module);
            is_reached(reached, other) && is_behind(before, position_of(positions, other))
        }
        Master::Udp(_) | Master::Unknown => true,
    }
}

/// The same for all references of a module.
fn are_later(positions: &[usize], reached: &[bool], module: usize, references: &[Reference]) -> bool
    ensures { result ≡ are_later positions.now reached.now «module» references.now }
{
    references.iter().all(|reference| is_later(positions, reached, module, reference))
}

/// Whether all modules that reached modules instantiate are reached, and those of them that have a
/// position stand behind all that instantiate them.
pub(crate) fn is_in_order(
    positions: &[usize],
    reached: &[bool],
    references: &[ReferenceList],
) -> bool
    ensures { result ≡ is_in_order positions.now reached.now references.now }
{
    for (module, list) in references.iter().enumerate() {
        if is_reached(reached, module) && !are_later(positions, reached, module, list.as_slice()) {
            return false;
        }
    }
    true
}

/// Counts the module that a reference is to.
fn count_master(counts: &mut [usize], reference: &Reference) {
    if let Master::Module(module) = reference.master {
        if module < counts.len() {
            counts[module] = counts[module].saturating_add(1);
        }
    }
}

/// Counts the modules that references are to.
fn count_masters(counts: &mut [usize], references: &[Reference]) {
    for reference in references {
        count_master(counts, reference);
    }
}

/// How many references of reached modules there are to each module.
fn reference_counts(
    alloc: Global,
    reached: &[bool],
    references: &[ReferenceList],
) -> Result<Vec<usize>, AllocError> {
    let mut counts = vec![in alloc; 0usize; references.len()]?;
    for (module, list) in references.iter().enumerate() {
        if is_reached(reached, module) {
            count_masters(&mut counts, list.as_slice());
        }
    }
    Ok(counts)
}

/// The reached modules that no reference of a reached module is to.
fn first_ready(
    alloc: Global,
    reached: &[bool],
    counts: &[usize],
) -> Result<Vec<usize>, AllocError> {
    let mut ready = Vec::new(alloc);
    for (module, count) in counts.iter().enumerate() {
        if is_reached(reached, module) && *count == 0 {
            ready.push(module)?;
        }
    }
    Ok(ready)
}

/// Takes a reference from the count of its module, which is ready when none is left.
fn release_master(
    counts: &mut [usize],
    ready: &mut Vec<usize>,
    reference: &Reference,
) -> Result<(), AllocError> {
    if let Master::Module(module) = reference.master {
        if module < counts.len() {
            let left = counts[module].saturating_sub(1);
            counts[module] = left;
            if left == 0 {
                ready.push(module)?;
            }
        }
    }
    Ok(())
}

/// The same for all references of a module.
fn release_masters(
    counts: &mut [usize],
    ready: &mut Vec<usize>,
    references: &[Reference],
) -> Result<(), AllocError> {
    for reference in references {
        release_master(counts, ready, reference)?;
    }
    Ok(())
}

/// Gives a module its position, and releases the modules that it instantiates.
fn put_position(
    positions: &mut [usize],
    counts: &mut [usize],
    ready: &mut Vec<usize>,
    references: &[ReferenceList],
    module: usize,
    position: usize,
) -> Result<(), AllocError> {
    if module < positions.len() {
        positions[module] = position;
    }
    if module < references.len() {
        release_masters(counts, ready, references[module].as_slice())?;
    }
    Ok(())
}

/// Positions of the reached modules by Kahn's order, without those that a circle leads to. Nothing is
/// promised of them: `is_in_order` judges them.
pub(crate) fn positions_of(
    alloc: Global,
    reached: &[bool],
    references: &[ReferenceList],
) -> Result<Vec<usize>, AllocError> {
    let mut counts = reference_counts(alloc, reached, references)?;
    let mut ready = first_ready(alloc, reached, &counts)?;
    let mut positions = vec![in alloc; 0usize; references.len()]?;
    for position in 0..references.len() {
        match ready.pop() {
            Some(module) => put_position(
                &mut positions,
                &mut counts,
                &mut ready,
                references,
                module,
                position + 1,
            )?,
            None => return Ok(positions),
        }
    }
    Ok(positions)
}
