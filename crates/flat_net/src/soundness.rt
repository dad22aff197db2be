ghost use Rattle.std.specs.Prelude.{◌≡◌, ◌↔◌, IfOk, IsTrue, length};
ghost use Rattle.std.specs.List.{list_all};
ghost use Rattle.flat_net.specs.Soundness.{IsSound};
ghost use Rattle.flat_net.specs.Tests.{are_cells as are_cells_of, are_complete as are_complete_of, are_distinct_nets as are_distinct_nets_of, are_driven as are_driven_of, are_linked as are_linked_of, are_named as are_named_of, is_find as is_find_of};

use crate::grouping::are_joined;
use crate::joints::{drive_pins, have_drives, have_links, link_elements};
use crate::names::are_names;
use crate::parts::{Find, Parts};
use crate::pins::{are_below, are_elements};
use crate::places::{are_islands, are_nets};
use crate::sets::distinct_set;
use std::alloc::{AllocError, Global};

/// The greatest number of nets, and of elements.
const GREATEST_COUNT: usize = 1_048_576;

/// Whether the elements, nets and islands are sound, each by itself.
fn are_cells(parts: &Parts) -> bool
    ensures { result ≡ are_cells_of parts.now }
{
    let nets = parts.nets.as_slice();
    let elements = parts.elements.as_slice();
    let islands = parts.islands.as_slice();
    nets.len() <= GREATEST_COUNT
        && elements.len() <= GREATEST_COUNT
        && are_elements(nets.len(), parts.udps.as_slice(), elements)
        && are_nets(islands, nets)
        && are_islands(nets, elements, islands)
}

/// Whether the drives of all islands name each output pin once.
fn are_driven(alloc: Global, parts: &Parts) -> Result<bool, AllocError>
    ensures { IfOk result (λ driven. driven ≡ are_driven_of parts.now) }
{
    let pins = drive_pins(alloc, parts.islands.as_slice())?;
    let set = distinct_set(alloc, &pins)?;
    match set {
        Some(set) => Ok(have_drives(&set, parts.elements.as_slice())),
        None => Ok(false),
    }
}

/// Whether the links of all islands name each bidirectional switch once.
fn are_linked(alloc: Global, parts: &Parts) -> Result<bool, AllocError>
    ensures { IfOk result (λ linked. linked ≡ are_linked_of parts.now) }
{
    let links = link_elements(alloc, parts.islands.as_slice())?;
    let set = distinct_set(alloc, &links)?;
    match set {
        Some(set) => Ok(have_links(&set, parts.elements.as_slice())),
        None => Ok(false),
    }
}

/// Whether the nets are below the count, none of them twice.
fn are_distinct_nets(alloc: Global, count: usize, nets: &[u32]) -> Result<bool, AllocError>
    ensures { IfOk result (λ distinct. distinct ≡ are_distinct_nets_of count nets.now) }
{
    if !are_below(count, nets) {
        return Ok(false);
    }
    let set = distinct_set(alloc, nets)?;
    Ok(set.is_some())
}

fn is_find(count: usize, found: &Find) -> bool
    ensures { result ≡ is_find_of count found.now }
{
    let nets = found.nets.as_slice();
    0 < nets.len() && are_below(count, nets)
}

fn are_finds(count: usize, finds: &[Find]) -> bool
    ensures { result ≡ list_all (is_find_of count) finds.now }
{
    finds.iter().all(|found| is_find(count, found))
}

/// Whether all nets and elements have names, and what is found by a name.
fn are_named(alloc: Global, parts: &Parts) -> Result<bool, AllocError>
    ensures { IfOk result (λ named. named ≡ are_named_of parts.now) }
{
    let nets = parts.nets.as_slice().len();
    let elements = parts.elements.as_slice().len();
    let finds = parts.finds.as_slice();
    Ok(
        are_names(alloc, nets, parts.net_names.as_slice())?
            && are_names(alloc, elements, parts.element_names.as_slice())?
            && are_finds(nets, finds)
            && are_names(alloc, finds.len(), finds)?,
    )
}

/// Whether drives, links, inputs, outputs and names are sound.
fn are_complete(alloc: Global, parts: &Parts) -> Result<bool, AllocError>
    ensures { IfOk result (λ complete. complete ≡ are_complete_of parts.now) }
{
    let count = parts.nets.as_slice().len();
    Ok(
        are_driven(alloc, parts)?
            && are_linked(alloc, parts)?
            && are_distinct_nets(alloc, count, parts.inputs.as_slice())?
            && are_distinct_nets(alloc, count, parts.outputs.as_slice())?
            && are_named(alloc, parts)?,
    )
}

/// Whether the parts of a netlist are sound.
pub fn sound(alloc: Global, parts: &Parts) -> Result<bool, AllocError>
    ensures { IfOk result (λ sound. IsTrue sound ↔ IsSound parts.now) }
{
    if !are_cells(parts) {
        return Ok(false);
    }
    if !are_joined(alloc, parts)? {
        return Ok(false);
    }
    are_complete(alloc, parts)
}
