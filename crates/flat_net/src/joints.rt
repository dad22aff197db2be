ghost use Rattle.std.specs.Prelude.{◌≡◌, ◌++◌, IfOk, OnOk, map};
ghost use Rattle.std.specs.List.{list_any};
ghost use Rattle.flat_net.specs.Elements.{switch_ends as switch_ends_of};
ghost use Rattle.flat_net.specs.Islands.{drive_pins as drive_pins_of, link_elements as link_elements_of};
ghost use Rattle.flat_net.specs.Tests.{all_at, have_drives as have_drives_of, have_links as have_links_of, same_pin};

use crate::parts::{Drive, Element, Island};
use indexmap::IndexSet;
use std::alloc::{AllocError, Global};

fn push_pins(pins: &mut Vec<(usize, usize)>, drives: &[Drive]) -> Result<(), AllocError>
    ensures { OnOk result
        (pins.new.items ≡ pins.old.items ++ map (λ drive. (drive.element, drive.pin)) drives.now) }
{
    for drive in drives {
        pins.push((drive.element as usize, drive.pin as usize))?;
    }
    Ok(())
}

/// The output pins that the drives of all islands name, each an element and its pin.
pub(crate) fn drive_pins(
    alloc: Global,
    islands: &[Island],
) -> Result<Vec<(usize, usize)>, AllocError>
    ensures { IfOk result (λ pins. pins.items ≡ drive_pins_of islands.now) }
{
    let mut pins = Vec::new(alloc);
    for island in islands {
        push_pins(&mut pins, island.drives.as_slice())?;
    }
    Ok(pins)
}

fn push_links(numbers: &mut Vec<usize>, links: &[u32]) -> Result<(), AllocError>
    ensures { OnOk result (numbers.new.items ≡ numbers.old.items ++ links.now) }
{
    for link in links {
        numbers.push(*link as usize)?;
    }
    Ok(())
}

/// The elements that the links of all islands name.
pub(crate) fn link_elements(alloc: Global, islands: &[Island]) -> Result<Vec<usize>, AllocError>
    ensures { IfOk result (λ links. links.items ≡ link_elements_of islands.now) }
{
    let mut links = Vec::new(alloc);
    for island in islands {
        push_links(&mut links, island.links.as_slice())?;
    }
    Ok(links)
}

/// The pairs of nets that bidirectional switches join.
pub(crate) fn switch_ends(
    alloc: Global,
    elements: &[Element],
) -> Result<Vec<(u32, u32)>, AllocError>
    ensures { IfOk result (λ pairs. pairs.items ≡ switch_ends_of elements.now) }
{
    elements
        .iter()
        .filter_map(|element| element.ends)
        .collect(alloc)
}

fn has_drives(pins: &IndexSet<(usize, usize)>, element: usize, outs: &[u32]) -> bool
    ensures { result
        ≡ all_at (λ pin net. list_any (same_pin (element, pin)) pins.now.keys) outs.now }
{
    outs.iter()
        .enumerate()
        .all(|(pin, _)| pins.contains(&(element, pin)))
}

/// Whether the set has each output pin of the elements.
pub(crate) fn have_drives(pins: &IndexSet<(usize, usize)>, elements: &[Element]) -> bool
    ensures { result ≡ have_drives_of pins.now.keys elements.now }
{
    elements.iter().enumerate().all(|(number, element)| has_drives(
        pins,
        number,
        element.outs.as_slice(),
    ))
}

/// Whether the set has each bidirectional switch.
pub(crate) fn have_links(links: &IndexSet<usize>, elements: &[Element]) -> bool
    ensures { result ≡ have_links_of links.now.keys elements.now }
{
    elements.iter().enumerate().all(|(number, element)| element.ends.is_none()
        || links.contains(&number))
}
