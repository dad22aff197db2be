ghost use Rattle.std.specs.Prelude.{◌≡◌, ◌<◌, ◌≤◌, ◌++◌, ◌^◌, IfOk, OnOk, length};
ghost use Rattle.std.specs.List.{All};
ghost use Rattle.flat_net.specs.Soundness.{greatest_count};
ghost use Rattle.net_islands.specs.Islands.{HasNets, drives as drives_of, element_drives, link as link_of, links as links_of, members as members_of};

use crate::parts::NetClass;
use flat_net::{Drive, Element};
use net_settle::Link;
use std::alloc::{AllocError, Global};

/// Each net and its class, by the island in which it stands.
pub(crate) fn members(
    alloc: Global,
    numbers: &[u32],
    nets: &[NetClass],
) -> Result<Vec<(u32, (u32, NetClass))>, AllocError>
    requires few { length nets.now ≤ greatest_count }
    requires all { length numbers.now ≡ length nets.now }
    ensures { IfOk result (λ members. members.items ≡ members_of numbers.now nets.now) }
{
    let mut members = Vec::new(alloc);
    for (net, class) in nets.iter().enumerate() {
        members.push((numbers[net], (net as u32, *class)))?;
    }
    Ok(members)
}

fn push_drives(
    drives: &mut Vec<(u32, Drive)>,
    numbers: &[u32],
    places: &[u32],
    element: u32,
    outs: &[u32],
) -> Result<(), AllocError>
    requires within { All (λ net. net < length numbers.now) outs.now }
    requires all { length places.now ≡ length numbers.now }
    requires few { length outs.now ≤ 2 ^ 32 }
    ensures { OnOk result (drives.new.items
        ≡ drives.old.items ++ element_drives numbers.now places.now element outs.now) }
{
    for (pin, net) in outs.iter().enumerate() {
        let place = places[*net as usize];
        drives.push((
            numbers[*net as usize],
            Drive {
                element,
                pin: pin as u32,
                place,
            },
        ))?;
    }
    Ok(())
}

/// The output pins of all elements, in order, by the islands of their nets.
pub(crate) fn drives(
    alloc: Global,
    numbers: &[u32],
    places: &[u32],
    elements: &[Element],
) -> Result<Vec<(u32, Drive)>, AllocError>
    requires few { length elements.now ≤ greatest_count }
    requires nets { All (HasNets (length numbers.now)) elements.now }
    requires all { length places.now ≡ length numbers.now }
    ensures { IfOk result
        (λ drives. drives.items ≡ drives_of numbers.now places.now elements.now) }
{
    let mut drives = Vec::new(alloc);
    for (number, element) in elements.iter().enumerate() {
        push_drives(
            &mut drives,
            numbers,
            places,
            number as u32,
            element.outs.as_slice(),
        )?;
    }
    Ok(drives)
}

/// A switch between two nets, by the island of its first end.
fn link(
    numbers: &[u32],
    places: &[u32],
    resistive: bool,
    element: u32,
    ends: (u32, u32),
) -> (u32, (u32, Link))
    requires first { ends.0 < length numbers.now }
    requires second { ends.1 < length numbers.now }
    requires all { length places.now ≡ length numbers.now }
    ensures { result ≡ link_of numbers.now places.now resistive element ends }
{
    let a = places[ends.0 as usize];
    let b = places[ends.1 as usize];
    (
        numbers[ends.0 as usize],
        (element, Link { a, b, resistive }),
    )
}

/// The bidirectional switches, in order, by the islands of their first ends.
pub(crate) fn links(
    alloc: Global,
    numbers: &[u32],
    places: &[u32],
    elements: &[Element],
    resistive: &[bool],
) -> Result<Vec<(u32, (u32, Link))>, AllocError>
    requires few { length elements.now ≤ greatest_count }
    requires nets { All (HasNets (length numbers.now)) elements.now }
    requires all { length places.now ≡ length numbers.now }
    requires resistive { length resistive.now ≡ length elements.now }
    ensures { IfOk result
        (λ links. links.items ≡ links_of numbers.now places.now elements.now resistive.now) }
{
    let mut links = Vec::new(alloc);
    for (number, element) in elements.iter().enumerate() {
        if let Some(ends) = element.ends {
            links.push(link(numbers, places, resistive[number], number as u32, ends))?;
        }
    }
    Ok(links)
}
