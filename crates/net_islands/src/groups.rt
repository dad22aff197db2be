ghost use Rattle.std.specs.Prelude.{◌≡◌, ◌≤◌, IfOk, length};
ghost use Rattle.std.specs.List.{All};
ghost use Rattle.flat_net.specs.Soundness.{AreDriven, AreJoined, AreLinked, greatest_count};
ghost use Rattle.net_islands.specs.Leasts.{AreRoots};
ghost use Rattle.net_islands.specs.Islands.{HasNets, grouping as grouping_of, grouping_by as grouping_by_of, net_places as net_places_of};
ghost use Rattle.net_islands.specs.Parts.{AreIslands, ArePlaces, Gives};

use crate::islands::islands;
use crate::leasts::{leasts, numbers, places};
use crate::parts::{Grouping, NetClass, NetPlace};
use flat_net::Element;
use list_of::ListOf;
use std::alloc::{AllocError, Global};

/// For each net its island and its place there.
fn net_places(alloc: Global, numbers: &[u32], places: &[u32]) -> Result<Vec<NetPlace>, AllocError>
    requires { length places.now ≡ length numbers.now }
    ensures { IfOk result (λ nets. nets.items ≡ net_places_of numbers.now places.now) }
{
    numbers
        .iter()
        .zip(places)
        .map(|(island, place)| NetPlace {
            island: *island,
            place: *place,
        })
        .collect(alloc)
}

/// The grouping of nets with these least nets.
fn grouping_by(
    alloc: Global,
    leasts: &[u32],
    nets: &[NetClass],
    elements: &[Element],
    resistive: &[bool],
) -> Result<Grouping, AllocError>
    requires few_nets { length nets.now ≤ greatest_count }
    requires few_elements { length elements.now ≤ greatest_count }
    requires all { length leasts.now ≡ length nets.now }
    requires roots { AreRoots leasts.now }
    requires elements { All (HasNets (length nets.now)) elements.now }
    requires resistive { length resistive.now ≡ length elements.now }
    ensures { IfOk result (λ grouping. grouping
        ≡ grouping_by_of leasts.now nets.now elements.now resistive.now) }
{
    let (count, numbers) = numbers(alloc, leasts)?;
    let numbers = numbers.as_slice();
    let within = places(alloc, count, numbers)?;
    let within = within.as_slice();
    let places = net_places(alloc, numbers, within)?;
    let islands = islands(alloc, count, numbers, within, nets, elements, resistive)?;
    Ok(Grouping {
        places: ListOf::from_vec(places),
        islands: ListOf::from_vec(islands),
    })
}

/// The islands of a netlist with these nets and elements, and where each net stands: islands in the
/// order of the least nets of each, and the nets of each in their order.
///
/// `resistive` says of each element whether it is a resistive switch.
pub fn grouping(
    alloc: Global,
    nets: &[NetClass],
    elements: &[Element],
    resistive: &[bool],
) -> Result<Grouping, AllocError>
    requires few_nets { length nets.now ≤ greatest_count }
    requires few_elements { length elements.now ≤ greatest_count }
    requires elements { All (HasNets (length nets.now)) elements.now }
    requires resistive { length resistive.now ≡ length elements.now }
    ensures value { IfOk result (λ grouping. grouping
        ≡ grouping_of nets.now elements.now resistive.now) }
    ensures islands { IfOk result (Gives AreIslands nets.now elements.now) }
    ensures places { IfOk result (Gives ArePlaces nets.now elements.now) }
    ensures joined { IfOk result (Gives AreJoined nets.now elements.now) }
    ensures drives { IfOk result (Gives AreDriven nets.now elements.now) }
    ensures links { IfOk result (Gives AreLinked nets.now elements.now) }
{
    let leasts = leasts(alloc, nets.len() as u32, elements)?;
    grouping_by(alloc, leasts.as_slice(), nets, elements, resistive)
}
