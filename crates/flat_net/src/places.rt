ghost use Rattle.std.specs.Prelude.{◌≡◌};
ghost use Rattle.std.specs.List.{list_all, zip};
ghost use Rattle.flat_net.specs.Islands.{combination_kind as combination_kind_of};
ghost use Rattle.flat_net.specs.Tests.{all_at, all_zip, has_charge as has_charge_of, has_kind as has_kind_of, has_level as has_level_of, is_alone as is_alone_of, is_at as is_at_of, is_drive as is_drive_of, is_island as is_island_of, is_link as is_link_of, is_net as is_net_of, stands_at as stands_at_of};

use crate::kinds::NetKind;
use crate::parts::{Drive, Element, Island, NetPart};
use level_range::Kind;
use net_settle::Link;

/// How the drivers of a net are combined.
fn combination_kind(kind: NetKind) -> Kind
    ensures { result ≡ combination_kind_of kind }
{
    match kind {
        NetKind::And => Kind::And,
        NetKind::Or => Kind::Or,
        _ => Kind::Plain,
    }
}

/// Whether a charge fits the type of its net.
fn has_charge(kind: NetKind, level: u8) -> bool
    ensures { result ≡ has_charge_of kind level }
{
    match kind {
        NetKind::Trireg => level == 1 || level == 2 || level == 4,
        _ => level == 0,
    }
}

/// Whether the k-th number is this one.
pub(crate) fn is_at(numbers: &[u32], k: usize, number: usize) -> bool
    ensures { result ≡ is_at_of numbers.now k number }
{
    match numbers.get(k) {
        Some(at) => *at as usize == number,
        None => false,
    }
}

/// Whether a net of the type may stand in the island.
fn is_alone(kind: NetKind, island: &Island) -> bool
    ensures { result ≡ is_alone_of kind island.now }
{
    combination_kind(kind) == Kind::Plain
        || island.nets.as_slice().len() == 1 && island.links.as_slice().len() == 0
}

/// Whether a net has the charge of its type and stands at its place in its island.
fn is_net(islands: &[Island], number: usize, part: &NetPart) -> bool
    ensures { result ≡ is_net_of islands.now number part.now }
{
    match islands.get(part.island as usize) {
        Some(island) => {
            has_charge(part.kind, part.charge)
                && is_at(island.nets.as_slice(), part.place as usize, number)
                && is_alone(part.kind, island)
        }
        None => false,
    }
}

/// Whether each net has the charge of its type and stands at its place in its island.
pub(crate) fn are_nets(islands: &[Island], nets: &[NetPart]) -> bool
    ensures { result ≡ all_at (is_net_of islands.now) nets.now }
{
    nets.iter()
        .enumerate()
        .all(|(number, part)| is_net(islands, number, part))
}

/// Whether a net names the island and the place.
fn stands_at(nets: &[NetPart], number: usize, place: usize, net: u32) -> bool
    ensures { result ≡ stands_at_of nets.now number place net }
{
    match nets.get(net as usize) {
        Some(part) => part.island as usize == number && part.place as usize == place,
        None => false,
    }
}

/// Whether each net of an island names it and its place there.
fn are_placed(nets: &[NetPart], number: usize, placed: &[u32]) -> bool
    ensures { result ≡ all_at (λ place net. stands_at_of nets.now number place net) placed.now }
{
    placed
        .iter()
        .enumerate()
        .all(|(place, net)| stands_at(nets, number, place, *net))
}

/// Whether a drive is an output pin on the net at its place.
fn is_drive(elements: &[Element], nets: &[u32], drive: &Drive) -> bool
    ensures { result ≡ is_drive_of elements.now nets.now drive.now }
{
    let Some(element) = elements.get(drive.element as usize) else {
        return false;
    };
    match element.outs.as_slice().get(drive.pin as usize) {
        Some(net) => is_at(nets, drive.place as usize, *net as usize),
        None => false,
    }
}

fn are_drives(elements: &[Element], nets: &[u32], drives: &[Drive]) -> bool
    ensures { result ≡ list_all (is_drive_of elements.now nets.now) drives.now }
{
    drives.iter().all(|drive| is_drive(elements, nets, drive))
}

/// Whether a link has the places of the two ends of a bidirectional switch.
fn is_link(elements: &[Element], nets: &[u32], element: u32, link: &Link) -> bool
    ensures { result ≡ is_link_of elements.now nets.now element link.now }
{
    let Some(element) = elements.get(element as usize) else {
        return false;
    };
    match element.ends {
        Some((a, b)) => {
            is_at(nets, link.a as usize, a as usize) && is_at(nets, link.b as usize, b as usize)
        },
        None => false,
    }
}

fn are_links(elements: &[Element], nets: &[u32], links: &[u32], shape: &[Link]) -> bool
    ensures { result ≡ all_zip (is_link_of elements.now nets.now) links.now shape.now }
{
    links.len() == shape.len() && match_links(elements, nets, links, shape)
}

/// Whether the links fit the elements place by place, as far as both lists go.
fn match_links(elements: &[Element], nets: &[u32], links: &[u32], shape: &[Link]) -> bool
    ensures { result
        ≡ list_all (λ p. is_link_of elements.now nets.now p.0 p.1) (zip links.now shape.now) }
{
    links
        .iter()
        .zip(shape.iter())
        .all(|(element, link)| is_link(elements, nets, *element, link))
}

fn has_kind(nets: &[NetPart], net: u32, kind: Kind) -> bool
    ensures { result ≡ has_kind_of nets.now net kind }
{
    match nets.get(net as usize) {
        Some(part) => kind == combination_kind(part.kind),
        None => false,
    }
}

fn have_kinds(nets: &[NetPart], placed: &[u32], kinds: &[Kind]) -> bool
    ensures { result ≡ all_zip (has_kind_of nets.now) placed.now kinds.now }
{
    placed.len() == kinds.len() && match_kinds(nets, placed, kinds)
}

/// Whether the kinds fit the nets place by place, as far as both lists go.
fn match_kinds(nets: &[NetPart], placed: &[u32], kinds: &[Kind]) -> bool
    ensures { result ≡ list_all (λ p. has_kind_of nets.now p.0 p.1) (zip placed.now kinds.now) }
{
    placed
        .iter()
        .zip(kinds.iter())
        .all(|(net, kind)| has_kind(nets, *net, *kind))
}

fn has_level(nets: &[NetPart], net: u32, level: u8) -> bool
    ensures { result ≡ has_level_of nets.now net level }
{
    match nets.get(net as usize) {
        Some(part) => level == part.charge,
        None => false,
    }
}

fn have_levels(nets: &[NetPart], placed: &[u32], levels: &[u8]) -> bool
    ensures { result ≡ all_zip (has_level_of nets.now) placed.now levels.now }
{
    placed.len() == levels.len() && match_levels(nets, placed, levels)
}

/// Whether the levels fit the nets place by place, as far as both lists go.
fn match_levels(nets: &[NetPart], placed: &[u32], levels: &[u8]) -> bool
    ensures { result ≡ list_all (λ p. has_level_of nets.now p.0 p.1) (zip placed.now levels.now) }
{
    placed
        .iter()
        .zip(levels.iter())
        .all(|(net, level)| has_level(nets, *net, *level))
}

/// Whether an island has nets that name it, drives and links on them, and their shape.
fn is_island(nets: &[NetPart], elements: &[Element], number: usize, island: &Island) -> bool
    ensures { result ≡ is_island_of nets.now elements.now number island.now }
{
    let placed = island.nets.as_slice();
    0 < placed.len()
        && are_placed(nets, number, placed)
        && are_drives(elements, placed, island.drives.as_slice())
        && are_links(
            elements,
            placed,
            island.links.as_slice(),
            island.shape.links.as_slice(),
        )
        && have_kinds(nets, placed, island.shape.kinds.as_slice())
        && have_levels(nets, placed, island.shape.charge.as_slice())
}

/// Whether each island has nets that name it, drives and links on them, and their shape.
pub(crate) fn are_islands(nets: &[NetPart], elements: &[Element], islands: &[Island]) -> bool
    ensures { result ≡ all_at (is_island_of nets.now elements.now) islands.now }
{
    islands.iter().enumerate().all(|(number, island)| is_island(nets, elements, number, island))
}
