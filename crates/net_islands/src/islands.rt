ghost use Rattle.std.specs.Prelude.{◌≡◌, ◌<◌, ◌≤◌, IfOk, length, map};
ghost use Rattle.std.specs.List.{All};
ghost use Rattle.flat_net.specs.Islands.{combination_kind as combination_kind_of};
ghost use Rattle.flat_net.specs.Soundness.{greatest_count};
ghost use Rattle.net_islands.specs.Keys.{lists_in};
ghost use Rattle.net_islands.specs.Islands.{HasNets, island as island_of, islands as islands_of, item_islands as item_islands_of, list_islands as list_islands_of, shape as shape_of};

use crate::items::{drives, links, members};
use crate::keys::lists_by_key;
use crate::parts::NetClass;
use flat_net::{Drive, Element, Island, NetKind, NetList};
use level_range::Kind;
use list_of::ListOf;
use net_settle::{KindList, LevelList, Link, LinkList, Shape};
use std::alloc::{AllocError, Global};

/// How the drivers of a net are combined, by its type.
fn combination_kind(kind: NetKind) -> Kind
    ensures { result ≡ combination_kind_of kind }
{
    match kind {
        NetKind::And => Kind::And,
        NetKind::Or => Kind::Or,
        _ => Kind::Plain,
    }
}

/// The numbers of nets or elements beside something else.
fn numbers_of<T>(alloc: Global, items: &[(u32, T)]) -> Result<Vec<u32>, AllocError>
    ensures { IfOk result (λ numbers. numbers.items ≡ map (λ item. item.0) items.now) }
{
    items.iter().map(|item| item.0).collect(alloc)
}

/// How the drivers of each net are combined.
fn kinds(alloc: Global, nets: &[(u32, NetClass)]) -> Result<Vec<Kind>, AllocError>
    ensures { IfOk result
        (λ kinds. kinds.items ≡ map (λ net. combination_kind_of net.1.kind) nets.now) }
{
    nets.iter()
        .map(|net| combination_kind(net.1.kind))
        .collect(alloc)
}

/// The level of the charge of each net.
fn charges(alloc: Global, nets: &[(u32, NetClass)]) -> Result<Vec<u8>, AllocError>
    ensures { IfOk result (λ levels. levels.items ≡ map (λ net. net.1.charge) nets.now) }
{
    nets.iter().map(|net| net.1.charge).collect(alloc)
}

/// The switches beside their elements.
fn switches(alloc: Global, links: &[(u32, Link)]) -> Result<Vec<Link>, AllocError>
    ensures { IfOk result (λ switches. switches.items ≡ map (λ link. link.1) links.now) }
{
    links.iter().map(|link| link.1).collect(alloc)
}

/// How an island of these nets and switches settles.
fn shape(
    alloc: Global,
    nets: &[(u32, NetClass)],
    links: &[(u32, Link)],
) -> Result<Shape, AllocError>
    ensures { IfOk result (λ shape. shape ≡ shape_of nets.now links.now) }
{
    Ok(Shape {
        kinds: KindList::from_vec(kinds(alloc, nets)?),
        charge: LevelList::from_vec(charges(alloc, nets)?),
        links: LinkList::from_vec(switches(alloc, links)?),
    })
}

/// An island of these nets, output pins and switches.
fn island(
    alloc: Global,
    nets: &[(u32, NetClass)],
    drives: &[Drive],
    links: &[(u32, Link)],
) -> Result<Island, AllocError>
    ensures { IfOk result (λ island. island ≡ island_of nets.now drives.now links.now) }
{
    Ok(Island {
        nets: NetList::from_vec(numbers_of(alloc, nets)?),
        drives: ListOf::from_vec(Vec::from_slice(alloc, drives)?),
        links: ListOf::from_vec(numbers_of(alloc, links)?),
        shape: shape(alloc, nets, links)?,
    })
}

/// The islands of these lists of nets, output pins and switches.
fn list_islands(
    alloc: Global,
    nets: &[Vec<(u32, NetClass)>],
    drives: &[Vec<Drive>],
    links: &[Vec<(u32, Link)>],
) -> Result<Vec<Island>, AllocError>
    requires drives { length drives.now ≡ length nets.now }
    requires links { length links.now ≡ length nets.now }
    ensures { IfOk result (λ islands. islands.items
        ≡ list_islands_of (length nets.now) (lists_in nets.now) (lists_in drives.now)
        (lists_in links.now)) }
{
    let mut islands = Vec::new(alloc);
    for number in 0..nets.len() {
        islands.push(island(alloc, &nets[number], &drives[number], &links[number])?)?;
    }
    Ok(islands)
}

/// So many islands of these nets, output pins and switches, by the numbers of the islands.
fn item_islands(
    alloc: Global,
    count: u32,
    nets: &[(u32, (u32, NetClass))],
    drives: &[(u32, Drive)],
    links: &[(u32, (u32, Link))],
) -> Result<Vec<Island>, AllocError>
    requires nets { All (λ net. net.0 < count) nets.now }
    requires drives { All (λ drive. drive.0 < count) drives.now }
    requires links { All (λ link. link.0 < count) links.now }
    ensures { IfOk result
        (λ islands. islands.items ≡ item_islands_of count nets.now drives.now links.now) }
{
    let nets = lists_by_key(alloc, count, nets)?;
    let drives = lists_by_key(alloc, count, drives)?;
    let links = lists_by_key(alloc, count, links)?;
    list_islands(alloc, nets.as_slice(), drives.as_slice(), links.as_slice())
}

/// The islands of a netlist, by the numbers of the islands and the places of its nets.
pub(crate) fn islands(
    alloc: Global,
    count: u32,
    numbers: &[u32],
    places: &[u32],
    nets: &[NetClass],
    elements: &[Element],
    resistive: &[bool],
) -> Result<Vec<Island>, AllocError>
    requires few_nets { length nets.now ≤ greatest_count }
    requires few_elements { length elements.now ≤ greatest_count }
    requires within { All (λ number. number < count) numbers.now }
    requires numbers { length numbers.now ≡ length nets.now }
    requires places { length places.now ≡ length nets.now }
    requires elements { All (HasNets (length nets.now)) elements.now }
    requires resistive { length resistive.now ≡ length elements.now }
    ensures { IfOk result (λ islands. islands.items
        ≡ islands_of count numbers.now places.now nets.now elements.now resistive.now) }
{
    let nets = members(alloc, numbers, nets)?;
    let drives = drives(alloc, numbers, places, elements)?;
    let links = links(alloc, numbers, places, elements, resistive)?;
    item_islands(
        alloc,
        count,
        nets.as_slice(),
        drives.as_slice(),
        links.as_slice(),
    )
}
