//! Netlists of one island whose nets have a driver each.
use super::island_rows::{IslandCase, Net};
use super::netlists::{names, numbers};
use delay_rule::Delays;
use flat_net::{Drive, Element, ElementKind, Island, NetKind, NetPart, Parts};
use level_range::{Kind, Logic};
use list_of::ListOf;
use net_settle::{KindList, LevelList, Link, LinkList, Shape};
use std::alloc::{AllocError, Global};
use std::process::Abort;
use std::test::Fail;

fn delays_of(given: &[u16]) -> Delays {
    match given {
        [] => Delays {
            count: 0,
            d: [0, 0, 0],
        },
        [all] => Delays {
            count: 1,
            d: [u32::from(*all), 0, 0],
        },
        [rise, fall] => Delays {
            count: 2,
            d: [u32::from(*rise), u32::from(*fall), 0],
        },
        [rise, fall, third, ..] => Delays {
            count: 3,
            d: [u32::from(*rise), u32::from(*fall), u32::from(*third)],
        },
    }
}

fn combination_kind(kind: NetKind) -> Kind {
    match kind {
        NetKind::And => Kind::And,
        NetKind::Or => Kind::Or,
        _ => Kind::Plain,
    }
}

fn net_parts(alloc: Global, nets: &[Net]) -> Result<ListOf<NetPart>, AllocError> {
    let mut parts = Vec::new(alloc);
    for (net, place) in nets.iter().zip(0u32..) {
        parts.push(NetPart {
            kind: net.kind,
            charge: net.charge,
            delays: delays_of(net.delays),
            island: 0,
            place,
        })?;
    }
    Ok(ListOf::from_vec(parts))
}

/// A constant for each net, and then a switch for each link.
fn elements(alloc: Global, case: &IslandCase) -> Result<ListOf<Element>, AllocError> {
    let mut elements = Vec::new(alloc);
    for (_, net) in case.nets.iter().zip(0u8..) {
        elements.push(Element {
            kind: ElementKind::Constant(Logic::X),
            s0: 6,
            s1: 6,
            delays: delays_of(&[]),
            outs: numbers(alloc, u16::from(net), 1)?,
            ins: numbers(alloc, 0, 0)?,
            ends: None,
        })?;
    }
    for (a, b, _) in case.links {
        elements.push(Element {
            kind: ElementKind::Tran,
            s0: 0,
            s1: 0,
            delays: delays_of(&[]),
            outs: numbers(alloc, 0, 0)?,
            ins: numbers(alloc, 0, 0)?,
            ends: Some((*a, *b)),
        })?;
    }
    Ok(ListOf::from_vec(elements))
}

fn shape(alloc: Global, case: &IslandCase) -> Result<Shape, AllocError> {
    let mut kinds = Vec::new(alloc);
    let mut charge = Vec::new(alloc);
    for net in case.nets {
        kinds.push(combination_kind(net.kind))?;
        charge.push(net.charge)?;
    }
    let mut links = Vec::new(alloc);
    for (a, b, resistive) in case.links {
        links.push(Link {
            a: *a,
            b: *b,
            resistive: *resistive,
        })?;
    }
    Ok(Shape {
        kinds: KindList::from_vec(kinds),
        charge: LevelList::from_vec(charge),
        links: LinkList::from_vec(links),
    })
}

fn island(alloc: Global, case: &IslandCase, nets: u8) -> Result<Island, AllocError> {
    let mut drives = Vec::new(alloc);
    let mut links = Vec::new(alloc);
    for net in 0..nets {
        drives.push(Drive {
            element: u32::from(net),
            pin: 0,
            place: u32::from(net),
        })?;
    }
    for (_, link) in case.links.iter().zip(u32::from(nets)..) {
        links.push(link)?;
    }
    Ok(Island {
        nets: numbers(alloc, 0, nets)?,
        drives: ListOf::from_vec(drives),
        links: ListOf::from_vec(links),
        shape: shape(alloc, case)?,
    })
}

fn islands(alloc: Global, case: &IslandCase, nets: u8) -> Result<ListOf<Island>, AllocError> {
    let mut islands = Vec::new(alloc);
    islands.push(island(alloc, case, nets)?)?;
    Ok(ListOf::from_vec(islands))
}

/// A netlist of the island alone, of three nets at most.
pub(crate) fn island_parts(
    rt: &impl Abort,
    alloc: Global,
    case: &IslandCase,
) -> Result<Parts, Fail> {
    assert!(rt; case.nets.len() <= 3 && case.links.len() <= 3);
    let nets = case.nets.len() as u8;
    Ok(Parts {
        nets: net_parts(alloc, case.nets)?,
        elements: elements(alloc, case)?,
        islands: islands(alloc, case, nets)?,
        udps: ListOf::from_vec(Vec::new(alloc)),
        net_names: names(alloc, case.nets.len())?,
        element_names: names(alloc, case.nets.len() + case.links.len())?,
        finds: ListOf::from_vec(Vec::new(alloc)),
        inputs: numbers(alloc, 0, 1)?,
        outputs: numbers(alloc, 0, 0)?,
    })
}
