//! Netlists of one element whose pins are on nets of their own.
ghost use Rattle.std.specs.Prelude.{◌≤◌};

use super::models::{Model, Table, tables};
use byte_lists::{Bytes, NameList, NetList};
use delay_rule::Delays;
use flat_net::{Drive, Element, ElementKind, Island, NetKind, NetPart, Parts};
use level_range::{Kind, Logic};
use list_of::ListOf;
use net_settle::{KindList, LevelList, Link, LinkList, Shape};
use std::alloc::{AllocError, Global};
use std::process::Abort;
use std::test::Fail;
use udp_table::{RowList, SymList, Udp, UdpRow, build};

const NO_DELAYS: Delays = Delays {
    count: 0,
    d: [0, 0, 0],
};

const FIVE_AND_THREE: Delays = Delays {
    count: 2,
    d: [5, 3, 0],
};

/// How many nets the ends of a bidirectional switch take.
fn end_count(model: &Model) -> u16 {
    match model.kind {
        ElementKind::Tran | ElementKind::Tranif { .. } => 2,
        _ => 0,
    }
}

/// The number of the net of the first output, and of that of the first input.
fn first_nets(model: &Model) -> (u16, u16)
    ensures outs { result.0 ≤ 2 }
    ensures ins { result.1 ≤ 257 }
{
    let ends = if end_count(model) == 2 { 2 } else { 0 };
    (ends, ends + u16::from(model.outs))
}

/// The numbers of so many nets from the first on.
pub(crate) fn numbers(alloc: Global, first: u16, count: u8) -> Result<NetList, AllocError> {
    let mut nets = Vec::new(alloc);
    for k in 0..count {
        nets.push(u32::from(first) + u32::from(k))?;
    }
    Ok(NetList::from_vec(nets))
}

/// The ends are nets 0 and 1, and the nets of the outputs and then of the inputs follow.
fn element(alloc: Global, model: &Model) -> Result<Element, AllocError> {
    let (first_out, first_in) = first_nets(model);
    Ok(Element {
        kind: model.kind,
        s0: model.s0,
        s1: model.s1,
        delays: if model.slow {
            FIVE_AND_THREE
        } else {
            NO_DELAYS
        },
        outs: numbers(alloc, first_out, model.outs)?,
        ins: numbers(alloc, first_in, model.ins)?,
        ends: if first_out == 2 { Some((0, 1)) } else { None },
    })
}

fn wire(island: u32, place: u32) -> NetPart {
    NetPart {
        kind: NetKind::Wire,
        charge: 0,
        delays: NO_DELAYS,
        island,
        place,
    }
}

/// An island of one net, which an output may drive.
fn alone(alloc: Global, net: u16, output: Option<u8>) -> Result<Island, AllocError> {
    let mut drives = Vec::new(alloc);
    if let Some(pin) = output {
        drives.push(Drive {
            element: 0,
            pin: u32::from(pin),
            place: 0,
        })?;
    }
    Ok(Island {
        nets: numbers(alloc, net, 1)?,
        drives: ListOf::from_vec(drives),
        links: ListOf::from_vec(Vec::new(alloc)),
        shape: Shape {
            kinds: KindList::from_vec(vec![in alloc; Kind::Plain]?),
            charge: LevelList::from_vec(vec![in alloc; 0]?),
            links: LinkList::from_vec(Vec::new(alloc)),
        },
    })
}

/// The island of the two ends of a switch.
fn joined(alloc: Global) -> Result<Island, AllocError> {
    let link = Link {
        a: 0,
        b: 1,
        resistive: false,
    };
    Ok(Island {
        nets: numbers(alloc, 0, 2)?,
        drives: ListOf::from_vec(Vec::new(alloc)),
        links: ListOf::from_vec(vec![in alloc; 0]?),
        shape: Shape {
            kinds: KindList::from_vec(vec![in alloc; Kind::Plain, Kind::Plain]?),
            charge: LevelList::from_vec(vec![in alloc; 0, 0]?),
            links: LinkList::from_vec(vec![in alloc; link]?),
        },
    })
}

fn udp(rt: &impl Abort, alloc: Global, table: &Table) -> Result<Udp, Fail> {
    let mut rows = Vec::new(alloc);
    for (first, second, state, out) in table.rows {
        let ins = SymList::from_vec(vec![in alloc; *first, *second]?);
        rows.push(UdpRow {
            ins,
            state: *state,
            out: *out,
        })?;
    }
    let rows = RowList::from_vec(rows);
    assert!(rt; table.start != Logic::Z);
    Ok(build(alloc, 2, table.sequential, table.start, &rows)?)
}

fn udps(rt: &impl Abort, alloc: Global) -> Result<ListOf<Udp>, Fail> {
    let mut udps = Vec::new(alloc);
    for table in tables() {
        udps.push(udp(rt, alloc, table)?)?;
    }
    Ok(ListOf::from_vec(udps))
}

/// Names of one letter.
pub(crate) fn names(alloc: Global, count: usize) -> Result<NameList, AllocError> {
    let mut names = Vec::new(alloc);
    for letter in (b'a'..=b'z').take(count) {
        names.push(Bytes::from_vec(vec![in alloc; letter]?))?;
    }
    Ok(NameList::from_vec(names))
}

/// The ends stand in one island, and every other net in one of its own.
fn nets(alloc: Global, model: &Model) -> Result<ListOf<NetPart>, AllocError> {
    let mut nets = Vec::new(alloc);
    let mut island = 0;
    if end_count(model) == 2 {
        nets.push(wire(0, 0))?;
        nets.push(wire(0, 1))?;
        island = 1;
    }
    for k in 0..u32::from(model.outs) + u32::from(model.ins) {
        nets.push(wire(island + k, 0))?;
    }
    Ok(ListOf::from_vec(nets))
}

fn islands(alloc: Global, model: &Model) -> Result<ListOf<Island>, AllocError> {
    let mut islands = Vec::new(alloc);
    let (first_out, first_in) = first_nets(model);
    if first_out == 2 {
        islands.push(joined(alloc)?)?;
    }
    for k in 0..model.outs {
        islands.push(alone(alloc, first_out + u16::from(k), Some(k))?)?;
    }
    for k in 0..model.ins {
        islands.push(alone(alloc, first_in + u16::from(k), None)?)?;
    }
    Ok(ListOf::from_vec(islands))
}

/// A netlist of the element alone.
pub(crate) fn parts_of(rt: &impl Abort, alloc: Global, model: &Model) -> Result<Parts, Fail> {
    let nets = nets(alloc, model)?;
    let net_names = names(alloc, nets.as_slice().len())?;
    Ok(Parts {
        nets,
        elements: ListOf::from_vec(vec![in alloc; element(alloc, model)?]?),
        islands: islands(alloc, model)?,
        udps: udps(rt, alloc)?,
        net_names,
        element_names: names(alloc, 1)?,
        finds: ListOf::from_vec(Vec::new(alloc)),
        inputs: numbers(alloc, 0, 0)?,
        outputs: numbers(alloc, 0, 0)?,
    })
}
