//! The netlists of rows.
ghost use Rattle.std.specs.Prelude.{◌<◌, ◌^◌};

use super::models::{GateRow, RunRow};
use byte_lists::{Bytes, NameList, NetList};
use delay_rule::Delays;
use flat_net::{Drive, Element, Find, Flat, Island, NetKind, NetPart, Parts, sound};
use level_range::Kind;
use list_of::ListOf;
use net_settle::{KindList, LevelList, LinkList, Shape};
use std::alloc::{AllocError, Global};
use std::process::Abort;
use std::test::Fail;

fn bytes(alloc: Global, text: &str) -> Result<Bytes, AllocError> {
    Ok(Bytes::from_vec(Vec::from_slice(alloc, text.as_bytes())?))
}

fn numbers(alloc: Global, nets: &[u32]) -> Result<NetList, AllocError> {
    Ok(NetList::from_vec(Vec::from_slice(alloc, nets)?))
}

/// A delay that a gate may have.
fn ticks(rt: &impl Abort, delay: u32) -> u32
    ensures { result < 2 ^ 31 }
{
    assert!(rt; delay < 1 << 31);
    delay
}

fn delays_of(rt: &impl Abort, given: &[u32]) -> Delays {
    match given {
        [] => Delays {
            count: 0,
            d: [0, 0, 0],
        },
        [all] => Delays {
            count: 1,
            d: [ticks(rt, *all), 0, 0],
        },
        [rise, fall, ..] => Delays {
            count: 2,
            d: [ticks(rt, *rise), ticks(rt, *fall), 0],
        },
    }
}

fn wire(island: u32) -> NetPart {
    NetPart {
        kind: NetKind::Wire,
        charge: 0,
        delays: Delays {
            count: 0,
            d: [0, 0, 0],
        },
        island,
        place: 0,
    }
}

fn wires(alloc: Global, names: &[&str]) -> Result<ListOf<NetPart>, AllocError> {
    let mut wires = Vec::new(alloc);
    for (_, island) in names.iter().zip(0u32..) {
        wires.push(wire(island))?;
    }
    Ok(ListOf::from_vec(wires))
}

fn gates(rt: &impl Abort, alloc: Global, rows: &[GateRow]) -> Result<ListOf<Element>, AllocError> {
    let mut gates = Vec::new(alloc);
    for row in rows {
        gates.push(Element {
            kind: row.kind,
            s0: 6,
            s1: 6,
            delays: delays_of(rt, row.delays),
            outs: numbers(alloc, &[row.out])?,
            ins: numbers(alloc, row.ins)?,
            ends: None,
        })?;
    }
    Ok(ListOf::from_vec(gates))
}

/// The outputs that are on a net.
fn drives(alloc: Global, rows: &[GateRow], net: u32) -> Result<ListOf<Drive>, AllocError> {
    let mut drives = Vec::new(alloc);
    for (row, element) in rows.iter().zip(0u32..) {
        if row.out == net {
            drives.push(Drive {
                element,
                pin: 0,
                place: 0,
            })?;
        }
    }
    Ok(ListOf::from_vec(drives))
}

fn shape(alloc: Global) -> Result<Shape, AllocError> {
    Ok(Shape {
        kinds: KindList::from_vec(vec![in alloc; Kind::Plain]?),
        charge: LevelList::from_vec(vec![in alloc; 0]?),
        links: LinkList::from_vec(Vec::new(alloc)),
    })
}

fn islands(alloc: Global, row: &RunRow) -> Result<ListOf<Island>, AllocError> {
    let mut islands = Vec::new(alloc);
    for (_, net) in row.names.iter().zip(0u32..) {
        islands.push(Island {
            nets: numbers(alloc, &[net])?,
            drives: drives(alloc, row.gates, net)?,
            links: ListOf::from_vec(Vec::new(alloc)),
            shape: shape(alloc)?,
        })?;
    }
    Ok(ListOf::from_vec(islands))
}

fn net_names(alloc: Global, texts: &[&str]) -> Result<NameList, AllocError> {
    let mut names = Vec::new(alloc);
    for text in texts {
        names.push(bytes(alloc, text)?)?;
    }
    Ok(NameList::from_vec(names))
}

/// Names of one letter.
fn gate_names(alloc: Global, count: usize) -> Result<NameList, AllocError> {
    let mut names = Vec::new(alloc);
    for letter in (b'a'..=b'z').take(count) {
        names.push(Bytes::from_vec(vec![in alloc; letter]?))?;
    }
    Ok(NameList::from_vec(names))
}

/// Each net by its own name.
fn finds(alloc: Global, texts: &[&str]) -> Result<ListOf<Find>, AllocError> {
    let mut finds = Vec::new(alloc);
    for (text, net) in texts.iter().zip(0u32..) {
        finds.push(Find {
            name: bytes(alloc, text)?,
            nets: numbers(alloc, &[net])?,
        })?;
    }
    Ok(ListOf::from_vec(finds))
}

fn parts_of(rt: &impl Abort, alloc: Global, row: &RunRow) -> Result<Parts, AllocError> {
    Ok(Parts {
        nets: wires(alloc, row.names)?,
        elements: gates(rt, alloc, row.gates)?,
        islands: islands(alloc, row)?,
        udps: ListOf::from_vec(Vec::new(alloc)),
        net_names: net_names(alloc, row.names)?,
        element_names: gate_names(alloc, row.gates.len())?,
        finds: finds(alloc, row.names)?,
        inputs: numbers(alloc, row.inputs)?,
        outputs: numbers(alloc, row.outputs)?,
    })
}

/// The netlist of a row.
pub(crate) fn netlist_of(rt: &impl Abort, alloc: Global, row: &RunRow) -> Result<Flat, Fail> {
    let parts = parts_of(rt, alloc, row)?;
    assert!(rt; sound(alloc, &parts)?);
    Ok(Flat::new(alloc, parts)?)
}
