//! The netlists of rows.
ghost use Rattle.std.specs.Prelude.{◌<◌, ◌^◌};

use super::models::{ElementRow, NetRow, RunRow, TableRow};
use byte_lists::{Bytes, NameList, NetList};
use delay_rule::Delays;
use flat_net::{Drive, Element, Flat, Island, NetPart, Parts, sound};
use level_range::{Kind, Logic};
use list_of::ListOf;
use net_settle::{KindList, LevelList, LinkList, Shape};
use std::alloc::{AllocError, Global};
use std::process::Abort;
use std::test::Fail;
use udp_table::{RowList, Sym, SymList, Udp, UdpRow, build};

fn numbers(alloc: Global, nets: &[u32]) -> Result<NetList, AllocError> {
    Ok(NetList::from_vec(Vec::from_slice(alloc, nets)?))
}

/// A delay that a net or an element may have.
fn ticks(rt: &impl Abort, delay: u32) -> u32
    ensures { result < 2 ^ 31 }
{
    assert!(rt; delay < 1 << 31);
    delay
}

fn delays_of(rt: &impl Abort, given: &[u32]) -> Delays {
    match given {
        [] => Delays {
            count: 0,
            d: [0, 0, 0],
        },
        [all] => Delays {
            count: 1,
            d: [ticks(rt, *all), 0, 0],
        },
        [rise, fall] => Delays {
            count: 2,
            d: [ticks(rt, *rise), ticks(rt, *fall), 0],
        },
        [rise, fall, third, ..] => Delays {
            count: 3,
            d: [ticks(rt, *rise), ticks(rt, *fall), ticks(rt, *third)],
        },
    }
}

/// Names of one letter.
fn names(alloc: Global, count: usize) -> Result<NameList, AllocError> {
    let mut names = Vec::new(alloc);
    for letter in (b'a'..=b'z').take(count) {
        names.push(Bytes::from_vec(vec![in alloc; letter]?))?;
    }
    Ok(NameList::from_vec(names))
}

fn nets(rt: &impl Abort, alloc: Global, rows: &[NetRow]) -> Result<ListOf<NetPart>, AllocError> {
    let mut nets = Vec::new(alloc);
    for (row, island) in rows.iter().zip(0u32..) {
        nets.push(NetPart {
            kind: row.kind,
            charge: row.charge,
            delays: delays_of(rt, row.delays),
            island,
            place: 0,
        })?;
    }
    Ok(ListOf::from_vec(nets))
}

fn elements(
    rt: &impl Abort,
    alloc: Global,
    rows: &[ElementRow],
) -> Result<ListOf<Element>, AllocError> {
    let mut elements = Vec::new(alloc);
    for row in rows {
        elements.push(Element {
            kind: row.kind,
            s0: 6,
            s1: 6,
            delays: delays_of(rt, row.delays),
            outs: numbers(alloc, &[row.out])?,
            ins: numbers(alloc, row.ins)?,
            ends: None,
        })?;
    }
    Ok(ListOf::from_vec(elements))
}

/// The outputs that are on a net.
fn drives(alloc: Global, rows: &[ElementRow], net: u32) -> Result<ListOf<Drive>, AllocError> {
    let mut drives = Vec::new(alloc);
    for (row, element) in rows.iter().zip(0u32..) {
        if row.out == net {
            drives.push(Drive {
                element,
                pin: 0,
                place: 0,
            })?;
        }
    }
    Ok(ListOf::from_vec(drives))
}

fn shape(alloc: Global, charge: u8) -> Result<Shape, AllocError> {
    Ok(Shape {
        kinds: KindList::from_vec(vec![in alloc; Kind::Plain]?),
        charge: LevelList::from_vec(vec![in alloc; charge]?),
        links: LinkList::from_vec(Vec::new(alloc)),
    })
}

fn islands(alloc: Global, row: &RunRow) -> Result<ListOf<Island>, AllocError> {
    let mut islands = Vec::new(alloc);
    for (net, number) in row.nets.iter().zip(0u32..) {
        islands.push(Island {
            nets: numbers(alloc, &[number])?,
            drives: drives(alloc, row.elements, number)?,
            links: ListOf::from_vec(Vec::new(alloc)),
            shape: shape(alloc, net.charge)?,
        })?;
    }
    Ok(ListOf::from_vec(islands))
}

fn udp(alloc: Global, table: &TableRow) -> Result<Udp, Fail> {
    let mut rows = Vec::new(alloc);
    for (first, second, out) in table.rows {
        let ins = SymList::from_vec(vec![in alloc; *first, *second]?);
        rows.push(UdpRow {
            ins,
            state: Some(Sym::Any),
            out: *out,
        })?;
    }
    let rows = RowList::from_vec(rows);
    Ok(build(alloc, 2, true, Logic::Zero, &rows)?)
}

fn udps(alloc: Global, tables: &[TableRow]) -> Result<ListOf<Udp>, Fail> {
    let mut udps = Vec::new(alloc);
    for table in tables {
        udps.push(udp(alloc, table)?)?;
    }
    Ok(ListOf::from_vec(udps))
}

fn parts_of(rt: &impl Abort, alloc: Global, row: &RunRow) -> Result<Parts, Fail> {
    Ok(Parts {
        nets: nets(rt, alloc, row.nets)?,
        elements: elements(rt, alloc, row.elements)?,
        islands: islands(alloc, row)?,
        udps: udps(alloc, row.tables)?,
        net_names: names(alloc, row.nets.len())?,
        element_names: names(alloc, row.elements.len())?,
        finds: ListOf::from_vec(Vec::new(alloc)),
        inputs: numbers(alloc, row.inputs)?,
        outputs: numbers(alloc, row.outputs)?,
    })
}

/// The netlist of a row.
pub(crate) fn netlist_of(rt: &impl Abort, alloc: Global, row: &RunRow) -> Result<Flat, Fail> {
    let parts = parts_of(rt, alloc, row)?;
    assert!(rt; sound(alloc, &parts)?);
    Ok(Flat::new(alloc, parts)?)
}
