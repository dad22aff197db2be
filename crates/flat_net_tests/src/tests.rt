mod buffers;
mod flaws;
mod sample;

use buffers::many_buffers;
use byte_lists::{Bytes, NameList, NetList};
use delay_rule::Delays;
use flat_net::{
    Cell, Drive, Element, ElementKind, Find, Flat, Island, NetPart, Parts, Patch, sound,
};
use flaws::{Change, flaws};
use level_range::Logic;
use list_of::ListOf;
use net_settle::{KindList, LevelList, Link, LinkList, Shape};
use sample::{
    ElementRow, FindRow, IslandRow, NetRow, element_names, element_rows, find_rows, island_rows,
    net_names, net_rows,
};
use std::alloc::{AllocError, Global};
use std::process::Abort;
use std::test::Fail;
use udp_table::{RowList, Sym, SymList, Udp, UdpRow, build};

const NO_DELAYS: Delays = Delays {
    count: 0,
    d: [0, 0, 0],
};

fn net_part(row: &NetRow) -> NetPart {
    NetPart {
        kind: row.kind,
        charge: row.charge,
        delays: NO_DELAYS,
        island: row.island,
        place: row.place,
    }
}

fn numbers(alloc: Global, row: &[u32]) -> Result<NetList, AllocError> {
    Ok(NetList::from_vec(Vec::from_slice(alloc, row)?))
}

fn element(alloc: Global, row: &ElementRow) -> Result<Element, AllocError> {
    Ok(Element {
        kind: row.kind,
        s0: 6,
        s1: row.s1,
        delays: NO_DELAYS,
        outs: numbers(alloc, row.outs)?,
        ins: numbers(alloc, row.ins)?,
        ends: row.ends,
    })
}

fn shape(alloc: Global, row: &IslandRow) -> Result<Shape, AllocError> {
    let links = row
        .ends
        .iter()
        .map(|(a, b)| Link {
            a: *a,
            b: *b,
            resistive: false,
        })
        .collect(alloc)?;
    Ok(Shape {
        kinds: KindList::from_vec(Vec::from_slice(alloc, row.kinds)?),
        charge: LevelList::from_vec(Vec::from_slice(alloc, row.charge)?),
        links: LinkList::from_vec(links),
    })
}

fn island(alloc: Global, row: &IslandRow) -> Result<Island, AllocError> {
    let drives = row
        .drives
        .iter()
        .map(|(element, pin, place)| Drive {
            element: *element,
            pin: *pin,
            place: *place,
        })
        .collect(alloc)?;
    Ok(Island {
        nets: numbers(alloc, row.nets)?,
        drives: ListOf::from_vec(drives),
        links: ListOf::from_vec(Vec::from_slice(alloc, row.links)?),
        shape: shape(alloc, row)?,
    })
}

fn bytes(alloc: Global, text: &str) -> Result<Bytes, AllocError> {
    Ok(Bytes::from_vec(Vec::from_slice(alloc, text.as_bytes())?))
}

fn find(alloc: Global, row: &FindRow) -> Result<Find, AllocError> {
    Ok(Find {
        name: bytes(alloc, row.name)?,
        nets: numbers(alloc, row.nets)?,
    })
}

fn nets(alloc: Global, change: &Change) -> Result<ListOf<NetPart>, AllocError> {
    let mut nets = Vec::new(alloc);
    for (k, row) in net_rows().iter().enumerate() {
        let row = match change {
            Change::Net(at, other) if *at == k => other,
            _ => row,
        };
        nets.push(net_part(row))?;
    }
    Ok(ListOf::from_vec(nets))
}

fn elements(alloc: Global, change: &Change) -> Result<ListOf<Element>, AllocError> {
    let mut elements = Vec::new(alloc);
    for (k, row) in element_rows().iter().enumerate() {
        let row = match change {
            Change::Element(at, other) if *at == k => other,
            _ => row,
        };
        elements.push(element(alloc, row)?)?;
    }
    Ok(ListOf::from_vec(elements))
}

fn islands(alloc: Global, change: &Change) -> Result<ListOf<Island>, AllocError> {
    let mut islands = Vec::new(alloc);
    for (k, row) in island_rows().iter().enumerate() {
        let row = match change {
            Change::Island(at, other) if *at == k => other,
            _ => row,
        };
        islands.push(island(alloc, row)?)?;
    }
    Ok(ListOf::from_vec(islands))
}

fn finds(alloc: Global, change: &Change) -> Result<ListOf<Find>, AllocError> {
    let mut finds = Vec::new(alloc);
    for (k, row) in find_rows().iter().enumerate() {
        let row = match change {
            Change::Find(at, other) if *at == k => other,
            _ => row,
        };
        finds.push(find(alloc, row)?)?;
    }
    Ok(ListOf::from_vec(finds))
}

/// The names, one of them another.
fn names(
    alloc: Global,
    texts: &[&str],
    other: Option<(usize, &str)>,
) -> Result<NameList, AllocError> {
    let mut names = Vec::new(alloc);
    for (k, text) in texts.iter().enumerate() {
        let text = match other {
            Some((at, other)) if at == k => other,
            _ => *text,
        };
        names.push(bytes(alloc, text)?)?;
    }
    Ok(NameList::from_vec(names))
}

fn udps(alloc: Global) -> Result<ListOf<Udp>, Fail> {
    let row = UdpRow {
        ins: SymList::from_vec(vec![in alloc; Sym::One, Sym::Any]?),
        state: None,
        out: Sym::One,
    };
    let rows = RowList::from_vec(vec![in alloc; row]?);
    let udp = build(alloc, 2, false, Logic::X, &rows)?;
    Ok(ListOf::from_vec(vec![in alloc; udp]?))
}

/// The sample with one part changed.
fn changed(alloc: Global, change: &Change) -> Result<Parts, Fail> {
    let net_name = match change {
        Change::NetName(at, name) => Some((*at, *name)),
        _ => None,
    };
    let element_name = match change {
        Change::ElementName(at, name) => Some((*at, *name)),
        _ => None,
    };
    let inputs = match change {
        Change::Inputs(nets) => *nets,
        _ => &[3],
    };
    let outputs = match change {
        Change::Outputs(nets) => *nets,
        _ => &[5, 6, 7],
    };
    Ok(Parts {
        nets: nets(alloc, change)?,
        elements: elements(alloc, change)?,
        islands: islands(alloc, change)?,
        udps: udps(alloc)?,
        net_names: names(alloc, net_names(), net_name)?,
        element_names: names(alloc, element_names(), element_name)?,
        finds: finds(alloc, change)?,
        inputs: numbers(alloc, inputs)?,
        outputs: numbers(alloc, outputs)?,
    })
}

#[test]
fn each_flaw_is_unsound(rt: HostRuntime) -> Result<(), Fail> {
    assert!(rt; sound(rt.alloc(), &changed(rt.alloc(), &Change::Nothing)?)?);
    for flaw in flaws() {
        let parts = changed(rt.alloc(), &flaw.change)?;
        assert!(rt; !sound(rt.alloc(), &parts)?, "{}", flaw.name);
    }
    Ok(())
}

fn share<T: Send + Sync>(value: T) -> T {
    value
}

/// The netlist of the sample.
fn flat(rt: &impl Abort, alloc: Global) -> Result<Flat, Fail> {
    let parts = changed(alloc, &Change::Nothing)?;
    assert!(rt; sound(alloc, &parts)?);
    Ok(share(Flat::new(alloc, parts)?))
}

fn gives_nets(rt: &impl Abort, flat: &Flat) {
    assert_eq!(rt; flat.net_count(), 8);
    assert_eq!(rt; flat.net(2).charge, 2);
    assert_eq!(rt; flat.net_name(7).as_bytes(), b"v[0]".as_slice());
}

fn gives_elements(rt: &impl Abort, flat: &Flat) {
    assert_eq!(rt; flat.element_count(), 6);
    assert_eq!(rt; flat.element(3).outs.as_slice(), [6, 7].as_slice());
    assert_eq!(rt; flat.element_name(2).as_bytes(), b"u0".as_slice());
}

fn gives_islands(rt: &impl Abort, flat: &Flat) {
    assert_eq!(rt; flat.island_count(), 6);
    assert_eq!(rt; flat.island(0).nets.as_slice(), [0, 1, 2].as_slice());
    assert_eq!(rt; flat.patch(Cell::Island(5)), Patch::Whole);
}

fn gives_ports(rt: &impl Abort, flat: &Flat) {
    assert_eq!(rt; flat.inputs().as_slice(), [3].as_slice());
    assert_eq!(rt; flat.outputs().as_slice(), [5, 6, 7].as_slice());
}

#[test]
fn readers_give_the_parts(rt: HostRuntime) -> Result<(), Fail> {
    let flat = flat(&rt, rt.alloc())?;
    gives_nets(&rt, &flat);
    gives_elements(&rt, &flat);
    gives_islands(&rt, &flat);
    gives_ports(&rt, &flat);
    Ok(())
}

fn finds_bit(rt: &impl Abort, flat: &Flat, name: &str, at: u32, net: Option<u32>) {
    assert_eq!(rt; flat.bit_of(name, at), net);
}

fn finds_element(rt: &impl Abort, flat: &Flat, name: &str, element: Option<u32>) {
    assert_eq!(rt; flat.element_of(name), element);
}

#[test]
fn names_find_bits_and_elements(rt: HostRuntime) -> Result<(), Fail> {
    let flat = flat(&rt, rt.alloc())?;
    finds_bit(&rt, &flat, "v", 0, Some(6));
    finds_bit(&rt, &flat, "v", 1, Some(7));
    finds_bit(&rt, &flat, "v", 2, None);
    finds_bit(&rt, &flat, "v[1]", 0, None);
    finds_element(&rt, &flat, "a0", Some(4));
    finds_element(&rt, &flat, "a", None);
    Ok(())
}

/// Opens the first element, which is a switch.
fn open_first(rt: &impl Abort, flat: &mut Flat) {
    assert_eq!(rt; flat.element_count(), 6);
    assert_eq!(rt; flat.element(0).kind, ElementKind::Tran);
    flat.set_patch(Cell::Element(0), Patch::Open);
}

fn has_patch(rt: &impl Abort, flat: &Flat, element: u32, patch: Patch) {
    assert!(rt; element < flat.element_count());
    assert_eq!(rt; flat.patch(Cell::Element(element)), patch);
}

#[test]
fn a_patch_is_that_of_its_cell_alone(rt: HostRuntime) -> Result<(), Fail> {
    let mut flat = flat(&rt, rt.alloc())?;
    open_first(&rt, &mut flat);
    has_patch(&rt, &flat, 0, Patch::Open);
    has_patch(&rt, &flat, 1, Patch::Whole);
    Ok(())
}

fn copy_of(flat: &Flat, alloc: Global) -> Result<Parts, AllocError> {
    flat.parts(alloc)
}

/// How long the lists of the parts are, in the order of the fields.
fn lengths(parts: &Parts) -> [usize; 9] {
    [
        parts.nets.as_slice().len(),
        parts.elements.as_slice().len(),
        parts.islands.as_slice().len(),
        parts.udps.as_slice().len(),
        parts.net_names.as_slice().len(),
        parts.element_names.as_slice().len(),
        parts.finds.as_slice().len(),
        parts.inputs.as_slice().len(),
        parts.outputs.as_slice().len(),
    ]
}

fn has_lengths(rt: &impl Abort, parts: &Parts, expected: &[usize]) {
    assert_eq!(rt; lengths(parts).as_slice(), expected);
}

/// Each net is driven by the element of its number, and found by the name of its number.
fn has_buffers(rt: &impl Abort, parts: &Parts) {
    for (number, element) in parts.elements.as_slice().iter().enumerate() {
        assert!(rt;
            element
                .outs
                .as_slice()
                .iter()
                .all(|net| *net as usize == number)
        );
    }
    for (number, found) in parts.finds.as_slice().iter().enumerate() {
        assert!(rt;
            found
                .nets
                .as_slice()
                .iter()
                .all(|net| *net as usize == number)
        );
    }
}

fn sample_copy(rt: &impl Abort, alloc: Global) -> Result<Parts, Fail> {
    let flat = flat(rt, alloc)?;
    Ok(copy_of(&flat, alloc)?)
}

#[test]
fn a_copy_has_all_parts(rt: HostRuntime) -> Result<(), Fail> {
    let parts = sample_copy(&rt, rt.alloc())?;
    has_lengths(&rt, &parts, &[8, 6, 6, 1, 8, 6, 7, 1, 3]);
    Ok(())
}

/// The netlist of so many buffers.
fn flat_of_buffers(rt: &impl Abort, alloc: Global, count: u32) -> Result<Flat, Fail> {
    let parts = many_buffers(alloc, count)?;
    assert!(rt; sound(alloc, &parts)?);
    Ok(Flat::new(alloc, parts)?)
}

fn copy_of_buffers(rt: &impl Abort, alloc: Global, count: u32) -> Result<Parts, Fail> {
    let flat = flat_of_buffers(rt, alloc, count)?;
    Ok(copy_of(&flat, alloc)?)
}

#[test]
fn thousands_of_nets_are_kept_whole(rt: HostRuntime) -> Result<(), Fail> {
    let parts = copy_of_buffers(&rt, rt.alloc(), 5_000)?;
    has_lengths(
        &rt,
        &parts,
        &[5_000, 5_000, 5_000, 0, 5_000, 5_000, 5_000, 1, 1],
    );
    has_buffers(&rt, &parts);
    Ok(())
}
