//! Netlists of nets alone, for names to be bound to.
use byte_lists::{Bytes, NameList, NetList};
use delay_rule::Delays;
use flat_net::{Find, Flat, Island, NetKind, NetPart, Parts, sound};
use level_range::Kind;
use list_of::ListOf;
use net_settle::{KindList, LevelList, LinkList, Shape};
use std::alloc::{AllocError, Global};
use std::process::Abort;
use std::test::Fail;

struct FindRow {
    name: &'static str,
    nets: &'static [u32],
}

static NAMES: [&str; 13] = [
    "q", "qn", "s", "r", "v[2]", "v[1]", "v[0]", "\\a+b ", "b", "u.w", "u.\\x .y", "\\p [1]",
    "\\p [0]",
];

/// Names of several bits, and inner names of nets.
static FINDS: [FindRow; 5] = [
    FindRow {
        name: "v",
        nets: &[4, 5, 6],
    },
    FindRow {
        name: "\\p ",
        nets: &[11, 12],
    },
    FindRow {
        name: "u.a",
        nets: &[2],
    },
    FindRow {
        name: "u.d",
        nets: &[3, 3],
    },
    FindRow {
        name: "u.mix",
        nets: &[2, 9],
    },
];

static INPUTS: [u32; 9] = [2, 3, 4, 5, 6, 7, 8, 11, 12];

static OUTPUTS: [u32; 3] = [0, 1, 8];

fn small_names() -> &'static [&'static str] {
    &NAMES
}

fn small_finds() -> &'static [FindRow] {
    &FINDS
}

fn small_inputs() -> &'static [u32] {
    &INPUTS
}

fn small_outputs() -> &'static [u32] {
    &OUTPUTS
}

fn bytes(alloc: Global, text: &str) -> Result<Bytes, AllocError> {
    Ok(Bytes::from_vec(Vec::from_slice(alloc, text.as_bytes())?))
}

fn numbers(alloc: Global, nets: &[u32]) -> Result<NetList, AllocError> {
    Ok(NetList::from_vec(Vec::from_slice(alloc, nets)?))
}

fn wire(island: u32) -> NetPart {
    NetPart {
        kind: NetKind::Wire,
        charge: 0,
        delays: Delays {
            count: 0,
            d: [0, 0, 0],
        },
        island,
        place: 0,
    }
}

fn shape(alloc: Global) -> Result<Shape, AllocError> {
    Ok(Shape {
        kinds: KindList::from_vec(vec![in alloc; Kind::Plain]?),
        charge: LevelList::from_vec(vec![in alloc; 0]?),
        links: LinkList::from_vec(Vec::new(alloc)),
    })
}

fn island(alloc: Global, net: u32) -> Result<Island, AllocError> {
    Ok(Island {
        nets: numbers(alloc, &[net])?,
        drives: ListOf::from_vec(Vec::new(alloc)),
        links: ListOf::from_vec(Vec::new(alloc)),
        shape: shape(alloc)?,
    })
}

fn islands(alloc: Global, count: u32) -> Result<ListOf<Island>, AllocError> {
    let mut islands = Vec::new(alloc);
    for net in 0..count {
        islands.push(island(alloc, net)?)?;
    }
    Ok(ListOf::from_vec(islands))
}

fn names(alloc: Global, texts: &[&str]) -> Result<NameList, AllocError> {
    let mut names = Vec::new(alloc);
    for text in texts {
        names.push(bytes(alloc, text)?)?;
    }
    Ok(NameList::from_vec(names))
}

fn own_find(alloc: Global, text: &str, number: u32) -> Result<Find, AllocError> {
    Ok(Find {
        name: bytes(alloc, text)?,
        nets: numbers(alloc, &[number])?,
    })
}

/// Each net by its own name.
fn own_finds(alloc: Global, texts: &[&str]) -> Result<Vec<Find>, AllocError> {
    let mut finds = Vec::new(alloc);
    let mut number = 0;
    for text in texts {
        finds.push(own_find(alloc, text, number)?)?;
        number = u32::wrapping_add(number, 1);
    }
    Ok(finds)
}

fn parts(
    alloc: Global,
    texts: &[&str],
    finds: Vec<Find>,
    inputs: &[u32],
    outputs: &[u32],
) -> Result<Parts, AllocError> {
    let count = (texts.len() % 1_000) as u32;
    Ok(Parts {
        nets: ListOf::from_vec((0..count).map(wire).collect(alloc)?),
        elements: ListOf::from_vec(Vec::new(alloc)),
        islands: islands(alloc, count)?,
        udps: ListOf::from_vec(Vec::new(alloc)),
        net_names: names(alloc, texts)?,
        element_names: NameList::from_vec(Vec::new(alloc)),
        finds: ListOf::from_vec(finds),
        inputs: numbers(alloc, inputs)?,
        outputs: numbers(alloc, outputs)?,
    })
}

fn flat(rt: &impl Abort, alloc: Global, parts: Parts) -> Result<Flat, Fail> {
    assert!(rt; sound(alloc, &parts)?);
    Ok(Flat::new(alloc, parts)?)
}

fn find_of(alloc: Global, row: &FindRow) -> Result<Find, AllocError> {
    Ok(Find {
        name: bytes(alloc, row.name)?,
        nets: numbers(alloc, row.nets)?,
    })
}

fn push_finds(alloc: Global, finds: &mut Vec<Find>, rows: &[FindRow]) -> Result<(), AllocError> {
    for row in rows {
        finds.push(find_of(alloc, row)?)?;
    }
    Ok(())
}

fn small_parts(alloc: Global) -> Result<Parts, AllocError> {
    let mut finds = own_finds(alloc, small_names())?;
    push_finds(alloc, &mut finds, small_finds())?;
    parts(alloc, small_names(), finds, small_inputs(), small_outputs())
}

/// Thirteen nets: outputs `q` and `qn`, inputs `s`, `r`, `v`, `\a+b ` and `\p `, the inout `b`, and
/// inner nets.
pub(crate) fn small_netlist(rt: &impl Abort, alloc: Global) -> Result<Flat, Fail> {
    flat(rt, alloc, small_parts(alloc)?)
}

fn wide_find(alloc: Global) -> Result<Find, AllocError> {
    Ok(Find {
        name: bytes(alloc, "big")?,
        nets: NetList::from_vec(vec![in alloc; 0; 524_288]?),
    })
}

fn wide_parts(alloc: Global) -> Result<Parts, AllocError> {
    let texts = ["s"];
    let mut finds = own_finds(alloc, texts.as_slice())?;
    finds.push(wide_find(alloc)?)?;
    parts(alloc, texts.as_slice(), finds, &[0], &[])
}

/// One net, with a name of 524,288 bits besides its own.
pub(crate) fn wide_netlist(rt: &impl Abort, alloc: Global) -> Result<Flat, Fail> {
    flat(rt, alloc, wide_parts(alloc)?)
}
