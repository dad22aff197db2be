//! A netlist of many nets, each alone and driven by a buffer from the one before it.
use super::{NO_DELAYS, bytes, numbers};
use byte_lists::{Bytes, NameList};
use flat_net::{Drive, Element, ElementKind, Find, Island, NetKind, NetPart, Parts};
use level_range::Kind;
use list_of::ListOf;
use logic_tables::FoldKind;
use net_settle::{KindList, LevelList, LinkList, Shape};
use std::alloc::{AllocError, Global};

fn wire(number: u32) -> NetPart {
    NetPart {
        kind: NetKind::Wire,
        charge: 0,
        delays: NO_DELAYS,
        island: number,
        place: 0,
    }
}

fn buffer(alloc: Global, number: u32) -> Result<Element, AllocError> {
    Ok(Element {
        kind: ElementKind::Fold(FoldKind::Buf),
        s0: 6,
        s1: 6,
        delays: NO_DELAYS,
        outs: numbers(alloc, &[number])?,
        ins: numbers(alloc, &[number.saturating_sub(1)])?,
        ends: None,
    })
}

fn shape(alloc: Global) -> Result<Shape, AllocError> {
    Ok(Shape {
        kinds: KindList::from_vec(vec![in alloc; Kind::Plain]?),
        charge: LevelList::from_vec(vec![in alloc; 0]?),
        links: LinkList::from_vec(Vec::new(alloc)),
    })
}

fn island(alloc: Global, number: u32) -> Result<Island, AllocError> {
    let drive = Drive {
        element: number,
        pin: 0,
        place: 0,
    };
    Ok(Island {
        nets: numbers(alloc, &[number])?,
        drives: ListOf::from_vec(vec![in alloc; drive]?),
        links: ListOf::from_vec(Vec::new(alloc)),
        shape: shape(alloc)?,
    })
}

fn name(alloc: Global, number: u32) -> Result<Bytes, AllocError> {
    let text = format!(in alloc; "n{number}")?;
    bytes(alloc, text.as_str())
}

fn find(alloc: Global, number: u32) -> Result<Find, AllocError> {
    Ok(Find {
        name: name(alloc, number)?,
        nets: numbers(alloc, &[number])?,
    })
}

fn names(alloc: Global, count: u32) -> Result<NameList, AllocError> {
    let mut names = Vec::new(alloc);
    for number in 0..count {
        names.push(name(alloc, number)?)?;
    }
    Ok(NameList::from_vec(names))
}

fn elements(alloc: Global, count: u32) -> Result<ListOf<Element>, AllocError> {
    let mut elements = Vec::new(alloc);
    for number in 0..count {
        elements.push(buffer(alloc, number)?)?;
    }
    Ok(ListOf::from_vec(elements))
}

fn islands(alloc: Global, count: u32) -> Result<ListOf<Island>, AllocError> {
    let mut islands = Vec::new(alloc);
    for number in 0..count {
        islands.push(island(alloc, number)?)?;
    }
    Ok(ListOf::from_vec(islands))
}

fn finds(alloc: Global, count: u32) -> Result<ListOf<Find>, AllocError> {
    let mut finds = Vec::new(alloc);
    for number in 0..count {
        finds.push(find(alloc, number)?)?;
    }
    Ok(ListOf::from_vec(finds))
}

/// So many nets, elements, islands and names; the first net is the input, the last the output.
pub(crate) fn many_buffers(alloc: Global, count: u32) -> Result<Parts, AllocError> {
    Ok(Parts {
        nets: ListOf::from_vec((0..count).map(wire).collect(alloc)?),
        elements: elements(alloc, count)?,
        islands: islands(alloc, count)?,
        udps: ListOf::from_vec(Vec::new(alloc)),
        net_names: names(alloc, count)?,
        element_names: names(alloc, count)?,
        finds: finds(alloc, count)?,
        inputs: numbers(alloc, &[0])?,
        outputs: numbers(alloc, &[count.saturating_sub(1)])?,
    })
}
