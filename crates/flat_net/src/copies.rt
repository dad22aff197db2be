ghost use Rattle.std.specs.Prelude.{◌≡◌, IfOk};

use crate::parts::{Element, Find, Island, Parts};
use byte_lists::{Bytes, NameList, NetList};
use list_of::ListOf;
use net_settle::{KindList, LevelList, LinkList, Shape};
use std::alloc::{AllocError, Global};
use udp_table::Udp;

/// What can be copied.
trait Copied: Drop + Sized {
    /// An equal value.
    fn copied(&self, alloc: Global) -> Result<Self, AllocError>
        ensures { IfOk result (λ copy. copy ≡ self.now) };
}

/// A list of equal elements.
fn copy_list<T: Copied>(alloc: Global, list: &[T]) -> Result<ListOf<T>, AllocError>
    ensures { IfOk result (λ copies. copies ≡ list.now) }
{
    let mut copies = Vec::new(alloc);
    for element in list {
        copies.push(element.copied(alloc)?)?;
    }
    Ok(ListOf::from_vec(copies))
}

impl Copied for Bytes {
    fn copied(&self, alloc: Global) -> Result<Bytes, AllocError> {
        Ok(Bytes::from_vec(Vec::from_slice(alloc, self.as_slice())?))
    }
}

impl Copied for NetList {
    fn copied(&self, alloc: Global) -> Result<NetList, AllocError> {
        Ok(NetList::from_vec(Vec::from_slice(alloc, self.as_slice())?))
    }
}

/// Equal names.
fn copy_names(alloc: Global, names: &NameList) -> Result<NameList, AllocError>
    ensures { IfOk result (λ copy. copy ≡ names.now) }
{
    let names = copy_list(alloc, names.as_slice())?;
    Ok(NameList::from_vec(names.into_vec()))
}

impl Copied for Element {
    fn copied(&self, alloc: Global) -> Result<Element, AllocError> {
        Ok(Element {
            kind: self.kind,
            s0: self.s0,
            s1: self.s1,
            delays: self.delays,
            outs: self.outs.copied(alloc)?,
            ins: self.ins.copied(alloc)?,
            ends: self.ends,
        })
    }
}

impl Copied for Find {
    fn copied(&self, alloc: Global) -> Result<Find, AllocError> {
        Ok(Find {
            name: self.name.copied(alloc)?,
            nets: self.nets.copied(alloc)?,
        })
    }
}

/// An equal shape.
fn copy_shape(alloc: Global, shape: &Shape) -> Result<Shape, AllocError>
    ensures { IfOk result (λ copy. copy ≡ shape.now) }
{
    Ok(Shape {
        kinds: KindList::from_vec(Vec::from_slice(alloc, shape.kinds.as_slice())?),
        charge: LevelList::from_vec(Vec::from_slice(alloc, shape.charge.as_slice())?),
        links: LinkList::from_vec(Vec::from_slice(alloc, shape.links.as_slice())?),
    })
}

impl Copied for Island {
    fn copied(&self, alloc: Global) -> Result<Island, AllocError> {
        Ok(Island {
            nets: self.nets.copied(alloc)?,
            drives: self.drives.copied(alloc)?,
            links: self.links.copied(alloc)?,
            shape: copy_shape(alloc, &self.shape)?,
        })
    }
}

impl Copied for Udp {
    fn copied(&self, alloc: Global) -> Result<Udp, AllocError> {
        Udp::copied(self, alloc)
    }
}

/// Equal parts.
pub(crate) fn copy_parts(alloc: Global, parts: &Parts) -> Result<Parts, AllocError>
    ensures { IfOk result (λ copy. copy ≡ parts.now) }
{
    Ok(Parts {
        nets: parts.nets.copied(alloc)?,
        elements: copy_list(alloc, parts.elements.as_slice())?,
        islands: copy_list(alloc, parts.islands.as_slice())?,
        udps: copy_list(alloc, parts.udps.as_slice())?,
        net_names: copy_names(alloc, &parts.net_names)?,
        element_names: copy_names(alloc, &parts.element_names)?,
        finds: copy_list(alloc, parts.finds.as_slice())?,
        inputs: parts.inputs.copied(alloc)?,
        outputs: parts.outputs.copied(alloc)?,
    })
}
