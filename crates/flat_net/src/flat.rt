ghost use Rattle.std.specs.Prelude.{◌≡◌, ◌<◌, IfOk, length, map, replicate, slice_get};
ghost use Rattle.name_table.specs.Names.{index_of};
ghost use Rattle.flat_net.specs.Lists.{AreDistinct};
ghost use Rattle.flat_net.specs.Names.{nets_at, nets_found};
ghost use Rattle.flat_net.specs.Soundness.{IsAscii};

use crate::copies::copy_parts;
use crate::kinds::{Cell, Patch};
use crate::names::{Named, table_of};
use crate::parts::{Element, Find, Island, NetPart, Parts};
use byte_lists::{Bytes, NetList};
use name_table::NameTable;
use std::alloc::{AllocError, Global};
use std::marker::Model;
use udp_table::Udp;

/// A sound flat netlist with a patch for each cell. Contracts see its parts and its patches.
#[derive(Drop)]
pub struct Flat {
    parts: Parts,
    element_patches: Vec<Patch>,
    island_patches: Vec<Patch>,
    find_table: NameTable,
    element_table: NameTable,
}

impl Model for Flat {
    ghost use Rattle.flat_net.specs.Patches.{Netlist};

    ghost Value = { Netlist };

    ghost use Rattle.flat_net.specs.Inside.{netlist_of, IsFlatInside};

    ghost view = { netlist_of };

    ghost invariant = { IsFlatInside };
}

impl Flat {
    ghost use Rattle.flat_net.specs.Patches.{Fits, IsCell, IsNetlist, patch_of, whole, with_patch};
    ghost use Rattle.flat_net.specs.Soundness.{IsSound};
    ghost use Rattle.flat_net.specs.declared.kinds.Cell.{Cell};

    /// The netlist of sound parts, with no cell patched.
    pub fn new(alloc: Global, parts: Parts) -> Result<Flat, AllocError>
        requires { IsSound parts }
        ensures { IfOk result (λ flat. flat ≡ whole parts) }
    {
        let element_patches = whole_patches(alloc, parts.elements.as_slice().len())?;
        let island_patches = whole_patches(alloc, parts.islands.as_slice().len())?;
        let find_table = distinct_table(alloc, parts.finds.as_slice())?;
        let element_table = distinct_table(alloc, parts.element_names.as_slice())?;
        Ok(Flat {
            parts,
            element_patches,
            island_patches,
            find_table,
            element_table,
        })
    }

    /// A copy of the netlist's parts.
    pub fn parts(&self, alloc: Global) -> Result<Parts, AllocError>
        ensures { IfOk result (λ parts. parts ≡ self.now.parts) }
    {
        copy_parts(alloc, &self.parts)
    }

    /// How many nets there are.
    pub fn net_count(&self) -> u32
        ensures count { result ≡ length self.now.parts.nets }
        ensures sound { IsNetlist self.now }
    {
        self.parts.nets.as_slice().len() as u32
    }

    /// How many elements there are.
    pub fn element_count(&self) -> u32
        ensures count { result ≡ length self.now.parts.elements }
        ensures sound { IsNetlist self.now }
    {
        self.parts.elements.as_slice().len() as u32
    }

    /// How many islands there are.
    pub fn island_count(&self) -> u32
        ensures count { result ≡ length self.now.parts.islands }
        ensures sound { IsNetlist self.now }
    {
        self.parts.islands.as_slice().len() as u32
    }

    /// A net by its number.
    pub fn net(&self, n: u32) -> &NetPart
        requires { n < length self.now.parts.nets }
        ensures { slice_get self.now.parts.nets n ≡ Some result.now }
    {
        &self.parts.nets.as_slice()[n as usize]
    }

    /// An element by its number.
    pub fn element(&self, e: u32) -> &Element
        requires { e < length self.now.parts.elements }
        ensures { slice_get self.now.parts.elements e ≡ Some result.now }
    {
        &self.parts.elements.as_slice()[e as usize]
    }

    /// An island by its number.
    pub fn island(&self, i: u32) -> &Island
        requires { i < length self.now.parts.islands }
        ensures { slice_get self.now.parts.islands i ≡ Some result.now }
    {
        &self.parts.islands.as_slice()[i as usize]
    }

    /// A user-defined primitive by its number.
    pub fn udp(&self, k: u32) -> &Udp
        requires { k < length self.now.parts.udps }
        ensures { slice_get self.now.parts.udps k ≡ Some result.now }
    {
        &self.parts.udps.as_slice()[k as usize]
    }

    /// The patch of a cell.
    pub fn patch(&self, cell: Cell) -> Patch
        requires { IsCell self.now.parts cell }
        ensures patch { result ≡ patch_of self.now cell }
        ensures fits { Fits self.now.parts cell result }
    {
        match cell {
            Cell::Element(number) => self.element_patches[number as usize],
            Cell::Island(number) => self.island_patches[number as usize],
        }
    }

    /// The bits of the input and inout ports of the top, in port order.
    pub fn inputs(&self) -> &NetList
        ensures { result.now ≡ self.now.parts.inputs }
    {
        &self.parts.inputs
    }

    /// The bits of the output and inout ports of the top, in port order.
    pub fn outputs(&self) -> &NetList
        ensures { result.now ≡ self.now.parts.outputs }
    {
        &self.parts.outputs
    }

    /// The flat name of a net.
    pub fn net_name(&self, n: u32) -> &str
        requires { n < length self.now.parts.nets }
        ensures { slice_get self.now.parts.net_names n ≡ Some result.now }
    {
        text_of(&self.parts.net_names.as_slice()[n as usize])
    }

    /// The flat name of an element.
    pub fn element_name(&self, e: u32) -> &str
        requires { e < length self.now.parts.elements }
        ensures { slice_get self.now.parts.element_names e ≡ Some result.now }
    {
        text_of(&self.parts.element_names.as_slice()[e as usize])
    }

    /// The net of a name's bit, counted from 0 at the left. None where no name is this one, or it
    /// has no such bit.
    pub fn bit_of(&self, name: &str, at: u32) -> Option<u32>
        ensures { result ≡ slice_get (nets_found self.now.parts.finds name.now) at }
    {
        let place = self.find_table.find(name.as_bytes());
        bit_at(self.parts.finds.as_slice(), place, at)
    }

    /// The element of a name. None where no element has it.
    pub fn element_of(&self, name: &str) -> Option<u32>
        ensures { result ≡ index_of name.now self.now.parts.element_names }
    {
        let place = self.element_table.find(name.as_bytes())?;
        Some(place as u32)
    }

    /// Gives a cell another patch.
    pub fn set_patch(&mut self, cell: Cell, patch: Patch)
        requires { Fits self.old.parts cell patch }
        ensures patches { self.new ≡ with_patch self.old cell patch }
        ensures cell { patch_of self.new cell ≡ patch }
        ensures others { (other : Cell) → (other ≡ cell → ⊥)
            → patch_of self.new other ≡ patch_of self.old other }
        ensures parts { self.new.parts ≡ self.old.parts }
    {
        match cell {
            Cell::Element(number) => self.element_patches[number as usize] = patch,
            Cell::Island(number) => self.island_patches[number as usize] = patch,
        }
    }
}

/// The net of a bit of what is found at a place.
fn bit_at(finds: &[Find], place: Option<usize>, at: u32) -> Option<u32>
    ensures { result ≡ slice_get (nets_at finds.now place) at }
{
    match place {
        Some(place) => match finds.get(place) {
            Some(found) => found.nets.as_slice().get(at as usize).copied(),
            None => None,
        },
        None => None,
    }
}

/// So many whole patches.
fn whole_patches(alloc: Global, count: usize) -> Result<Vec<Patch>, AllocError>
    ensures { IfOk result (λ patches. patches.items ≡ replicate count Patch.Whole) }
{
    vec![in alloc; Patch::Whole; count]
}

/// A table of distinct names.
fn distinct_table<N: Named>(alloc: Global, named: &[N]) -> Result<NameTable, AllocError>
    requires { AreDistinct (map N.name named.now) }
    ensures { IfOk result (λ table. table ≡ map N.name named.now) }
{
    match table_of(alloc, named)? {
        Some(table) => Ok(table),
        None => unreachable!(),
    }
}

/// The text of an ASCII name.
fn text_of(name: &Bytes) -> &str
    requires { IsAscii name.now }
    ensures { result.now ≡ name.now }
{
    match str::from_utf8(name.as_slice()) {
        Ok(text) => text,
        Err(_) => unreachable!(),
    }
}
