//! Slots linked into lists: each slot stands in at most one list, and goes in and out in one step.
ghost use Rattle.std.specs.Prelude.{◌≡◌, ◌+◌, ◌<◌, ◌^◌, [], length, replicate, slice_index, EachIndex, IfOk, IfSome, IfNone};
ghost use Rattle.timing_wheel.specs.Links.{all_loose, moved, NoneStandsIn};

use std::alloc::{AllocError, Global};
use std::marker::Model;

/// Lists of slots, linked both ways in a ring through a head. Contracts see in which list each slot
/// stands, and the number of lists for a slot that stands in none.
#[derive(Drop)]
pub(crate) struct Chains {
    next: Vec<u32>,
    previous: Vec<u32>,
    places: Vec<u32>,
    lists: u32,
}

impl Model for Chains {
    ghost use Rattle.timing_wheel.specs.Links.{Placement, IsLinked};

    ghost Value = { Placement };

    ghost view = { λ c. record { lists = c.lists; places = c.places.items } };

    ghost invariant = { λ c. IsLinked c.next.items c.previous.items c.places.items c.lists };
}

impl Chains {
    /// No lists and no slots. It takes no memory.
    pub(crate) fn new(alloc: Global) -> Chains
        ensures { result ≡ record { lists = 0; places = [] } }
    {
        Chains {
            next: Vec::new(alloc),
            previous: Vec::new(alloc),
            places: Vec::new(alloc),
            lists: 0,
        }
    }

    /// So many lists without slots, and so many slots in no list.
    pub(crate) fn with_lists(alloc: Global, lists: u32, slots: u32) -> Result<Chains, AllocError>
        requires { lists + slots < 2 ^ 32 }
        ensures { IfOk result (λ chains. chains ≡ all_loose lists slots) }
    {
        let next = numbers(alloc, lists + slots)?;
        let previous = numbers(alloc, lists + slots)?;
        let places = copies(alloc, lists, slots)?;
        Ok(Chains {
            next,
            previous,
            places,
            lists,
        })
    }

    /// How many lists there are.
    pub(crate) fn lists(&self) -> u32
        ensures { result ≡ self.now.lists }
    {
        self.lists
    }

    /// The list in which a slot stands, or the number of lists.
    pub(crate) fn place(&self, slot: u32) -> u32
        requires { slot < length self.now.places }
        ensures { result ≡ slice_index self.now.places slot }
    {
        self.places[slot as usize]
    }

    /// A slot of a list.
    pub(crate) fn first(&self, list: u32) -> Option<u32>
        requires { list < self.now.lists }
        ensures within { IfSome result (λ slot. slot < length self.now.places) }
        ensures here { IfSome result (λ slot. slice_index self.now.places slot ≡ list) }
        ensures none { IfNone result (NoneStandsIn self.now.places list) }
    {
        let node = self.next[list as usize];
        if node == list {
            None
        } else {
            Some(node - self.lists)
        }
    }

    /// Puts a slot that stands in no list into one.
    pub(crate) fn link(&mut self, slot: u32, list: u32)
        requires slot { slot < length self.old.places }
        requires list { list < self.old.lists }
        requires loose { slice_index self.old.places slot ≡ self.old.lists }
        ensures { self.new ≡ moved self.old slot list }
    {
        let node = self.lists + slot;
        let after = self.next[list as usize];
        self.next[list as usize] = node;
        self.next[node as usize] = after;
        self.previous[node as usize] = list;
        self.previous[after as usize] = node;
        self.places[slot as usize] = list;
    }

    /// Takes a slot out of its list.
    pub(crate) fn unlink(&mut self, slot: u32)
        requires slot { slot < length self.old.places }
        requires linked { slice_index self.old.places slot < self.old.lists }
        ensures { self.new ≡ moved self.old slot self.old.lists }
    {
        let node = self.lists + slot;
        let before = self.previous[node as usize];
        let after = self.next[node as usize];
        self.next[before as usize] = after;
        self.previous[after as usize] = before;
        self.next[node as usize] = node;
        self.previous[node as usize] = node;
        self.places[slot as usize] = self.lists;
    }
}

/// The numbers below a count.
fn numbers(alloc: Global, count: u32) -> Result<Vec<u32>, AllocError>
    ensures len { IfOk result (λ v. length v.items ≡ count) }
    ensures each { IfOk result (λ v. EachIndex v.items (λ k. slice_index v.items k ≡ k)) }
{
    (0..count).collect(alloc)
}

/// So many copies of a number.
fn copies(alloc: Global, number: u32, count: u32) -> Result<Vec<u32>, AllocError>
    ensures { IfOk result (λ v. v.items ≡ replicate count number) }
{
    vec![in alloc; number; count as usize]
}
