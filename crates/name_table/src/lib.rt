//! Distinct names, found by hash.
#![tactic(auto)]

ghost use Rattle.std.specs.Prelude.{◌≡◌, ◌↔◌, [], ◌∷◌, ◌++◌, length, not, if◌then◌else◌, IsTrue, IfOk, OnErr};
ghost use Rattle.name_table.specs.Names.{is_among, is_distinct, index_of};

use byte_lists::{Bytes, NameList};
use indexmap::IndexSet;
use std::alloc::{AllocError, Global};
use std::marker::Model;

/// Distinct names in the order in which they came. Contracts see the list of them.
#[derive(Drop)]
pub struct NameTable {
    names: IndexSet<Vec<u8>>,
}

impl Model for NameTable {
    ghost use Rattle.std.specs.Prelude.{List, ℕ, map, IsTrue};
    ghost use Rattle.name_table.specs.Names.{is_distinct};

    ghost Value = { List (List ℕ) };

    ghost view = { λ t. map (λ name. name.items) t.names.keys };

    ghost invariant = { λ t. IsTrue (is_distinct (map (λ name. name.items) t.names.keys)) };
}

impl NameTable {
    /// A table of no names. It allocates nothing.
    pub fn new(alloc: Global) -> NameTable
        ensures { result ≡ [] }
    {
        NameTable {
            names: IndexSet::new(alloc),
        }
    }

    /// How many names there are.
    pub fn len(&self) -> usize
        ensures len { result ≡ length self.now }
        ensures distinct { IsTrue (is_distinct self.now) }
    {
        self.names.len()
    }

    /// Whether there are no names.
    pub fn is_empty(&self) -> bool
        ensures { IsTrue result ↔ (self.now ≡ []) }
    {
        self.names.is_empty()
    }

    /// The index of a name, counted from 0.
    pub fn find(&self, name: &[u8]) -> Option<usize>
        ensures { result ≡ index_of name.now self.now }
    {
        self.names.get_index_of(name)
    }

    /// Whether a name is there.
    pub fn contains(&self, name: &[u8]) -> bool
        ensures { result ≡ is_among name.now self.now }
    {
        self.names.contains(name)
    }

    /// Puts a name at the end, unless it is there already. Says whether it is new.
    pub fn add(&mut self, name: &[u8]) -> Result<bool, AllocError>
        ensures new { IfOk result (λ added. added ≡ not (is_among name.now self.old)) }
        ensures names { IfOk result (λ added. self.new ≡ (if added then self.old ++ name.now ∷ [] else self.old)) }
        ensures err { OnErr result (self.new ≡ self.old) }
    {
        if self.names.contains(name) {
            return Ok(false);
        }
        let alloc = *self.names.allocator();
        let owned = Vec::from_slice(alloc, name)?;
        self.names.insert(owned)?;
        Ok(true)
    }

    /// The names, in the order in which they came.
    pub fn into_names(self, alloc: Global) -> Result<NameList, AllocError>
        ensures { IfOk result (λ names. names ≡ self) }
    {
        let names = self.names.into_iter().map(Bytes::from_vec).collect(alloc)?;
        Ok(NameList::from_vec(names))
    }
}

#[cfg(test)]
mod tests;
