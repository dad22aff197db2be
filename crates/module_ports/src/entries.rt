//! Entries of a header, with their names found by hash.
ghost use Rattle.std.specs.Prelude.{◌≡◌, [], ◌∷◌, ◌++◌, OnOk};
ghost use Rattle.module_ports.specs.Entries.{AreEntries, ports_in};
ghost use Rattle.module_ports.specs.Ports.{index_in, net_at, port_of};

use module_scope::{Scope, ScopeNet};
use name_table::NameTable;
use sqlite_items::Items;
use std::alloc::{AllocError, Global};
use v_tree::Name;

/// An entry: the index of its name, and its net.
#[derive(Clone, Copy, Debug)]
pub struct PortEntry {
    pub name: usize,
    pub net: Option<ScopeNet>,
}

/// The names of entries, each once, the index of the first entry of each, and the entries.
#[derive(Drop)]
pub struct PortEntries {
    pub names: NameTable,
    pub firsts: Items<usize>,
    pub entries: Items<PortEntry>,
}

impl PortEntries {
    /// No entries. It allocates nothing.
    pub fn new(alloc: Global) -> PortEntries
        ensures entries { AreEntries result }
        ensures empty { ports_in result ≡ [] }
    {
        PortEntries {
            names: NameTable::new(alloc),
            firsts: Items::new(alloc),
            entries: Items::new(alloc),
        }
    }

    /// Adds an entry of a name, with its net in the scope.
    pub fn push(&mut self, scope: &Scope, name: &Name) -> Result<(), AllocError>
        requires { AreEntries self.old }
        ensures entries { OnOk result (AreEntries self.new) }
        ensures ports { OnOk result (ports_in self.new
            ≡ ports_in self.old ++ port_of scope.now name.now.text ∷ []) }
    {
        let text = name.text.as_slice();
        let net = scope.net_of(text);
        match self.names.find(text) {
            Some(index) => self.entries.push(PortEntry { name: index, net }),
            None => {
                let index = self.names.len();
                self.names.add(text)?;
                self.firsts.push(self.entries.len())?;
                self.entries.push(PortEntry { name: index, net })
            }
        }
    }

    /// The net of the entry at an index.
    pub fn net_at(&self, index: usize) -> Option<ScopeNet>
        ensures { result ≡ net_at (ports_in self.now) index }
    {
        match self.entries.get(index) {
            Some(entry) => entry.net,
            None => None,
        }
    }

    /// The index of the first entry of a name.
    pub fn index_of(&self, name: &[u8]) -> Option<usize>
        requires { AreEntries self.now }
        ensures { result ≡ index_in name.now (ports_in self.now) }
    {
        match self.names.find(name) {
            Some(index) => self.firsts.get(index).copied(),
            None => None,
        }
    }
}
