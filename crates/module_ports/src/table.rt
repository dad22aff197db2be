//! The ports of a module, as a table.
ghost use Rattle.std.specs.Prelude.{◌≡◌, length, IfOk};
ghost use Rattle.module_ports.specs.Ports.{index_in, net_at, ports_of};

use crate::entries::PortEntries;
use crate::header::entries_of;
use module_scope::{Scope, ScopeNet};
use std::alloc::{AllocError, Global};
use std::marker::Model;
use v_tree::Module;

/// The ports of a module, one for each entry of its header, in their order. Contracts see the list of
/// them, each with its name and its net.
#[derive(Drop)]
pub struct PortTable {
    entries: PortEntries,
}

impl Model for PortTable {
    ghost use Rattle.std.specs.Prelude.{List};
    ghost use Rattle.module_ports.specs.Ports.{Port};
    ghost use Rattle.module_ports.specs.Entries.{AreEntries, ports_in};

    ghost Value = { List Port };

    ghost view = { λ t. ports_in t.entries };

    ghost invariant = { λ t. AreEntries t.entries };
}

impl PortTable {
    /// The ports of a module with their nets in its scope. A name that stands twice in the header gives
    /// two ports.
    pub fn new(alloc: Global, module: &Module, scope: &Scope) -> Result<PortTable, AllocError>
        ensures { IfOk result (λ table. table ≡ ports_of scope.now «module».now) }
    {
        let entries = entries_of(alloc, module, scope)?;
        Ok(PortTable { entries })
    }

    /// How many ports there are.
    pub fn len(&self) -> usize
        ensures { result ≡ length self.now }
    {
        self.entries.entries.len()
    }

    /// The net of the port at an index, counted from 0. None comes where there is no such port, and
    /// where its name has no net.
    pub fn net_at(&self, index: usize) -> Option<ScopeNet>
        ensures { result ≡ net_at self.now index }
    {
        self.entries.net_at(index)
    }

    /// The index of the first port of a name.
    pub fn index_of(&self, name: &[u8]) -> Option<usize>
        ensures { result ≡ index_in name.now self.now }
    {
        self.entries.index_of(name)
    }
}
