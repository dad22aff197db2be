//! The nets of a module, as a table.
ghost use Rattle.std.specs.Prelude.{◌≡◌, IfOk};
ghost use Rattle.netlist_plan.specs.Nets.{bit_count, literal_first, module_nets, name_first};

use crate::entries::NetEntries;
use crate::parts::entries_of;
use crate::widths::bit_count;
use module_parts::ModulePart;
use module_scope::Scope;
use netlist_plan::ModuleNet;
use std::alloc::{AllocError, Global};
use std::marker::Model;

/// The nets of a module in the order of the first tokens that name them, literals among them, each with
/// the number of its first bit. Contracts see the list of them.
#[derive(Drop)]
pub struct NetTable {
    entries: NetEntries,
}

impl Model for NetTable {
    ghost use Rattle.std.specs.Prelude.{List};
    ghost use Rattle.netlist_plan.specs.declared.nets.ModuleNet.{ModuleNet};
    ghost use Rattle.module_nets.specs.Entries.{AreNets};

    ghost Value = { List ModuleNet };

    ghost view = { λ t. t.entries.nets };

    ghost invariant = { λ t. AreNets t.entries };
}

impl NetTable {
    /// The nets of a module under its scope, by its parts. More bits than a `u64` counts are want of
    /// memory.
    pub fn new(alloc: Global, scope: &Scope, parts: &[ModulePart]) -> Result<NetTable, AllocError>
        ensures { IfOk result (λ nets. nets ≡ module_nets scope.now parts.now) }
    {
        let entries = entries_of(alloc, scope, parts)?;
        Ok(NetTable { entries })
    }

    /// The nets in their order.
    pub fn as_slice(&self) -> &[ModuleNet]
        ensures { result.now ≡ self.now }
    {
        self.entries.nets.as_slice()
    }

    /// The number of the first bit of the net of a name, and 0 where there is none.
    pub fn name_first(&self, name: &[u8]) -> u64
        ensures { result ≡ name_first self.now name.now }
    {
        self.entries.name_first(name)
    }

    /// The number of the first bit of the literal that is the thing without name of a number, counted
    /// from 0, and 0 where that is none.
    pub fn literal_first(&self, number: usize) -> u64
        ensures { result ≡ literal_first self.now number }
    {
        self.entries.literal_first(number)
    }

    /// How many bits the nets have together under a scope, which is to be that of their module.
    pub fn bit_count(&self, scope: &Scope) -> u128
        ensures { result ≡ bit_count scope.now self.now }
    {
        bit_count(scope, self.entries.nets.as_slice())
    }
}
