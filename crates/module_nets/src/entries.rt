//! Nets that are put together one after the other.
ghost use Rattle.std.specs.Prelude.{◌≡◌, ◌+◌, ◌∷◌, [], length, slice_get, IfOk, OnOk};
ghost use Rattle.std.specs.Option.{option_flatten, unwrap_or};
ghost use Rattle.name_table.specs.Names.{index_of};
ghost use Rattle.module_scope.specs.declared.scopes.Scope.{Scope as ScopeValue};
ghost use Rattle.netlist_plan.specs.Nets.{literal_first, name_first};
ghost use Rattle.module_nets.specs.Entries.{AreNets, HasGained, IsEmpty};

use byte_lists::Bytes;
use item_parts::name_width;
use module_scope::Scope;
use name_table::NameTable;
use netlist_plan::{ModuleNet, ModuleNetList, NetSource};
use sqlite_items::Items;
use std::alloc::{AllocError, Global};
use v_lexer::BitList;

/// Nets, the names of those that have one, the first bit of the net of each name, and for each thing
/// without name the first bit of its net where it is a literal. `bits` is how many bits the nets have.
#[derive(Drop)]
pub struct NetEntries {
    pub nets: ModuleNetList,
    pub names: NameTable,
    pub name_firsts: Items<u64>,
    pub literal_firsts: Items<Option<u64>>,
    pub bits: u64,
}

/// A sum of bits. More bits than a `u64` counts are want of memory.
fn bit_sum(bits: u64, more: u64) -> Result<u64, AllocError>
    ensures { IfOk result (λ sum. sum ≡ bits + more) }
{
    if more > u64::MAX - bits {
        return Err(AllocError);
    }
    Ok(bits + more)
}

/// The first bit at an index, and 0 where there is none.
fn first_at(firsts: &[u64], index: usize) -> u64
    ensures { result ≡ unwrap_or (slice_get firsts.now index) 0 }
{
    firsts.get(index).copied().unwrap_or(0)
}

/// The first bit of a literal at an index, and 0 where there is none.
fn literal_first_at(firsts: &[Option<u64>], index: usize) -> u64
    ensures { result ≡ unwrap_or (option_flatten (slice_get firsts.now index)) 0 }
{
    firsts.get(index).copied().flatten().unwrap_or(0)
}

impl NetEntries {
    /// No nets. It allocates nothing.
    pub fn new(alloc: Global) -> NetEntries
        ensures nets { AreNets result }
        ensures empty { IsEmpty result }
    {
        NetEntries {
            nets: Items::new(alloc),
            names: NameTable::new(alloc),
            name_firsts: Items::new(alloc),
            literal_firsts: Items::new(alloc),
            bits: 0,
        }
    }

    /// Counts a thing without name that isn't a literal.
    pub fn count_unnamed(&mut self) -> Result<(), AllocError>
        requires { AreNets self.old }
        ensures { OnOk result ((scope : ScopeValue) → HasGained scope self.old self.new [] 1) }
    {
        self.literal_firsts.push(None)
    }

    /// Adds the net of a new name.
    fn push_new(&mut self, alloc: Global, scope: &Scope, name: &[u8]) -> Result<(), AllocError>
        requires nets { AreNets self.old }
        requires new { index_of name.now self.old.names ≡ None }
        ensures { OnOk result
            (HasGained scope.now self.old self.new (NetSource.Named name.now ∷ []) 0) }
    {
        let first = self.bits;
        let bits = bit_sum(first, name_width(scope, name, None))?;
        let owned = Bytes::from_vec(Vec::from_slice(alloc, name)?);
        self.names.add(name)?;
        self.name_firsts.push(first)?;
        self.nets.push(ModuleNet {
            source: NetSource::Named(owned),
            first,
        })?;
        self.bits = bits;
        Ok(())
    }

    /// Adds the net of a name, unless it is there already.
    pub fn push_name(&mut self, alloc: Global, scope: &Scope, name: &[u8]) -> Result<(), AllocError>
        requires { AreNets self.old }
        ensures { OnOk result
            (HasGained scope.now self.old self.new (NetSource.Named name.now ∷ []) 0) }
    {
        match self.names.find(name) {
            Some(_) => Ok(()),
            None => self.push_new(alloc, scope, name),
        }
    }

    /// Adds the net of a literal, which is the next thing without name.
    pub fn push_literal(&mut self, alloc: Global, bits: &BitList) -> Result<(), AllocError>
        requires { AreNets self.old }
        ensures { OnOk result ((scope : ScopeValue) → HasGained scope self.old self.new
            (NetSource.Literal (length self.old.literal_firsts) bits.now ∷ []) 1) }
    {
        let first = self.bits;
        let sum = bit_sum(first, bits.as_slice().len() as u64)?;
        let number = self.literal_firsts.len();
        let owned = bits.copied(alloc)?;
        self.literal_firsts.push(Some(first))?;
        self.nets.push(ModuleNet {
            source: NetSource::Literal(number, owned),
            first,
        })?;
        self.bits = sum;
        Ok(())
    }

    /// The first bit of the net of a name, and 0 where there is none.
    pub fn name_first(&self, name: &[u8]) -> u64
        requires { AreNets self.now }
        ensures { result ≡ name_first self.now.nets name.now }
    {
        match self.names.find(name) {
            Some(index) => first_at(self.name_firsts.as_slice(), index),
            None => 0,
        }
    }

    /// The first bit of the literal that is the thing without name of a number, and 0 where there is none.
    pub fn literal_first(&self, number: usize) -> u64
        requires { AreNets self.now }
        ensures { result ≡ literal_first self.now.nets number }
    {
        literal_first_at(self.literal_firsts.as_slice(), number)
    }
}
