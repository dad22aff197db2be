//! The map from cells and faults to values.
ghost use Rattle.std.specs.Prelude.{◌≡◌, ℕ, ◌<◌, ◌^◌, length, None, Some, OnOk, IfOk, IfErr, OnErr, IfSome, slice_get};
ghost use Rattle.std.specs.Option.{option_copied};
ghost use Rattle.divergence_list.specs.Order.{rank};
ghost use Rattle.divergence_list.specs.Entries.{IsRising, at_cell, entry_at, count, ChangesOnly, DropsFault};

use crate::cell_lists::CellLists;
use crate::changes::{drop_entries, take_entry};
use crate::entry::Entry;
use crate::fault_cells::FaultCells;
use crate::order::search;
use std::alloc::{AllocError, Global};
use std::marker::Model;

/// A finite map from cells and faults to values. Contracts see the list of the cells, each the list
/// of its entries.
///
/// Cells are numbered from 0. A fault may have any number. A cell without entries costs four bytes.
#[derive(Drop)]
pub struct Spread<V> {
    lists: CellLists<V>,
    fault_cells: FaultCells,
    entries: u64,
}

impl<V> Model for Spread<V> {
    ghost use Rattle.std.specs.Prelude.{List};
    ghost use Rattle.divergence_list.specs.declared.entry.Entry.{Entry};
    ghost use Rattle.divergence_list.specs.Invariant.{IsSpread};

    ghost Value = { List (List (Entry V)) };

    ghost view = { λ s. s.lists };

    ghost invariant = { λ s. IsSpread s.lists s.fault_cells s.entries };
}

impl<V: Drop> Spread<V> {
    /// A map of so many cells without entries.
    pub fn new(alloc: Global, cells: u32) -> Result<Spread<V>, AllocError>
        ensures cells { IfOk result (λ spread. length spread ≡ cells) }
        ensures empty { IfOk result (λ spread. (c f : ℕ) → entry_at spread c f ≡ None) }
    {
        let lists = CellLists::new(alloc, cells)?;
        Ok(Spread {
            lists,
            fault_cells: FaultCells::new(alloc),
            entries: 0,
        })
    }

    /// How many entries there are.
    pub fn count(&self) -> u64
        ensures { result ≡ count self.now }
    {
        self.entries
    }

    /// The entries of a cell, with faults rising.
    pub fn at_cell(&self, cell: u32) -> &[Entry<V>]
        requires { cell < length self.now }
        ensures entries { result.now ≡ at_cell self.now cell }
        ensures rising { IsRising result.now }
        ensures each { (k : ℕ) → IfSome (slice_get result.now k)
            (λ entry. entry_at self.now cell entry.fault ≡ Some entry.value) }
    {
        self.lists.at_cell(cell)
    }

    /// The value of a fault at a cell.
    pub fn get(&self, cell: u32, fault: u32) -> Option<&V>
        requires { cell < length self.now }
        ensures { option_copied result ≡ entry_at self.now cell fault }
    {
        let entries = self.lists.at_cell(cell);
        match search(entries, fault) {
            Ok(place) => Some(&entries[place].value),
            Err(_) => None,
        }
    }

    /// Gives a fault a value at a cell, and answers the one that it had there. Want of memory hands
    /// the value back, and never comes where the fault has a value at the cell.
    pub fn set(&mut self, cell: u32, fault: u32, value: V) -> Result<Option<V>, V>
        requires { cell < length self.old }
        ensures old { IfOk result (λ old. old ≡ entry_at self.old cell fault) }
        ensures changed { OnOk result (ChangesOnly self.old self.new cell fault (Some value)) }
        ensures cells { length self.new ≡ length self.old }
        ensures absent { OnErr result (entry_at self.old cell fault ≡ None) }
        ensures err { OnErr result (self.new ≡ self.old) }
        ensures value_back { IfErr result (λ back. back ≡ value) }
    {
        match search(self.lists.at_cell(cell), fault) {
            Ok(place) => {
                let entry = Entry { fault, value };
                Ok(Some(self.lists.replace(cell, place, entry).value))
            }
            Err(place) => {
                self.insert(cell, place, fault, value)?;
                Ok(None)
            }
        }
    }

    /// Takes the entry of a fault at a cell away, and answers its value.
    pub fn clear(&mut self, cell: u32, fault: u32) -> Option<V>
        requires { cell < length self.old }
        ensures old { result ≡ entry_at self.old cell fault }
        ensures changed { ChangesOnly self.old self.new cell fault None }
    {
        let value = take_entry(&mut self.lists, cell, fault)?;
        self.fault_cells.remove(fault, cell);
        self.entries -= 1;
        Some(value)
    }

    /// Takes all entries of a fault away. It looks at the cells of these entries alone.
    pub fn drop_fault(&mut self, fault: u32)
        ensures { DropsFault self.old self.new fault }
    {
        if let Some(cells) = self.fault_cells.take(fault) {
            self.entries -= drop_entries(&mut self.lists, cells, fault);
        }
    }

    /// Puts an entry of a fault that has none at the cell into its place.
    fn insert(&mut self, cell: u32, place: usize, fault: u32, value: V) -> Result<(), V>
        requires cell { cell < length self.old }
        requires place { place ≡ rank (at_cell self.old cell) fault }
        requires absent { entry_at self.old cell fault ≡ None }
        ensures changed { OnOk result (ChangesOnly self.old self.new cell fault (Some value)) }
        ensures err { OnErr result (self.new ≡ self.old) }
        ensures value_back { IfErr result (λ back. back ≡ value) }
    {
        let Ok(()) = self.fault_cells.add(fault, cell) else {
            return Err(value);
        };
        match self.lists.insert(cell, place, Entry { fault, value }) {
            Ok(()) => {
                self.entries += 1;
                Ok(())
            }
            Err(refused) => {
                self.fault_cells.remove(fault, cell);
                Err(refused.value)
            }
        }
    }
}
