//! Lists of entries by cell. A cell without a list costs four bytes.
ghost use Rattle.std.specs.Prelude.{◌≡◌, ◌+◌, ◌<◌, ◌≤◌, [], length, OnOk, IfOk, IfErr, OnErr, slice_set, slice_index, slice_index_or, insert, remove, replicate};
ghost use Rattle.divergence_list.specs.Parts.{by_cell, owners, IsOwned};

use crate::entry::Entry;
use std::alloc::{AllocError, Global};
use std::marker::Model;
use std::mem;

/// The entries of one cell.
#[derive(Drop)]
struct CellList<V> {
    cell: u32,
    entries: Vec<Entry<V>>,
}

/// A list of entries for each cell. Contracts see the list of those.
#[derive(Drop)]
pub(crate) struct CellLists<V> {
    // For each cell the number of its list, counted from 1, or 0 where it has none.
    numbers: Vec<u32>,
    lists: Vec<CellList<V>>,
}

impl<V> Model for CellLists<V> {
    ghost use Rattle.std.specs.Prelude.{List};
    ghost use Rattle.divergence_list.specs.declared.entry.Entry.{Entry};
    ghost use Rattle.divergence_list.specs.Parts.{by_cell, owners, IsOwned};

    ghost Value = { List (List (Entry V)) };

    ghost view = { λ s. by_cell s.numbers.items s.lists.items };

    ghost invariant = { λ s. IsOwned s.numbers.items (owners s.lists.items) };
}

impl<V: Drop> CellLists<V> {
    ghost use Rattle.divergence_list.specs.Entries.{at_cell};

    /// Empty lists for so many cells.
    pub(crate) fn new(alloc: Global, cells: u32) -> Result<CellLists<V>, AllocError>
        ensures { IfOk result (λ lists. lists ≡ replicate cells []) }
    {
        let numbers = vec![in alloc; 0; cells as usize]?;
        Ok(CellLists {
            numbers,
            lists: Vec::new(alloc),
        })
    }

    /// The entries of a cell.
    pub(crate) fn at_cell(&self, cell: u32) -> &[Entry<V>]
        requires { cell < length self.now }
        ensures { result.now ≡ at_cell self.now cell }
    {
        let number = self.numbers[cell as usize];
        if number == 0 {
            return &[];
        }
        self.lists[number as usize - 1].entries.as_slice()
    }
    /// Puts an entry into a cell's list, before that at the index. Want of memory hands it back.
    pub(crate) fn insert(
        &mut self,
        cell: u32,
        index: usize,
        entry: Entry<V>,
    ) -> Result<(), Entry<V>>
        requires cell { cell < length self.old }
        requires index { index ≤ length (at_cell self.old cell) }
        ensures ok { OnOk result
            (self.new ≡ slice_set self.old cell (insert (at_cell self.old cell) index entry)) }
        ensures err { OnErr result (self.new ≡ self.old) }
        ensures entry_back { IfErr result (λ back. back ≡ entry) }
    {
        let Ok(number) = make_list(&mut self.numbers, &mut self.lists, cell) else {
            return Err(entry);
        };
        match self.lists[number].entries.insert(index, entry) {
            Ok(()) => Ok(()),
            Err(refused) => Err(refused.value),
        }
    }

    /// Puts an entry into the place of another, which it answers.
    pub(crate) fn replace(&mut self, cell: u32, index: usize, entry: Entry<V>) -> Entry<V>
        requires cell { cell < length self.old }
        requires index { index < length (at_cell self.old cell) }
        ensures entry { result ≡ slice_index_or (at_cell self.old cell) index result }
        ensures lists { self.new
            ≡ slice_set self.old cell (slice_set (at_cell self.old cell) index entry) }
    {
        let number = self.numbers[cell as usize] as usize - 1;
        mem::replace(&mut self.lists[number].entries[index], entry)
    }

    /// Takes an entry out of a cell's list.
    pub(crate) fn remove(&mut self, cell: u32, index: usize) -> Entry<V>
        requires cell { cell < length self.old }
        requires index { index < length (at_cell self.old cell) }
        ensures entry { result ≡ slice_index_or (at_cell self.old cell) index result }
        ensures lists { self.new ≡ slice_set self.old cell (remove (at_cell self.old cell) index) }
    {
        let number = self.numbers[cell as usize] as usize - 1;
        self.lists[number].entries.remove(index)
    }
}

/// The place of a cell's list, which is made where the cell has none.
fn make_list<V: Drop>(
    numbers: &mut Vec<u32>,
    lists: &mut Vec<CellList<V>>,
    cell: u32,
) -> Result<usize, AllocError>
    requires cell { cell < length numbers.old.items }
    requires owned { IsOwned numbers.old.items (owners lists.old.items) }
    ensures entries { by_cell numbers.new.items lists.new.items
        ≡ by_cell numbers.old.items lists.old.items }
    ensures owned { IsOwned numbers.new.items (owners lists.new.items) }
    ensures cells { length numbers.new.items ≡ length numbers.old.items }
    ensures place { IfOk result (λ place. slice_index numbers.new.items cell ≡ place + 1) }
{
    let number = numbers[cell as usize];
    if number > 0 {
        return Ok(number as usize - 1);
    }
    let place = lists.len();
    let Ok(number) = u32::try_from(place + 1) else {
        return Err(AllocError);
    };
    let entries = Vec::with_capacity(*lists.allocator(), 1)?;
    lists.push(CellList { cell, entries })?;
    numbers[cell as usize] = number;
    Ok(place)
}
