//! The cells at which each fault has an entry.
ghost use Rattle.std.specs.Prelude.{◌≡◌, ℕ, ◌==◌, ◌&&◌, Bool, true, false, OnOk, OnErr, if◌then◌else◌};
ghost use Rattle.divergence_list.specs.Invariant.{has_cell, is_in};

use std::alloc::{AllocError, Global};
use std::collections::{HashMap, HashSet};

/// For each fault with entries the set of their cells.
#[derive(Drop)]
pub(crate) struct FaultCells {
    by_fault: HashMap<u32, HashSet<u32>>,
    alloc: Global,
}

impl FaultCells {
    /// No cells of any fault. It allocates nothing.
    pub(crate) fn new(alloc: Global) -> FaultCells
        ensures { (f c : ℕ) → has_cell result f c ≡ false }
    {
        FaultCells {
            by_fault: HashMap::new(alloc),
            alloc,
        }
    }

    /// Puts a cell into the set of a fault.
    pub(crate) fn add(&mut self, fault: u32, cell: u32) -> Result<(), AllocError>
        ensures ok { OnOk result ((f c : ℕ) → has_cell self.new f c
            ≡ (if (cell == c) && (fault == f) then true else has_cell self.old f c)) }
        ensures err { OnErr result ((f c : ℕ) → has_cell self.new f c ≡ has_cell self.old f c) }
    {
        if let Some(cells) = self.by_fault.get_mut(&fault) {
            cells.insert(cell)?;
            return Ok(());
        }
        let mut cells = HashSet::new(self.alloc);
        cells.insert(cell)?;
        self.by_fault.insert(fault, cells)?;
        Ok(())
    }

    /// Takes a cell out of the set of a fault.
    pub(crate) fn remove(&mut self, fault: u32, cell: u32)
        ensures { (f c : ℕ) → has_cell self.new f c
            ≡ (if (cell == c) && (fault == f) then false else has_cell self.old f c) }
    {
        if let Some(cells) = self.by_fault.get_mut(&fault) {
            cells.remove(&cell);
            if cells.is_empty() {
                self.by_fault.remove(&fault);
            }
        }
    }

    /// Takes the cells of a fault out.
    pub(crate) fn take(&mut self, fault: u32) -> Option<HashSet<u32>>
        ensures cells { (c : ℕ) → is_in result c ≡ has_cell self.old fault c }
        ensures others { (f c : ℕ) → has_cell self.new f c
            ≡ (if fault == f then false else has_cell self.old f c) }
    {
        self.by_fault.remove(&fault)
    }
}
