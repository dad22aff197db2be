//! Times by leaf, with the least of them at hand: an inner cell is the smaller of its two children.
ghost use Rattle.std.specs.Prelude.{◌≡◌, ℕ, ◌+◌, ◌<◌, ◌≤◌, [], length, replicate, slice_set, slice_index, IfOk};
ghost use Rattle.timing_wheel.specs.Times.{IsLeastOf};

use std::alloc::{AllocError, Global};
use std::marker::Model;

/// The time of what isn't due at all.
pub(crate) const IDLE: u64 = u64::MAX;

/// A time for each leaf. Contracts see the list of them.
#[derive(Drop)]
pub(crate) struct LeastTree {
    cells: Vec<u64>,
    leaves: usize,
}

impl Model for LeastTree {
    ghost use Rattle.std.specs.Prelude.{List, ℕ, drop};
    ghost use Rattle.timing_wheel.specs.Times.{IsLeastTree};

    ghost Value = { List ℕ };

    ghost view = { λ t. drop t.leaves t.cells.items };

    ghost invariant = { λ t. IsLeastTree t.cells.items t.leaves };
}

impl LeastTree {
    /// A tree without leaves. It takes no memory.
    pub(crate) fn new(alloc: Global) -> LeastTree
        ensures { result ≡ [] }
    {
        LeastTree {
            cells: Vec::new(alloc),
            leaves: 0,
        }
    }

    /// A tree whose leaves are all idle.
    pub(crate) fn with_leaves(alloc: Global, leaves: u32) -> Result<LeastTree, AllocError>
        ensures { IfOk result (λ tree. tree ≡ replicate leaves IDLE) }
    {
        let leaves = leaves as usize;
        let cells = vec![in alloc; IDLE; leaves + leaves]?;
        Ok(LeastTree { cells, leaves })
    }

    /// How many leaves there are.
    pub(crate) fn len(&self) -> usize
        ensures { result ≡ length self.now }
    {
        self.leaves
    }

    /// The time of a leaf.
    pub(crate) fn time(&self, leaf: usize) -> u64
        requires { leaf < length self.now }
        ensures { result ≡ slice_index self.now leaf }
    {
        self.cells[self.leaves + leaf]
    }

    /// Gives a leaf another time.
    pub(crate) fn set(&mut self, leaf: usize, time: u64)
        requires { leaf < length self.old }
        ensures { self.new ≡ slice_set self.old leaf time }
    {
        let mut cell = self.leaves + leaf;
        self.cells[cell] = time;
        while cell > 1 {
            cell /= 2;
            let least = self.cells[cell + cell].min(self.cells[cell + cell + 1]);
            if self.cells[cell] == least {
                break;
            }
            self.cells[cell] = least;
        }
    }

    /// The least time of a leaf, or `IDLE` where there is none.
    pub(crate) fn least(&self) -> u64
        ensures { IsLeastOf self.now result }
    {
        if self.leaves == 0 {
            IDLE
        } else {
            self.cells[1]
        }
    }

    /// A leaf of the least time.
    pub(crate) fn least_leaf(&self) -> usize
        requires { 0 < length self.now }
        ensures within { result < length self.now }
        ensures least { IsLeastOf self.now (slice_index self.now result) }
    {
        let mut cell = 1;
        while cell < self.leaves {
            cell += cell;
            if self.cells[cell] > self.cells[cell + 1] {
                cell += 1;
            }
        }
        cell - self.leaves
    }
}
