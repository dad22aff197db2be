//! Entries taken out of lists whose entries are in order.
ghost use Rattle.std.specs.Prelude.{◌≡◌, ℕ, ◌+◌, ◌<◌, ◌^◌, ◌==◌, ◌&&◌, length, None, is_some, nat_eq, IsTrue, if◌then◌else◌};
ghost use Rattle.std.specs.HashSet.{contains};
ghost use Rattle.divergence_list.specs.Entries.{entry_at, count, ChangesOnly};
ghost use Rattle.divergence_list.specs.Invariant.{IsSound};

use crate::cell_lists::CellLists;
use crate::order::search;
use std::collections::HashSet;

/// Takes the entry of a fault at a cell out, and answers its value.
pub(crate) fn take_entry<V: Drop>(lists: &mut CellLists<V>, cell: u32, fault: u32) -> Option<V>
    requires cell { cell < length lists.old }
    requires sound { IsSound lists.old }
    ensures old { result ≡ entry_at lists.old cell fault }
    ensures changed { ChangesOnly lists.old lists.new cell fault None }
    ensures sound { IsSound lists.new }
    ensures counted { count lists.new + (if is_some result then 1 else 0) ≡ count lists.old }
{
    match search(lists.at_cell(cell), fault) {
        Ok(place) => Some(lists.remove(cell, place).value),
        Err(_) => None,
    }
}

/// Takes the entries of a fault at these cells out, and answers how many there were.
pub(crate) fn drop_entries<V: Drop>(
    lists: &mut CellLists<V>,
    cells: HashSet<u32>,
    fault: u32,
) -> u64
    requires cells { (c : ℕ) → IsTrue (contains nat_eq cells c) → c < length lists.old }
    requires sound { IsSound lists.old }
    requires few { count lists.old < 2 ^ 64 }
    ensures cells { length lists.new ≡ length lists.old }
    ensures entries { (c f : ℕ) → entry_at lists.new c f
        ≡ (if (fault == f) && contains nat_eq cells c then None else entry_at lists.old c f) }
    ensures sound { IsSound lists.new }
    ensures counted { count lists.new + result ≡ count lists.old }
{
    let mut dropped = 0;
    for cell in cells {
        if take_entry(lists, cell, fault).is_some() {
            dropped += 1;
        }
    }
    dropped
}
