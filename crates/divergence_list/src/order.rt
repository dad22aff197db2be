//! Where a fault stands among the entries of a cell.
ghost use Rattle.std.specs.Prelude.{◌≡◌, None, IfOk, IfErr, IsSome, is_some, MatchResult};
ghost use Rattle.divergence_list.specs.Entries.{entry_in};
ghost use Rattle.divergence_list.specs.Order.{IsCellList, rank};

use crate::entry::Entry;

/// The place of a fault's entry, or else the place where it would stand.
pub(crate) fn search<V>(entries: &[Entry<V>], fault: u32) -> Result<usize, usize>
    requires { IsCellList entries.now }
    ensures place { MatchResult result (λ place. place ≡ rank entries.now fault)
        (λ place. place ≡ rank entries.now fault) }
    ensures there { IfOk result (λ _. IsSome (entry_in entries.now fault)) }
    ensures absent { IfErr result (λ _. entry_in entries.now fault ≡ None) }
{
    let place = rank(entries, fault);
    if has_fault(entries, place, fault) {
        return Ok(place);
    }
    Err(place)
}

/// Whether the entry at this place is there and has this fault.
fn has_fault<V>(entries: &[Entry<V>], place: usize, fault: u32) -> bool
    requires sound { IsCellList entries.now }
    requires place { place ≡ rank entries.now fault }
    ensures { result ≡ is_some (entry_in entries.now fault) }
{
    place < entries.len() && entries[place].fault == fault
}

/// How many entries have a lower fault.
fn rank<V>(entries: &[Entry<V>], fault: u32) -> usize
    requires { IsCellList entries.now }
    ensures { result ≡ rank entries.now fault }
{
    entries.partition_point(|entry| entry.fault < fault)
}
