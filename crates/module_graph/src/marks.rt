//! Marks of modules or of primitives.
ghost use Rattle.std.specs.Prelude.{◌≡◌, false, nat_eq, replicate, IfOk};
ghost use Rattle.module_graph.specs.Marks.{AreMarked};

use sqlite_items::Items;
use std::alloc::{AllocError, Global};

/// Marks of so many, of which none is marked.
pub(crate) fn no_marks(alloc: Global, count: usize) -> Result<Items<bool>, AllocError>
    ensures { IfOk result (λ marks. marks ≡ replicate count false) }
{
    Ok(Items::from_vec(vec![in alloc; false; count]?))
}

/// Marks that of an index, where it is there.
pub(crate) fn mark(marks: &mut Items<bool>, index: usize)
    ensures { AreMarked (λ k. nat_eq k index) marks.old marks.new }
{
    if index < marks.len() {
        marks.set(index, true);
    }
}
