ghost use Rattle.std.specs.Prelude.{◌≡◌, [], is_some, IfOk, IfSome};
ghost use Rattle.flat_net.specs.Tests.{are_new};

use indexmap::IndexSet;
use std::alloc::{AllocError, Global};
use std::hash::Hash;

/// The set of the elements, or none where two of them are equal.
pub(crate) fn distinct_set<T: Eq + Hash + Copy + Drop>(
    alloc: Global,
    elements: &[T],
) -> Result<Option<IndexSet<T>>, AllocError>
    ensures distinct { IfOk result (λ o. is_some o ≡ are_new T.eq [] elements.now) }
    ensures keys { IfOk result (λ o. IfSome o (λ set. set.keys ≡ elements.now)) }
{
    let mut set = IndexSet::new(alloc);
    for element in elements {
        if !set.insert(*element)? {
            return Ok(None);
        }
    }
    Ok(Some(set))
}
