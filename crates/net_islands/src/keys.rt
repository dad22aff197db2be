ghost use Rattle.std.specs.Prelude.{◌≡◌, ◌<◌, ℕ, IfOk, [], replicate};
ghost use Rattle.std.specs.List.{All};
ghost use Rattle.net_islands.specs.Keys.{lists_in, lists_by_key as lists_by_key_of};

use std::alloc::{AllocError, Global};

/// So many empty lists.
fn empty_lists<T: Drop>(alloc: Global, count: u32) -> Result<Vec<Vec<T>>, AllocError>
    ensures { IfOk result (λ lists. lists_in lists.items ≡ replicate count []) }
{
    let mut lists = Vec::new(alloc);
    for _ in 0..count {
        lists.push(Vec::new(alloc))?;
    }
    Ok(lists)
}

/// For each number below the count the items of that key, in their order.
pub(crate) fn lists_by_key<T: Copy>(
    alloc: Global,
    count: u32,
    items: &[(u32, T)],
) -> Result<Vec<Vec<T>>, AllocError>
    requires { All (λ item. item.0 < count) items.now }
    ensures { IfOk result
        (λ lists. lists_in lists.items ≡ lists_by_key_of count items.now) }
{
    let mut lists = empty_lists(alloc, count)?;
    for (key, item) in items {
        lists[*key as usize].push(*item)?;
    }
    Ok(lists)
}
