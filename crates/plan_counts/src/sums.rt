//! Sums that a `u64` holds.
ghost use Rattle.std.specs.Prelude.{◌≡◌, ◌+◌, IfOk};

use std::alloc::{AllocError, Global};

/// A sum. One that a `u64` doesn't hold is want of memory.
pub fn sum_of(first: u64, second: u64) -> Result<u64, AllocError>
    ensures { IfOk result (λ sum. sum ≡ first + second) }
{
    match first.checked_add(second) {
        Some(sum) => Ok(sum),
        None => Err(AllocError),
    }
}

/// A count. One that a `u64` doesn't hold is want of memory.
pub fn count_of(count: u128) -> Result<u64, AllocError>
    ensures { IfOk result (λ kept. kept ≡ count) }
{
    match u64::try_from(count) {
        Ok(count) => Ok(count),
        Err(_) => Err(AllocError),
    }
}
