//! Numbers that a plan holds.
ghost use Rattle.std.specs.Prelude.{◌≡◌, ◌+◌, ◌++◌, IfOk, OnOk};
ghost use Rattle.std.specs.List.{range_with_len};

use std::alloc::AllocError;

/// A number that a plan holds. One that a `u32` doesn't hold is want of memory.
pub fn plan_number(number: u64) -> Result<u32, AllocError>
    ensures { IfOk result (λ kept. kept ≡ number) }
{
    if number > u32::MAX as u64 {
        return Err(AllocError);
    }
    Ok(number as u32)
}

/// A sum of numbers. One that a `u64` doesn't hold is want of memory.
pub fn sum_of(number: u64, more: u64) -> Result<u64, AllocError>
    ensures { IfOk result (λ sum. sum ≡ number + more) }
{
    if more > u64::MAX - number {
        return Err(AllocError);
    }
    Ok(number + more)
}

/// A sum of numbers, which a plan holds.
pub fn plan_sum(number: u64, more: u64) -> Result<u32, AllocError>
    ensures { IfOk result (λ sum. sum ≡ number + more) }
{
    plan_number(sum_of(number, more)?)
}

/// The number of a thing that stands so many behind another.
pub fn number_after(number: u32, count: usize) -> Result<u32, AllocError>
    ensures { IfOk result (λ next. next ≡ number + count) }
{
    plan_sum(u64::from(number), count as u64)
}

/// Adds so many numbers, from the first on.
pub fn push_range(numbers: &mut Vec<u32>, first: u64, count: u64) -> Result<(), AllocError>
    ensures { OnOk result (numbers.new.items ≡ numbers.old.items ++ range_with_len first count) }
{
    for offset in 0..count {
        numbers.push(plan_sum(first, offset)?)?;
    }
    Ok(())
}
