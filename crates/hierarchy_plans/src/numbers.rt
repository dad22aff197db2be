//! The numbers of primitives that are reached.
ghost use Rattle.std.specs.Prelude.{◌≡◌, ◌+◌, length, map, IfOk, if◌then◌else◌};
ghost use Rattle.std.specs.List.{range_with_len};
ghost use Rattle.netlist_meaning.specs.Plans.{number_among};

use std::alloc::{AllocError, Global};

/// The number behind one, where the thing of that number is there.
fn next_number(number: u32, is_there: bool) -> Result<u32, AllocError>
    ensures { IfOk result (λ next. next ≡ (if is_there then number + 1 else number)) }
{
    if is_there {
        number.checked_add(1).ok_or(AllocError)
    } else {
        Ok(number)
    }
}

/// The number of each primitive: how many that are reached stand before it. 2^32 and more are want of
/// memory.
pub fn primitive_numbers(alloc: Global, reached: &[bool]) -> Result<Vec<u32>, AllocError>
    ensures { IfOk result (λ numbers. numbers.items
        ≡ map (number_among reached.now) (range_with_len 0 (length reached.now))) }
{
    let mut numbers = Vec::new(alloc);
    let mut next = 0;
    for is_reached in reached {
        numbers.push(next)?;
        next = next_number(next, *is_reached)?;
    }
    Ok(numbers)
}
