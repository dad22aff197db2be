ghost use Rattle.std.specs.Prelude.{◌≡◌, IfOk, Some, None, MatchOption};
ghost use Rattle.vector_text.specs.Sayings.{value_of, wanted_of, values_in};

use level_range::Logic;
use list_of::ListOf;
use std::alloc::{AllocError, Global};

/// What a byte of a field of values says.
pub trait FieldValue: Drop + Sized {
    ghost use Rattle.std.specs.Prelude.{ℕ, Option};

    ghost said: { ℕ → Option Self };

    /// What a byte says, where it is one of the field's.
    fn of(byte: u8) -> Option<Self>
        ensures { result ≡ Self.FieldValue.said byte };
}

/// The value of a byte: `0`, `1`, `x`, `X`, `z` or `Z`.
fn value_of(byte: u8) -> Option<Logic>
    ensures { result ≡ value_of byte }
{
    match byte {
        b'0' => Some(Logic::Zero),
        b'1' => Some(Logic::One),
        b'x' | b'X' => Some(Logic::X),
        b'z' | b'Z' => Some(Logic::Z),
        _ => None,
    }
}

/// The expected value of a byte: a value, or `-` for one that isn't compared.
fn wanted_of(byte: u8) -> Option<Option<Logic>>
    ensures { result ≡ wanted_of byte }
{
    if byte == b'-' {
        Some(None)
    } else {
        value_of(byte).map(Some)
    }
}

impl FieldValue for Logic {
    ghost said = { value_of };

    fn of(byte: u8) -> Option<Logic> {
        value_of(byte)
    }
}

impl FieldValue for Option<Logic> {
    ghost said = { wanted_of };

    fn of(byte: u8) -> Option<Option<Logic>> {
        wanted_of(byte)
    }
}

/// The values of a field, which has one or more; `_` is passed over.
pub fn values_in<V: FieldValue>(
    alloc: Global,
    field: &[u8],
) -> Result<Option<ListOf<V>>, AllocError>
    ensures { IfOk result (λ values. values ≡ values_in V.FieldValue.said field.now) }
{
    let mut values = Vec::with_capacity(alloc, field.len())?;
    for byte in field {
        if *byte == b'_' {
            continue;
        }
        match V::of(*byte) {
            Some(value) => values.push(value)?,
            None => return Ok(None),
        }
    }
    if values.is_empty() {
        return Ok(None);
    }
    Ok(Some(ListOf::from_vec(values)))
}
