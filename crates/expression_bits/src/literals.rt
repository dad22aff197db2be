//! The bits of literals in places of a width.
ghost use Rattle.std.specs.Prelude.{◌≡◌, ◌<◌, ◌^◌, ◌/◌, ◌%◌, ◌==◌, if◌then◌else◌, IfOk};
ghost use Rattle.v_lexer.specs.Literals.{binary};
ghost use Rattle.expression_bits.specs.Literals.{fit, leftmost, number_bits, place_bits, unsized_bits, value_bits, whole_bits};

use std::alloc::{AllocError, Global};
use v_lexer::{Bit, Literal};

/// Bits in a place of a width: cut on the left, or extended on the left with a bit.
fn fit(alloc: Global, width: usize, extension: Bit, bits: &[Bit]) -> Result<Vec<Bit>, AllocError>
    ensures { IfOk result (λ fitted. fitted.items ≡ fit width extension bits.now) }
{
    let mut fitted = vec![in alloc; extension; width.saturating_sub(bits.len())]?;
    let (_, kept) = bits.split_at(bits.len().saturating_sub(width));
    fitted.extend_from_slice(kept)?;
    Ok(fitted)
}

/// The bit that counts as 2 to the power of the index.
fn bit_of(value: u32, index: u32) -> Bit
    requires { index < 32 }
    ensures { result ≡ (if (value / 2 ^ index) % 2 == 1 then Bit.One else Bit.Zero) }
{
    if (value >> index) % 2 == 1 {
        Bit::One
    } else {
        Bit::Zero
    }
}

/// A value in binary with 32 bits.
fn binary(alloc: Global, value: u32) -> Result<Vec<Bit>, AllocError>
    ensures { IfOk result (λ bits. bits.items ≡ binary 32 value) }
{
    let mut bits = Vec::new(alloc);
    for i in 0..32 {
        bits.push(bit_of(value, 31 - i))?;
    }
    Ok(bits)
}

/// A number without base in a place of a width.
pub fn number_bits(alloc: Global, width: usize, number: u32) -> Result<Vec<Bit>, AllocError>
    ensures { IfOk result (λ bits. bits.items ≡ number_bits width number) }
{
    let bits = binary(alloc, number)?;
    fit(alloc, width, Bit::Zero, &bits)
}

/// The leftmost bit, and 0 where there is none.
fn leftmost(bits: &[Bit]) -> Bit
    ensures { result ≡ leftmost bits.now }
{
    match bits {
        [first, ..] => *first,
        [] => Bit::Zero,
    }
}

/// A literal without size in a place of a width.
fn unsized_bits(alloc: Global, width: usize, literal: &Literal) -> Result<Vec<Bit>, AllocError>
    ensures { IfOk result (λ bits. bits.items ≡ unsized_bits width literal.now) }
{
    let bits = literal.bits.as_slice();
    let extension = if literal.signed {
        leftmost(bits)
    } else {
        literal.extension
    };
    fit(alloc, width, extension, bits)
}

/// A literal with a size that is the whole right side of an assignment to so many bits.
fn whole_bits(alloc: Global, width: usize, literal: &Literal) -> Result<Vec<Bit>, AllocError>
    ensures { IfOk result (λ bits. bits.items ≡ whole_bits width literal.now) }
{
    let bits = literal.bits.as_slice();
    let extension = if literal.signed {
        leftmost(bits)
    } else {
        Bit::Zero
    };
    fit(alloc, width, extension, bits)
}

/// A literal that is a terminal or a connection of a width.
pub fn place_bits(alloc: Global, width: usize, literal: &Literal) -> Result<Vec<Bit>, AllocError>
    ensures { IfOk result (λ bits. bits.items ≡ place_bits width literal.now.size literal.now) }
{
    if literal.size.is_some() {
        Vec::from_slice(alloc, literal.bits.as_slice())
    } else {
        unsized_bits(alloc, width, literal)
    }
}

/// A literal that is the right side of an assignment to so many bits.
pub fn value_bits(alloc: Global, width: usize, literal: &Literal) -> Result<Vec<Bit>, AllocError>
    ensures { IfOk result (λ bits. bits.items ≡ value_bits width literal.now.size literal.now) }
{
    if literal.size.is_some() {
        whole_bits(alloc, width, literal)
    } else {
        unsized_bits(alloc, width, literal)
    }
}
