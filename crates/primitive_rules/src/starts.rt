//! The values of literals that a primitive's state may start with.
ghost use Rattle.std.specs.Prelude.{◌≡◌};
ghost use Rattle.std.specs.List.{list_all};
ghost use Rattle.primitive_rules.specs.Starts.{bit_value, bits_value, is_x, is_zero, last_value, number_value, small_number, start_value};

use level_range::Logic;
use v_lexer::Bit;
use v_tree::Lit;

/// Whether the bit is unknown.
fn is_x(bit: Bit) -> bool
    ensures { result ≡ is_x bit }
{
    matches!(bit, Bit::X)
}

/// Whether the bit is 0.
fn is_zero(bit: Bit) -> bool
    ensures { result ≡ is_zero bit }
{
    matches!(bit, Bit::Zero)
}

/// The value of a single bit that is 0 or 1.
fn bit_value(bit: Bit) -> Option<Logic>
    ensures { result ≡ bit_value bit }
{
    match bit {
        Bit::Zero => Some(Logic::Zero),
        Bit::One => Some(Logic::One),
        Bit::X | Bit::Z => None,
    }
}

/// Whether all bits are unknown.
fn are_all_x(bits: &[Bit]) -> bool
    ensures { result ≡ list_all is_x bits.now }
{
    bits.iter().all(|bit| is_x(*bit))
}

/// Whether all bits are 0.
fn are_zeros(bits: &[Bit]) -> bool
    ensures { result ≡ list_all is_zero bits.now }
{
    bits.iter().all(|bit| is_zero(*bit))
}

/// The value of the last bit.
fn last_value(bits: &[Bit]) -> Option<Logic>
    ensures { result ≡ last_value bits.now }
{
    match bits.last() {
        Some(bit) => bit_value(*bit),
        None => None,
    }
}

/// The number of bits from the left, where it is 0 or 1.
fn small_number(bits: &[Bit]) -> Option<Logic>
    ensures { result ≡ small_number bits.now }
{
    if are_zeros(&bits[..bits.len().saturating_sub(1)]) {
        last_value(bits)
    } else {
        None
    }
}

/// x where all bits are x, else their number, where it is 0 or 1.
fn bits_value(bits: &[Bit]) -> Option<Logic>
    ensures { result ≡ bits_value bits.now }
{
    if are_all_x(bits) {
        Some(Logic::X)
    } else {
        small_number(bits)
    }
}

/// The value of a plain number, where it is 0 or 1.
fn number_value(number: u32) -> Option<Logic>
    ensures { result ≡ number_value number }
{
    match number {
        0 => Some(Logic::Zero),
        1 => Some(Logic::One),
        _ => None,
    }
}

/// The start value that a literal is, where it is one (IEEE 1364-2005, 8.5).
pub fn start_value(literal: &Lit) -> Option<Logic>
    ensures { result ≡ start_value literal.now }
{
    match literal {
        Lit::Number(_, number) => number_value(*number),
        Lit::Based(_, based) => bits_value(based.bits.as_slice()),
    }
}
