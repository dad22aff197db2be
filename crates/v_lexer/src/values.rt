ghost use Rattle.std.specs.Prelude.{◌≡◌, ◌≤◌, ◌<◌, ◌+◌, ◌-◌, ◌*◌, ◌/◌, ◌%◌, ◌^◌, ◌==◌, if◌then◌else◌, ◌++◌, length, replicate, IsTrue, nat_le, ◌||◌, Option, None, Some, is_some, IfOk, OnOk, MatchOption};
ghost use Rattle.v_lexer.specs.declared.literals.Base.TheVariants.{Octal, Decimal, Hexadecimal};
ghost use Rattle.v_lexer.specs.declared.literals.Bit.TheVariants.{Zero, One};
ghost use Rattle.v_lexer.specs.Numbers.{decimal_value};
ghost use Rattle.v_lexer.specs.Literals.{form_at, is_single, bits_by_weight, digit_bits, bits_of, filler, fit, binary, bits_in, holds, form_view};
ghost use Rattle.v_lexer.specs.Values.{name_text, digits_in, decimal_digits, width_of, meaning, literal_of};

use crate::bytes::{after, before, blank_run, digit_run, first, number_run};
use crate::lists::BitList;
use crate::literals::{Base, Bit, Form, bit_at, extension_of, form_at, holds, is_single};
use crate::numbers::{decimal_value, small_value};
use byte_lists::Bytes;
use std::alloc::{AllocError, Global};

/// What a based number means: its size where one is written, whether it is signed, its base, its bits
/// from the left, as many as the size or 32, and the bit that extends it on the left where it has no
/// size and its context is wider: x or z where its leftmost digit is one, else 0 (IEEE 1364-2005, 3.5.1).
#[derive(Debug, Drop)]
pub struct Literal {
    pub size: Option<u32>,
    pub signed: bool,
    pub base: Base,
    pub bits: BitList,
    pub extension: Bit,
}

/// What a decimal means: its digits before and behind the `.`, each as a number from 0 to 9, the most
/// significant first. There may be any number of them.
#[derive(Debug, Drop)]
pub struct DecimalDigits {
    pub whole: Bytes,
    pub fraction: Bytes,
}

/// The text of a name by the bytes of its token: an escaped name is without its `\`.
pub fn name_text(token: &[u8]) -> &[u8]
    ensures { result.now ≡ name_text token.now }
{
    if first(token) == b'\\' {
        after(token, 1)
    } else {
        token
    }
}

/// The value of a number by the bytes of its token: `None` exactly where it is 2^31 or more.
pub fn number_value(token: &[u8]) -> Option<u32>
    ensures { MatchOption result (2147483648 ≤ decimal_value token.now)
        (λ value. (value ≡ decimal_value token.now) × (value < 2147483648)) }
{
    small_value(token)
}

/// Digits as numbers from 0 to 9.
fn digits_in(alloc: Global, bytes: &[u8]) -> Result<Bytes, AllocError>
    ensures { IfOk result (λ digits. digits ≡ digits_in bytes.now) }
{
    let mut digits = Vec::new(alloc);
    for byte in bytes {
        digits.push(byte.saturating_sub(b'0'))?;
    }
    Ok(Bytes::from_vec(digits))
}

/// The digits of a decimal by the bytes of its token.
pub fn decimal_digits(alloc: Global, token: &[u8]) -> Result<DecimalDigits, AllocError>
    ensures { IfOk result (λ decimal. decimal ≡ decimal_digits token.now) }
{
    let len = digit_run(token);
    let whole = digits_in(alloc, before(token, len))?;
    let fraction = digits_in(alloc, after(token, len.saturating_add(1)))?;
    Ok(DecimalDigits { whole, fraction })
}

/// Puts the bits of a digit that stands for four at the end.
#[tactic(auto, unfolding(crate::specs::Literals::bits_by_weight))]
fn push_four(bits: &mut Vec<Bit>, byte: u8) -> Result<(), AllocError>
    ensures { OnOk result (bits.new.items ≡ bits.old.items ++ bits_by_weight Hexadecimal byte) }
{
    bits.push(bit_at(byte, 8))?;
    bits.push(bit_at(byte, 4))?;
    bits.push(bit_at(byte, 2))?;
    bits.push(bit_at(byte, 1))?;
    Ok(())
}

/// Puts the bits of a digit that stands for three at the end.
#[tactic(auto, unfolding(crate::specs::Literals::bits_by_weight))]
fn push_three(bits: &mut Vec<Bit>, byte: u8) -> Result<(), AllocError>
    ensures { OnOk result (bits.new.items ≡ bits.old.items ++ bits_by_weight Octal byte) }
{
    bits.push(bit_at(byte, 4))?;
    bits.push(bit_at(byte, 2))?;
    bits.push(bit_at(byte, 1))?;
    Ok(())
}

/// Puts the bits of a digit at the end.
#[tactic(auto, unfolding(crate::specs::Literals::bits_by_weight, crate::specs::Literals::digit_bits))]
fn push_digit(bits: &mut Vec<Bit>, base: Base, byte: u8) -> Result<(), AllocError>
    ensures { OnOk result (bits.new.items ≡ bits.old.items ++ digit_bits base byte) }
{
    if byte == b'_' {
        return Ok(());
    }
    match base {
        Base::Binary => {
            bits.push(bit_at(byte, 1))?;
            Ok(())
        }
        Base::Octal => push_three(bits, byte),
        Base::Decimal => push_four(bits, byte),
        Base::Hexadecimal => push_four(bits, byte),
    }
}

/// The bits of all digits of a base that isn't decimal.
#[tactic(auto)]
fn bits_of(alloc: Global, base: Base, digits: &[u8]) -> Result<Vec<Bit>, AllocError>
    ensures { IfOk result (λ bits. bits.items ≡ bits_of base digits.now) }
{
    let mut bits = Vec::new(alloc);
    let mut rest = digits;
    while !rest.is_empty() {
        push_digit(&mut bits, base, first(rest))?;
        rest = after(rest, 1);
    }
    Ok(bits)
}

/// What extends bits on the left.
fn filler(bits: &[Bit]) -> Bit
    ensures { result ≡ filler bits.now }
{
    match bits {
        [Bit::X, ..] => Bit::X,
        [Bit::Z, ..] => Bit::Z,
        _ => Bit::Zero,
    }
}

/// A bit so many times.
fn repeat_bit(alloc: Global, bit: Bit, n: usize) -> Result<Vec<Bit>, AllocError>
    ensures { IfOk result (λ bits. bits.items ≡ replicate n bit) }
{
    let mut bits = Vec::new(alloc);
    for _ in 0..n {
        bits.push(bit)?;
    }
    Ok(bits)
}

/// As many bits as the number: extended on the left, or cut on the left.
#[tactic(auto, unfolding(crate::specs::Literals::fit))]
fn fit(alloc: Global, n: usize, bits: &[Bit]) -> Result<Vec<Bit>, AllocError>
    ensures { IfOk result (λ fitted. fitted.items ≡ fit n bits.now) }
{
    if bits.len() < n {
        let mut fitted = repeat_bit(alloc, filler(bits), n - bits.len())?;
        fitted.extend_from_slice(bits)?;
        Ok(fitted)
    } else {
        let (_, kept) = bits.split_at(bits.len() - n);
        Vec::from_slice(alloc, kept)
    }
}

fn bit_of(value: u128, index: u32) -> Bit
    requires { index < 128 }
    ensures { result ≡ (if (value / 2 ^ index) % 2 == 1 then One else Zero) }
{
    if (value >> index) % 2 == 1 {
        Bit::One
    } else {
        Bit::Zero
    }
}

/// A value in binary with so many bits, cut on the left.
#[tactic(auto)]
fn binary(alloc: Global, n: u32, value: u128) -> Result<Vec<Bit>, AllocError>
    requires { n ≤ 128 }
    ensures { IfOk result (λ bits. bits.items ≡ binary n value) }
{
    let mut bits = Vec::new(alloc);
    for i in 0..n {
        bits.push(bit_of(value, n - 1 - i))?;
    }
    Ok(bits)
}

/// The bits of base d.
#[tactic(auto, unfolding(crate::specs::Literals::bits_in))]
fn decimal_bits(alloc: Global, n: u32, digits: &[u8]) -> Result<Vec<Bit>, AllocError>
    requires few { n ≤ 128 }
    requires small { IsTrue
        (is_single digits.now
        || nat_le (decimal_value digits.now) 340282366920938463463374607431768211455) }
    ensures { IfOk result (λ bits. bits.items ≡ bits_in n Decimal digits.now) }
{
    if is_single(digits) {
        return repeat_bit(alloc, bit_at(first(digits), 1), n as usize);
    }
    match decimal_value(digits) {
        Some(value) => binary(alloc, n, value),
        None => Ok(Vec::new(alloc)),
    }
}

/// How many bits a based number has: 32 without size.
fn width_of(size: Option<u32>) -> u32
    ensures { result ≡ width_of size }
{
    match size {
        Some(size) => size,
        None => 32,
    }
}

/// The bits of the digits of a based number that has none of its faults.
#[tactic(auto, unfolding(crate::specs::Literals::bits_in))]
fn bits_in(alloc: Global, size: Option<u32>, form: &Form) -> Result<Vec<Bit>, AllocError>
    requires { IsTrue (holds size (form_view form.now)) }
    ensures { IfOk result
        (λ bits. bits.items ≡ bits_in (width_of size) form.now.base form.now.digits.now) }
{
    let n = width_of(size);
    match form.base {
        Base::Decimal => decimal_bits(alloc, n, form.digits),
        Base::Binary => {
            let bits = bits_of(alloc, Base::Binary, form.digits)?;
            fit(alloc, n as usize, &bits)
        }
        Base::Octal => {
            let bits = bits_of(alloc, Base::Octal, form.digits)?;
            fit(alloc, n as usize, &bits)
        }
        Base::Hexadecimal => {
            let bits = bits_of(alloc, Base::Hexadecimal, form.digits)?;
            fit(alloc, n as usize, &bits)
        }
    }
}

/// What a based number of a size means.
#[tactic(auto, unfolding(crate::specs::Values::meaning))]
fn meaning(alloc: Global, size: Option<u32>, text: &[u8]) -> Result<Option<Literal>, AllocError>
    ensures { IfOk result (λ literal. literal ≡ meaning size (form_at text.now)) }
{
    match form_at(text) {
        Some(form) => {
            if holds(size, &form) {
                let bits = bits_in(alloc, size, &form)?;
                Ok(Some(Literal {
                    size,
                    signed: form.signed,
                    base: form.base,
                    bits: BitList::from_vec(bits),
                    extension: extension_of(form.digits),
                }))
            } else {
                Ok(None)
            }
        }
        None => Ok(None),
    }
}

/// What a based number means, by the bytes of its token: `None` exactly where no based number
/// without faults is at the front.
#[tactic(auto, unfolding(crate::specs::Values::literal_of))]
pub fn literal_value(alloc: Global, token: &[u8]) -> Result<Option<Literal>, AllocError>
    ensures { IfOk result (λ literal. literal ≡ literal_of token.now) }
{
    let len = number_run(token);
    if len == 0 {
        return meaning(alloc, None, token);
    }
    let offset = len + blank_run(after(token, len));
    match number_value(before(token, len)) {
        Some(size) => meaning(alloc, Some(size), after(token, offset)),
        None => Ok(None),
    }
}

/// Whether a based number of a size means something.
#[tactic(auto, unfolding(crate::specs::Values::meaning))]
fn has_meaning(size: Option<u32>, text: &[u8]) -> bool
    ensures { result ≡ is_some (meaning size (form_at text.now)) }
{
    match form_at(text) {
        Some(form) => holds(size, &form),
        None => false,
    }
}

/// Whether `literal_value` has a literal for the bytes of a token. It takes no memory.
#[tactic(auto, unfolding(crate::specs::Values::literal_of))]
pub fn is_literal(token: &[u8]) -> bool
    ensures { result ≡ is_some (literal_of token.now) }
{
    let len = number_run(token);
    if len == 0 {
        return has_meaning(None, token);
    }
    let offset = len + blank_run(after(token, len));
    match number_value(before(token, len)) {
        Some(size) => has_meaning(Some(size), after(token, offset)),
        None => false,
    }
}
