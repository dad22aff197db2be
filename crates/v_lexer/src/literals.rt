ghost use Rattle.std.specs.Prelude.{◌≡◌, ◌≤◌, ◌<◌, ◌+◌, ◌^◌, ◌==◌, nat_le, length, IfSome};
ghost use Rattle.std.specs.Option.{option_map};
ghost use Rattle.std.specs.List.{list_all};
ghost use Rattle.v_lexer.specs.Literals.{base_of, signed_len, form_view, form_with, form_at, is_x, is_z, extension_of, digit_value, is_digit_of, is_decimal_digit, is_single, digits_hold, radix, bit_at, size_holds, holds, value_holds, bits_by_weight, digit_bits, bits_of, needed_len};
ghost use Rattle.v_lexer.specs.declared.literals.Base.TheVariants.{Hexadecimal};
ghost use Rattle.v_lexer.specs.Numbers.{decimal_value};
ghost use Rattle.v_lexer.specs.Needed.{needed_by, needed_with};

use crate::bytes::{after, before, blank_run, first, literal_run};
use crate::numbers::decimal_value;

/// The base of a based number, by its letter.
#[derive(Clone, Copy, Debug, PartialEq, Eq)]
pub enum Base {
    /// `b`.
    Binary,
    /// `o`.
    Octal,
    /// `d`.
    Decimal,
    /// `h`.
    Hexadecimal,
}

/// A bit of a based number.
#[derive(Clone, Copy, Debug, PartialEq, Eq)]
pub enum Bit {
    Zero,
    One,
    /// Unknown.
    X,
    /// High impedance, which may be written `?`.
    Z,
}

/// A based number from its `'` on: its parts, and its length.
#[derive(Drop)]
pub struct Form<'a> {
    pub signed: bool,
    pub base: Base,
    pub digits: &'a [u8],
    pub len: usize,
}

#[tactic(auto, unfolding(crate::specs::Literals::base_of))]
fn base_of(byte: u8) -> Option<Base>
    ensures { result ≡ base_of byte }
{
    if byte == b'b' || byte == b'B' {
        Some(Base::Binary)
    } else if byte == b'o' || byte == b'O' {
        Some(Base::Octal)
    } else if byte == b'd' || byte == b'D' {
        Some(Base::Decimal)
    } else if byte == b'h' || byte == b'H' {
        Some(Base::Hexadecimal)
    } else {
        None
    }
}

/// The length of an `s` or `S`, or 0.
fn signed_len(text: &[u8]) -> usize
    ensures { result ≡ signed_len text.now }
{
    if first(text) == b's' || first(text) == b'S' {
        1
    } else {
        0
    }
}

/// The form with digits from an offset on.
#[tactic(auto, unfolding(crate::specs::Literals::form_with))]
fn form_with(signed: bool, base: Base, start: usize, text: &[u8]) -> Option<Form>
    requires { start < 2 ^ 63 }
    ensures form { option_map form_view result ≡ form_with signed base start text.now }
    ensures within { IfSome result (λ form. (0 < form.len) × (form.len ≤ length text.now)) }
{
    let rest = after(text, start);
    let len = literal_run(rest);
    if len == 0 || first(rest) == b'_' {
        return None;
    }
    Some(Form {
        signed,
        base,
        digits: before(rest, len),
        len: start + len,
    })
}

/// The based number whose `'` is the first byte.
#[tactic(auto, unfolding(crate::specs::Literals::form_at))]
pub fn form_at(text: &[u8]) -> Option<Form>
    ensures form { option_map form_view result ≡ form_at text.now }
    ensures within { IfSome result (λ form. (0 < form.len) × (form.len ≤ length text.now)) }
{
    let signed = signed_len(after(text, 1));
    let offset = 1 + signed;
    match base_of(first(after(text, offset))) {
        Some(base) => {
            let start = offset + 1 + blank_run(after(text, offset + 1));
            form_with(signed == 1, base, start, text)
        }
        None => None,
    }
}

fn is_x(byte: u8) -> bool
    ensures { result ≡ is_x byte }
{
    byte == b'x' || byte == b'X'
}

fn is_z(byte: u8) -> bool
    ensures { result ≡ is_z byte }
{
    byte == b'z' || byte == b'Z' || byte == b'?'
}

/// The bit that extends digits on the left: x or z where the leftmost digit is one, else 0.
#[tactic(auto, unfolding(crate::specs::Literals::extension_of))]
pub fn extension_of(digits: &[u8]) -> Bit
    ensures { result ≡ extension_of digits.now }
{
    if is_x(first(digits)) {
        Bit::X
    } else if is_z(first(digits)) {
        Bit::Z
    } else {
        Bit::Zero
    }
}

/// The value of a digit or a letter, or 16.
#[tactic(auto, unfolding(crate::specs::Literals::digit_value))]
fn digit_value(byte: u8) -> u8
    ensures { result ≡ digit_value byte }
{
    if byte.is_ascii_digit() {
        byte - b'0'
    } else if byte >= b'a' && byte <= b'f' {
        byte - 87
    } else if byte >= b'A' && byte <= b'F' {
        byte - 55
    } else {
        16
    }
}

fn radix(base: Base) -> u8
    ensures { result ≡ radix base }
{
    match base {
        Base::Binary => 2,
        Base::Octal => 8,
        Base::Decimal => 10,
        Base::Hexadecimal => 16,
    }
}

#[tactic(auto, unfolding(crate::specs::Literals::is_digit_of))]
fn is_digit_of(base: Base, byte: u8) -> bool
    ensures { result ≡ is_digit_of base byte }
{
    byte == b'_' || is_x(byte) || is_z(byte) || digit_value(byte) < radix(base)
}

fn is_decimal_digit(byte: u8) -> bool
    ensures { result ≡ is_decimal_digit byte }
{
    byte == b'_' || byte.is_ascii_digit()
}

fn all_underscores(digits: &[u8]) -> bool
    ensures { result ≡ list_all (λ byte. byte == 95) digits.now }
{
    digits.iter().all(|byte| *byte == b'_')
}

fn all_decimal(digits: &[u8]) -> bool
    ensures { result ≡ list_all is_decimal_digit digits.now }
{
    digits.iter().all(|byte| is_decimal_digit(*byte))
}

fn all_of(base: Base, digits: &[u8]) -> bool
    ensures { result ≡ list_all (is_digit_of base) digits.now }
{
    digits.iter().all(|byte| is_digit_of(base, *byte))
}

/// Whether the digits are a single x, z or `?`, which `_` may follow.
#[tactic(auto, unfolding(crate::specs::Literals::is_single))]
pub fn is_single(digits: &[u8]) -> bool
    ensures { result ≡ is_single digits.now }
{
    (is_x(first(digits)) || is_z(first(digits))) && all_underscores(after(digits, 1))
}

/// Whether each digit is one of the base.
#[tactic(auto, unfolding(crate::specs::Literals::digits_hold))]
fn digits_hold(base: Base, digits: &[u8]) -> bool
    ensures { result ≡ digits_hold base digits.now }
{
    match base {
        Base::Decimal => is_single(digits) || all_decimal(digits),
        Base::Binary => all_of(Base::Binary, digits),
        Base::Octal => all_of(Base::Octal, digits),
        Base::Hexadecimal => all_of(Base::Hexadecimal, digits),
    }
}

/// The bit of a digit that counts as much as the weight.
#[tactic(auto, unfolding(crate::specs::Literals::bit_at))]
pub fn bit_at(byte: u8, weight: u8) -> Bit
    requires { 0 < weight }
    ensures { result ≡ bit_at byte weight }
{
    if is_x(byte) {
        Bit::X
    } else if is_z(byte) {
        Bit::Z
    } else if (digit_value(byte) / weight) % 2 == 1 {
        Bit::One
    } else {
        Bit::Zero
    }
}

/// How many bits are needed up to this one, where those before it need so many.
fn needed_with(needed: usize, bit: Bit) -> usize
    requires { needed < 2 ^ 63 }
    ensures with { result ≡ needed_with needed bit }
    ensures bound { result ≤ needed + 1 }
{
    match bit {
        Bit::Zero => { if needed == 0 { 0 } else { needed + 1 } }
        Bit::One => needed + 1,
        Bit::X => needed + 1,
        Bit::Z => needed + 1,
    }
}

/// How many bits are needed up to the end of a digit of four bits, where those before it need so many.
#[tactic(auto, unfolding(crate::specs::Literals::bits_by_weight, crate::specs::Needed::needed_by))]
fn needed_by_four(needed: usize, byte: u8) -> usize
    requires { needed ≤ 32 }
    ensures by { result ≡ needed_by needed (bits_by_weight Hexadecimal byte) }
    ensures bound { result ≤ needed + 4 }
{
    let needed = needed_with(needed, bit_at(byte, 8));
    let needed = needed_with(needed, bit_at(byte, 4));
    let needed = needed_with(needed, bit_at(byte, 2));
    needed_with(needed, bit_at(byte, 1))
}

/// How many bits are needed up to the end of this digit, where those before it need so many.
#[tactic(auto, unfolding(crate::specs::Literals::digit_bits, crate::specs::Literals::bits_by_weight, crate::specs::Needed::needed_by))]
fn needed_up_to(base: Base, needed: usize, byte: u8) -> usize
    requires { needed ≤ 32 }
    ensures by { result ≡ needed_by needed (digit_bits base byte) }
    ensures bound { result ≤ needed + 4 }
{
    if byte == b'_' {
        return needed;
    }
    match base {
        Base::Binary => needed_with(needed, bit_at(byte, 1)),
        Base::Octal => {
            let needed = needed_with(needed, bit_at(byte, 4));
            let needed = needed_with(needed, bit_at(byte, 2));
            needed_with(needed, bit_at(byte, 1))
        }
        Base::Decimal => needed_by_four(needed, byte),
        Base::Hexadecimal => needed_by_four(needed, byte),
    }
}

/// Whether 32 bits are enough for the digits.
#[tactic(auto, using(crate::proofs::Bits::enough))]
fn needs_32(base: Base, digits: &[u8]) -> bool
    ensures { result ≡ nat_le (needed_len (bits_of base digits.now)) 32 }
{
    let mut so_far: usize = 0;
    let mut rest = digits;
    while !rest.is_empty() {
        so_far = needed_up_to(base, so_far, first(rest));
        if so_far > 32 {
            return false;
        }
        rest = after(rest, 1);
    }
    true
}

/// Whether a value of decimal digits is at most a number.
fn decimal_within(digits: &[u8], most: u128) -> bool
    ensures { result ≡ nat_le (decimal_value digits.now) most }
{
    match decimal_value(digits) {
        Some(value) => value <= most,
        None => false,
    }
}

/// Whether a value fits: of base d below 2^128, and without size into 32 bits.
#[tactic(auto, unfolding(crate::specs::Literals::value_holds))]
fn value_holds(size: Option<u32>, base: Base, digits: &[u8]) -> bool
    ensures { result ≡ value_holds size base digits.now }
{
    match (base, size) {
        (Base::Decimal, None) => is_single(digits) || decimal_within(digits, 0xffff_ffff),
        (Base::Decimal, Some(_)) => is_single(digits) || decimal_within(digits, u128::MAX),
        (_, Some(_)) => true,
        (Base::Binary, None) => needs_32(Base::Binary, digits),
        (Base::Octal, None) => needs_32(Base::Octal, digits),
        (Base::Hexadecimal, None) => needs_32(Base::Hexadecimal, digits),
    }
}

fn size_holds(size: Option<u32>) -> bool
    ensures { result ≡ size_holds size }
{
    match size {
        Some(size) => size >= 1 && size <= 128,
        None => true,
    }
}

/// Whether a based number has none of its faults.
#[tactic(auto, unfolding(crate::specs::Literals::holds))]
pub fn holds(size: Option<u32>, form: &Form) -> bool
    ensures { result ≡ holds size (form_view form.now) }
{
    size_holds(size)
        && digits_hold(form.base, form.digits)
        && value_holds(size, form.base, form.digits)
}
