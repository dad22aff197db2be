ghost use Rattle.std.specs.Prelude.{◌≡◌, ◌≤◌, ◌<◌, ◌^◌, length, MatchOption};
ghost use Rattle.v_lexer.specs.Numbers.{value_with, value_after, decimal_value, decimal_len, sign_len, exponent_head, exponent_len};

use crate::bytes::{after, digit_run, first};

/// A value with one more decimal digit behind it, where it is below 2^128. `_` is passed over.
fn value_with(value: u128, byte: u8) -> Option<u128>
    ensures { MatchOption result (2 ^ 128 ≤ value_with value byte)
        (λ v. v ≡ value_with value byte) }
{
    if byte == b'_' {
        return Some(value);
    }
    match value.checked_mul(10) {
        Some(tens) => tens.checked_add(u128::from(byte.saturating_sub(b'0'))),
        None => None,
    }
}

/// The value of decimal digits, among which `_` may stand, where it is below 2^128.
#[tactic(auto, using(crate::proofs::Growth::values), unfolding(crate::specs::Numbers::value_after))]
pub fn decimal_value(digits: &[u8]) -> Option<u128>
    ensures { MatchOption result (2 ^ 128 ≤ decimal_value digits.now)
        (λ value. value ≡ decimal_value digits.now) }
{
    let mut value: u128 = 0;
    let mut rest = digits;
    while let [byte, after @ ..] = rest {
        match value_with(value, *byte) {
            Some(more) => value = more,
            None => return None,
        }
        rest = after;
    }
    Some(value)
}

/// The value of a number, where it is below 2^31.
pub fn small_value(digits: &[u8]) -> Option<u32>
    ensures { MatchOption result (2147483648 ≤ decimal_value digits.now)
        (λ value. (value ≡ decimal_value digits.now) × (value < 2147483648)) }
{
    match decimal_value(digits) {
        Some(value) => {
            if value < 0x8000_0000 {
                Some(value as u32)
            } else {
                None
            }
        }
        None => None,
    }
}

/// The length of digits, `.` and digits, or 0.
#[tactic(auto, unfolding(crate::specs::Numbers::decimal_len))]
pub fn decimal_len(text: &[u8]) -> usize
    ensures len { result ≡ decimal_len text.now }
    ensures within { result ≤ length text.now }
{
    let whole = digit_run(text);
    let part = digit_run(after(text, whole + 1));
    if first(after(text, whole)) == b'.' && part > 0 {
        whole + 1 + part
    } else {
        0
    }
}

/// The length of a sign, or 0.
fn sign_len(text: &[u8]) -> usize
    ensures { result ≡ sign_len text.now }
{
    if first(text) == b'+' || first(text) == b'-' {
        1
    } else {
        0
    }
}

/// The length of `e` or `E`, an optional sign and digits, or 0.
#[tactic(auto, unfolding(crate::specs::Numbers::exponent_len))]
pub fn exponent_len(text: &[u8]) -> usize
    ensures len { result ≡ exponent_len text.now }
    ensures within { result ≤ length text.now }
{
    let head = 1 + sign_len(after(text, 1));
    let digits = digit_run(after(text, head));
    if (first(text) == b'e' || first(text) == b'E') && digits > 0 {
        head + digits
    } else {
        0
    }
}
