ghost use Rattle.std.specs.Prelude.{◌≡◌, ◌<◌, IfSome};
ghost use Rattle.line_text.specs.Numbers.{digit_of, capped_decimal, capped_number};

/// The value of a decimal digit.
fn digit_value(byte: u8) -> Option<u64>
    ensures value { result ≡ digit_of byte }
    ensures small { IfSome result (λ value. value < 10) }
{
    if byte.is_ascii_digit() {
        Some(u64::from(byte - b'0'))
    } else {
        None
    }
}

/// The number that a field says: one or more decimal digits. One of 2^64 or more counts as 2^64 - 1.
pub fn decimal(field: &[u8]) -> Option<u64>
    ensures { result ≡ capped_decimal field.now }
{
    if field.is_empty() {
        return None;
    }
    let mut number: u64 = 0;
    for byte in field {
        let value = digit_value(*byte)?;
        number = number.saturating_mul(10).saturating_add(value);
    }
    Some(number)
}

/// The number that a field says: 1 to 20 decimal digits. One of 2^64 or more counts as 2^64 - 1.
pub fn number(field: &[u8]) -> Option<u64>
    ensures { result ≡ capped_number field.now }
{
    if field.len() <= 20 {
        decimal(field)
    } else {
        None
    }
}
