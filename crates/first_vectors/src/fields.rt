ghost use Rattle.std.specs.Prelude.{◌≡◌, ◌<◌, ◌≤◌, ◌^◌, [], ◌∷◌, length, Some, None, MatchOption, IfSome, position, ◌==◌};
ghost use Rattle.first_vectors.specs.Fields.{lines_of, fields_of, two_of, digit_of, limited_after, time_of};

/// The greatest time, in ticks: 2 ^ 40.
pub const LAST_TIME: u64 = 1_099_511_627_776;

fn first_offset(bytes: &[u8], mark: u8) -> Option<usize>
    ensures { result ≡ position (λ b. b == mark) bytes.now }
{
    bytes.iter().position(|b| *b == mark)
}

/// The first line and the text behind it, where there is a line.
pub fn line_at(text: &[u8]) -> Option<(&[u8], &[u8])>
    ensures parts { MatchOption result
        (lines_of text.now ≡ [])
        (λ x. lines_of text.now ≡ x.0.now ∷ lines_of x.1.now) }
    ensures shorter { MatchOption result (text.now ≡ []) (λ x. length x.1.now < length text.now) }
{
    if text.is_empty() {
        return None;
    }
    match first_offset(text, b'\n') {
        Some(i) => Some((&text[..i], &text[i + 1..])),
        None => Some((text, &text[text.len()..])),
    }
}

/// The first field, and what stands behind the space after it, where there is one.
pub fn field_at(line: &[u8]) -> (&[u8], Option<&[u8]>)
    ensures parts { MatchOption result.1
        (fields_of line.now ≡ result.0.now ∷ [])
        (λ rest. fields_of line.now ≡ result.0.now ∷ fields_of rest.now) }
    ensures shorter { MatchOption result.1
        (line.now ≡ result.0.now)
        (λ rest. length rest.now < length line.now) }
{
    match first_offset(line, b' ') {
        Some(i) => (&line[..i], Some(&line[i + 1..])),
        None => (line, None),
    }
}

/// Both fields of a line of two fields.
pub fn two_fields(line: &[u8]) -> Option<(&[u8], &[u8])>
    ensures { MatchOption result
        (two_of (fields_of line.now) ≡ None)
        (λ x. two_of (fields_of line.now) ≡ Some (x.0.now, x.1.now)) }
{
    let (first, rest) = field_at(line);
    let (second, others) = field_at(rest?);
    match others {
        None => Some((first, second)),
        Some(_) => None,
    }
}

fn digit_value(byte: u8) -> Option<u64>
    ensures value { result ≡ digit_of byte }
    ensures small { IfSome result (λ value. value < 10) }
{
    if byte.is_ascii_digit() {
        Some(u64::from(byte - b'0'))
    } else {
        None
    }
}

fn number_of(digits: &[u8]) -> Option<u64>
    ensures value { result ≡ limited_after 0 digits.now }
    ensures small { IfSome result (λ time. time ≤ 2 ^ 40) }
{
    let mut number: u64 = 0;
    for digit in digits {
        let value = digit_value(*digit)?;
        number = number * 10 + value;
        if number > LAST_TIME {
            return None;
        }
    }
    Some(number)
}

/// The time that a field says: 1 to 20 decimal digits, at most `LAST_TIME`.
#[tactic(auto, unfolding(crate::specs::Fields::time_of))]
pub fn time_in(field: &[u8]) -> Option<u64>
    ensures value { result ≡ time_of field.now }
    ensures small { IfSome result (λ time. time ≤ 2 ^ 40) }
{
    if field.is_empty() || field.len() > 20 {
        return None;
    }
    number_of(field)
}
