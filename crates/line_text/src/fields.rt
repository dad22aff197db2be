ghost use Rattle.std.specs.Prelude.{◌≡◌, ◌<◌, [], ◌∷◌, length, position, not, Some, None, MatchOption, option_copied};
ghost use Rattle.line_text.specs.Fields.{is_blank, fields_of, one_of, two_of, three_of};

/// Whether a byte is a space or a tab.
pub fn is_blank(byte: u8) -> bool
    ensures { result ≡ is_blank byte }
{
    byte == b' ' || byte == b'\t'
}

/// The index of the first blank.
fn first_blank(bytes: &[u8]) -> Option<usize>
    ensures { result ≡ position is_blank bytes.now }
{
    bytes.iter().position(|byte| is_blank(*byte))
}

/// The index of the first byte that is no blank.
fn first_filled(bytes: &[u8]) -> Option<usize>
    ensures { result ≡ position (λ b. not (is_blank b)) bytes.now }
{
    bytes.iter().position(|byte| !is_blank(*byte))
}

/// The first field of a line and what stands behind it, where there is a field: a run of bytes
/// that are neither spaces nor tabs.
pub fn next_field(line: &[u8]) -> Option<(&[u8], &[u8])>
    ensures parts { MatchOption result
        (fields_of line.now ≡ [])
        (λ x. fields_of line.now ≡ x.0.now ∷ fields_of x.1.now) }
    ensures shorter { MatchOption result
        (fields_of line.now ≡ [])
        (λ x. length x.1.now < length line.now) }
{
    let start = first_filled(line)?;
    let fields = &line[start..];
    match first_blank(fields) {
        Some(end) => Some((&fields[..end], &fields[end..])),
        None => Some((fields, &fields[fields.len()..])),
    }
}

/// The field of a line that has one.
pub fn one_field(line: &[u8]) -> Option<&[u8]>
    ensures { option_copied result ≡ one_of (fields_of line.now) }
{
    let (field, rest) = next_field(line)?;
    match next_field(rest) {
        None => Some(field),
        Some(_) => None,
    }
}

/// The fields of a line that has two.
pub fn two_fields(line: &[u8]) -> Option<(&[u8], &[u8])>
    ensures { MatchOption result
        (two_of (fields_of line.now) ≡ None)
        (λ x. two_of (fields_of line.now) ≡ Some (x.0.now, x.1.now)) }
{
    let (first, rest) = next_field(line)?;
    let second = one_field(rest)?;
    Some((first, second))
}

/// The fields of a line that has three.
pub fn three_fields(line: &[u8]) -> Option<(&[u8], &[u8], &[u8])>
    ensures { MatchOption result
        (three_of (fields_of line.now) ≡ None)
        (λ x. three_of (fields_of line.now) ≡ Some (x.0.now, x.1.now, x.2.now)) }
{
    let (first, rest) = next_field(line)?;
    let (second, third) = two_fields(rest)?;
    Some((first, second, third))
}
