ghost use Rattle.std.specs.Prelude.{◌≡◌, ◌≤◌, ◌<◌, IsTrue, length, take, drop};
ghost use Rattle.v_lexer.specs.Bytes.{is_letter, is_name_byte, is_number_byte, is_literal_byte, is_blank, is_visible, is_in_line, name_run, digit_run, number_run, literal_run, blank_run, visible_run, line_run, first, begins};

pub fn is_letter(byte: u8) -> bool
    ensures { result ≡ is_letter byte }
{
    byte.is_ascii_alphabetic() || byte == b'_'
}

pub fn is_name_byte(byte: u8) -> bool
    ensures { result ≡ is_name_byte byte }
{
    byte.is_ascii_alphanumeric() || byte == b'_' || byte == b'$'
}

fn is_number_byte(byte: u8) -> bool
    ensures { result ≡ is_number_byte byte }
{
    byte.is_ascii_digit() || byte == b'_'
}

fn is_literal_byte(byte: u8) -> bool
    ensures { result ≡ is_literal_byte byte }
{
    byte.is_ascii_alphanumeric() || byte == b'_' || byte == b'?'
}

pub fn is_blank(byte: u8) -> bool
    ensures { result ≡ is_blank byte }
{
    byte == b' ' || byte == b'\t' || byte == b'\n' || byte == b'\r' || byte == 12
}

/// Whether a byte is from `!` to `~`.
pub fn is_visible(byte: u8) -> bool
    ensures { result ≡ is_visible byte }
{
    byte > 32 && byte < 127
}

fn is_in_line(byte: u8) -> bool
    ensures { result ≡ is_in_line byte }
{
    byte != b'\n'
}

/// How many bytes at the front are letters, digits, `_` or `$`.
pub fn name_run(text: &[u8]) -> usize
    ensures len { result ≡ name_run text.now }
    ensures within { result ≤ length text.now }
{
    text.iter().take_while(|byte| is_name_byte(**byte)).count()
}

/// How many bytes at the front are digits.
pub fn digit_run(text: &[u8]) -> usize
    ensures len { result ≡ digit_run text.now }
    ensures within { result ≤ length text.now }
{
    text.iter().take_while(|byte| byte.is_ascii_digit()).count()
}

/// How many bytes at the front are digits or `_`.
pub fn number_run(text: &[u8]) -> usize
    ensures len { result ≡ number_run text.now }
    ensures within { result ≤ length text.now }
{
    text.iter()
        .take_while(|byte| is_number_byte(**byte))
        .count()
}

/// How many bytes at the front are letters, digits, `_` or `?`.
pub fn literal_run(text: &[u8]) -> usize
    ensures len { result ≡ literal_run text.now }
    ensures within { result ≤ length text.now }
{
    text.iter()
        .take_while(|byte| is_literal_byte(**byte))
        .count()
}

/// How many bytes at the front are blanks.
pub fn blank_run(text: &[u8]) -> usize
    ensures len { result ≡ blank_run text.now }
    ensures within { result ≤ length text.now }
{
    text.iter().take_while(|byte| is_blank(**byte)).count()
}

/// How many bytes at the front are from `!` to `~`.
pub fn visible_run(text: &[u8]) -> usize
    ensures len { result ≡ visible_run text.now }
    ensures within { result ≤ length text.now }
{
    text.iter().take_while(|byte| is_visible(**byte)).count()
}

/// How many bytes stand before the first line feed.
pub fn line_run(text: &[u8]) -> usize
    ensures len { result ≡ line_run text.now }
    ensures within { result ≤ length text.now }
{
    text.iter().take_while(|byte| is_in_line(**byte)).count()
}

/// The first byte, or 0 where there is none.
pub fn first(text: &[u8]) -> u8
    ensures { result ≡ first text.now }
{
    match text {
        [] => 0,
        [byte, ..] => *byte,
    }
}

/// Whether these are the first two bytes.
pub fn begins(text: &[u8], a: u8, b: u8) -> bool
    requires { 0 < b }
    ensures begins { result ≡ begins a b text.now }
    ensures long { IsTrue result → 2 ≤ length text.now }
{
    match text {
        [x, y, ..] => *x == a && *y == b,
        _ => false,
    }
}

/// The text without its first bytes, as many as the number.
pub fn after(text: &[u8], len: usize) -> &[u8]
    ensures { result.now ≡ drop len text.now }
{
    if len <= text.len() {
        let (_, rest) = text.split_at(len);
        rest
    } else {
        &[]
    }
}

/// The first bytes of the text, as many as the number.
pub fn before(text: &[u8], len: usize) -> &[u8]
    ensures { result.now ≡ take len text.now }
{
    if len <= text.len() {
        let (front, _) = text.split_at(len);
        front
    } else {
        text
    }
}
