ghost use Rattle.std.specs.Prelude.{◌≡◌, ◌+◌, ◌<◌, ◌≤◌, ◌^◌, [], ◌∷◌, length, position, MatchOption, ◌==◌};
ghost use Rattle.std.specs.Str.Lines.{lines, strip_carriage_return};
ghost use Rattle.line_text.specs.Lines.{is_passed_over, lines_behind};

use crate::fields::next_field;

/// A line that isn't passed over: its number, counted from 1 over all lines of its text, its bytes
/// without the line feed and a carriage return directly before it, and the text behind it.
#[derive(Clone, Copy)]
pub struct Line<'a> {
    pub number: u64,
    pub bytes: &'a [u8],
    pub rest: &'a [u8],
}

/// The line without the carriage return at its end, if it has one.
fn without_return(line: &[u8]) -> &[u8]
    ensures { result.now ≡ strip_carriage_return line.now }
{
    match line {
        [front @ .., b'\r'] => front,
        _ => line,
    }
}

/// The index of the first line feed.
fn first_feed(bytes: &[u8]) -> Option<usize>
    ensures { result ≡ position (λ b. b == 10) bytes.now }
{
    bytes.iter().position(|byte| *byte == b'\n')
}

/// The first line and the text behind it, where there is a line.
fn line_at(text: &[u8]) -> Option<(&[u8], &[u8])>
    ensures parts { MatchOption result
        (lines text.now ≡ [])
        (λ x. lines text.now ≡ x.0.now ∷ lines x.1.now) }
    ensures shorter { MatchOption result
        (text.now ≡ [])
        (λ x. length x.1.now < length text.now) }
{
    if text.is_empty() {
        return None;
    }
    match first_feed(text) {
        Some(end) => Some((without_return(&text[..end]), &text[end + 1..])),
        None => Some((text, &text[text.len()..])),
    }
}

/// Whether a line is passed over: it has blanks alone, or begins with `//` behind them.
fn is_passed_over(line: &[u8]) -> bool
    ensures { result ≡ is_passed_over line.now }
{
    match next_field(line) {
        None => true,
        Some((field, _)) => field.starts_with(b"//"),
    }
}

/// The first line of a text that isn't passed over, where so many lines stand before the text. None
/// where all lines are passed over.
pub fn next_line(before: u64, text: &[u8]) -> Option<Line<'_>>
    requires { before + length text.now < 2 ^ 64 }
    ensures parts { MatchOption result
        (lines_behind before text.now ≡ [])
        (λ line. lines_behind before text.now
        ≡ (line.number, line.bytes.now) ∷ lines_behind line.number line.rest.now) }
    ensures shorter { MatchOption result
        (lines_behind before text.now ≡ [])
        (λ line. (length line.rest.now < length text.now)
        × (line.number + length line.rest.now ≤ before + length text.now)) }
{
    let mut number = before;
    let mut rest = text;
    while let Some((bytes, behind)) = line_at(rest) {
        number += 1;
        rest = behind;
        if !is_passed_over(bytes) {
            return Some(Line {
                number,
                bytes,
                rest,
            });
        }
    }
    None
}

/// How many lines a text has, those that are passed over among them.
pub fn line_count(text: &[u8]) -> u64
    ensures { result ≡ length (lines text.now) }
{
    let mut count: u64 = 0;
    let mut rest = text;
    while let Some((_, behind)) = line_at(rest) {
        count += 1;
        rest = behind;
    }
    count
}
