ghost use Rattle.std.specs.Prelude.{◌≡◌, ◌≤◌, ◌<◌, ◌+◌, ◌==◌, ◌&&◌, ◌||◌, not, if◌then◌else◌, length, IfSome};
ghost use Rattle.v_lexer.specs.Gaps.{comment_end, comment_len, quoted_after, attribute_end, attribute_len};

use crate::bytes::{after, begins, first};
use crate::quoted::text_len;

/// The length up to the first `*/`, with it.
#[tactic(auto, using(crate::proofs::Lengths::lengths), unfolding(crate::specs::Gaps::comment_end))]
fn comment_end(text: &[u8]) -> Option<usize>
    ensures len { result ≡ comment_end text.now }
    ensures within { IfSome result (λ len. len ≤ length text.now) }
{
    let mut len: usize = 0;
    let mut rest = text;
    while let [_, after @ ..] = rest {
        if begins(rest, b'*', b'/') {
            return Some(len + 2);
        }
        len += 1;
        rest = after;
    }
    None
}

/// The length of a comment that begins with `/*`, where it ends.
#[tactic(auto, using(crate::proofs::Lengths::lengths))]
pub fn comment_len(text: &[u8]) -> Option<usize>
    requires { 2 ≤ length text.now }
    ensures len { result ≡ comment_len text.now }
    ensures within { IfSome result (λ len. (0 < len) × (len ≤ length text.now)) }
{
    match comment_end(after(text, 2)) {
        Some(len) => Some(2 + len),
        None => None,
    }
}

/// How many bytes after the first belong to a text in quotes that begins with it.
#[tactic(auto, using(crate::proofs::Lengths::lengths))]
fn quoted_after(text: &[u8]) -> usize
    requires { 0 < length text.now }
    ensures len { result ≡ quoted_after text.now }
    ensures within { result + 1 ≤ length text.now }
{
    if first(text) != b'"' {
        return 0;
    }
    match text_len(text) {
        Some(len) => len - 1,
        None => 0,
    }
}

/// How many bytes after the first are passed over: those of a text in quotes, where a `"` may still begin one.
fn skip_len(stray: bool, text: &[u8]) -> usize
    requires { 0 < length text.now }
    ensures len { result ≡ (if stray then 0 else quoted_after text.now) }
    ensures within { result + 1 ≤ length text.now }
{
    if stray { 0 } else { quoted_after(text) }
}

/// Whether no `"` behind a byte can begin a text on its line: one that came before began none.
fn stays_stray(stray: bool, byte: u8, inside: usize) -> bool
    ensures { result ≡ (not (byte == 10) && (stray || (byte == 34 && inside == 0))) }
{
    byte != b'\n' && (stray || (byte == b'"' && inside == 0))
}

/// The length up to the first `*)` outside a text in quotes, with it.
///
/// Where a `"` begins no text, since none ends on its line, neither does a later one there. So each
/// line is looked through at most twice.
#[tactic(auto, using(crate::proofs::Lengths::lengths), unfolding(crate::specs::Gaps::attribute_end))]
fn attribute_end(text: &[u8]) -> Option<usize>
    ensures len { result ≡ attribute_end 0 text.now }
    ensures within { IfSome result (λ len. len ≤ length text.now) }
{
    let mut len: usize = 0;
    let mut rest = text;
    let mut stray = false;
    while !rest.is_empty() {
        if begins(rest, b'*', b')') {
            return Some(len + 2);
        }
        let inside = skip_len(stray, rest);
        stray = stays_stray(stray, first(rest), inside);
        len += 1 + inside;
        rest = after(rest, 1 + inside);
    }
    None
}

/// The length of an attribute, which begins with `(*`, where it ends.
#[tactic(auto, using(crate::proofs::Lengths::lengths))]
pub fn attribute_len(text: &[u8]) -> Option<usize>
    requires { 2 ≤ length text.now }
    ensures len { result ≡ attribute_len text.now }
    ensures within { IfSome result (λ len. (0 < len) × (len ≤ length text.now)) }
{
    match attribute_end(after(text, 2)) {
        Some(len) => Some(2 + len),
        None => None,
    }
}
