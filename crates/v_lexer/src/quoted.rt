ghost use Rattle.std.specs.Prelude.{◌≡◌, ◌≤◌, ◌<◌, length, IfSome};
ghost use Rattle.v_lexer.specs.Quoted.{quote_end, text_len};

use crate::bytes::after;

/// The length up to the `"` that ends a text in quotes, whose bytes after the first `"` these are.
#[tactic(auto, using(crate::proofs::Lengths::lengths), unfolding(crate::specs::Quoted::quote_end))]
fn quote_end(text: &[u8]) -> Option<usize>
    ensures len { result ≡ quote_end 34 text.now }
    ensures within { IfSome result (λ len. len ≤ length text.now) }
{
    let mut len: usize = 0;
    let mut before = b'"';
    let mut rest = text;
    while let [byte, after @ ..] = rest {
        if *byte == b'\n' {
            return None;
        }
        if *byte == b'"' && before != b'\\' {
            return Some(len + 1);
        }
        len += 1;
        before = *byte;
        rest = after;
    }
    None
}

/// The length of the text in quotes that begins at the first byte, where it ends on its line.
#[tactic(auto, using(crate::proofs::Lengths::lengths))]
pub fn text_len(text: &[u8]) -> Option<usize>
    requires { 0 < length text.now }
    ensures len { result ≡ text_len text.now }
    ensures within { IfSome result (λ len. (0 < len) × (len ≤ length text.now)) }
{
    match quote_end(after(text, 1)) {
        Some(len) => Some(1 + len),
        None => None,
    }
}
