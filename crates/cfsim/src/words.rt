//! The words of a call.

ghost use Rattle.std.specs.Prelude.{◌≡◌, ◌↔◌, is_some};
ghost use Rattle.cfsim.specs.Words.{names_file, call_of, texts};

/// Whether a word names a file: it doesn't begin with a dash.
pub fn names_file(word: &str) -> bool
    ensures { result ≡ names_file word.now }
{
    match word.as_bytes() {
        [first, ..] => *first != b'-',
        [] => true,
    }
}

/// Whether the words are a call.
pub fn is_call(words: &[String]) -> bool
    ensures { result ≡ is_some (call_of (texts words.now)) }
{
    match words {
        [netlist, vectors] => names_file(netlist.as_str()) && names_file(vectors.as_str()),
        _ => false,
    }
}
