use std::alloc::Global;
use std::test::Fail;
use v_lexer::tokens;
use v_parser::parse;
use v_tree::File;

/// A broken rule, by the number in its message, and the line of its first place.
#[derive(Clone, Copy, Debug, PartialEq, Eq)]
pub struct BrokenLine {
    pub rule: u8,
    pub line: u32,
}

/// What a netlist shows, its text, the choice of the top, and the rule that is answered, where one
/// is broken.
pub struct NetlistRow {
    pub shows: &'static str,
    pub text: &'static str,
    pub top: Option<&'static str>,
    pub broken: Option<BrokenLine>,
}

/// The choice of the top in bytes.
pub(crate) fn choice(row: &NetlistRow) -> Option<&'static [u8]> {
    match row.top {
        Some(name) => Some(name.as_bytes()),
        None => None,
    }
}

/// The tree of a text.
pub(crate) fn file_of(alloc: Global, text: &[u8]) -> Result<File, Fail> {
    if text.len() > 67108864 {
        return Err(Fail::new("a text of more than 64 MiB"));
    }
    let list = tokens(alloc, text)?;
    Ok(parse(alloc, text, &list)?)
}
