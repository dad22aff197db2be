/// What a token is.
#[derive(Clone, Copy, Debug, PartialEq, Eq)]
pub enum TokenKind {
    /// A letter or `_`, then letters, digits, `_` and `$`, and no reserved word; or a `\` and bytes
    /// from `!` to `~`.
    Name,
    /// A reserved word.
    Word,
    /// Digits and `_`, with a value below 2^31.
    Number,
    /// Digits, `.` and digits.
    Decimal,
    /// A number or a decimal, `e` or `E`, an optional sign, and digits.
    Exponent,
    /// A based number, with a size or without one.
    Based,
    /// A text in quotes.
    Text,
    /// A backquote and the bytes of a name.
    Directive,
    /// One byte inside a table.
    Symbol,
    /// One byte that begins none of the others.
    Mark,
    /// The end of the text.
    End,
}

/// A token: what it is, the offsets of its first byte and of the byte after it, counted from 0, and
/// the line of its first byte, counted from 1.
#[derive(Clone, Copy, Debug, PartialEq, Eq)]
pub struct Token {
    pub kind: TokenKind,
    pub start: u32,
    pub end: u32,
    pub line: u32,
}

/// What stands at the front of a text, with its length: a token of a kind, or blanks, a comment or
/// an attribute.
#[derive(Clone, Copy)]
pub struct Piece {
    pub kind: Option<TokenKind>,
    pub len: usize,
}
