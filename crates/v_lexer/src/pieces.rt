ghost use Rattle.std.specs.Prelude.{◌≡◌, ◌≤◌, ◌<◌, ◌+◌, length, IsTrue, IfOk};
ghost use Rattle.v_lexer.specs.Pieces.{is_word, mark_at, slash_at, open_at, quote_at, escaped_at, directive_at, name_at, literal_at, exponent_at, quote_offset, whole_at, number_at, plain_at, is_symbol, is_table_end, row_at, piece_at, is_table_word, table_after};
ghost use Rattle.std.specs.Char.{is_ascii_digit};
ghost use Rattle.v_lexer.specs.Bytes.{first, is_letter};

use crate::bytes::{
    after, before, begins, blank_run, first, is_blank, is_letter, is_name_byte, is_visible,
    line_run, name_run, number_run, visible_run,
};
use crate::fault::FaultKind;
use crate::gaps::{attribute_len, comment_len};
use crate::literals::{form_at, holds};
use crate::numbers::{decimal_len, exponent_len, small_value};
use crate::quoted::text_len;
use crate::token::{Piece, TokenKind};
use crate::words::ReservedWords;

fn token(kind: TokenKind, len: usize) -> Result<Piece, FaultKind>
    ensures { result ≡ Ok (record { kind = Some kind; len = len }) }
{
    Ok(Piece {
        kind: Some(kind),
        len,
    })
}

fn gap(len: usize) -> Result<Piece, FaultKind>
    ensures { result ≡ Ok (record { kind = None; len = len }) }
{
    Ok(Piece { kind: None, len })
}

#[tactic(auto, unfolding(crate::specs::Pieces::mark_at))]
fn mark_at(text: &[u8]) -> Result<Piece, FaultKind>
    requires { 0 < length text.now }
    ensures at { result ≡ mark_at text.now }
    ensures within { IfOk result (λ piece. (0 < piece.len) × (piece.len ≤ length text.now)) }
{
    if is_visible(first(text)) {
        token(TokenKind::Mark, 1)
    } else {
        Err(FaultKind::BadByte)
    }
}

/// A comment, or the other.
#[tactic(auto, unfolding(crate::specs::Pieces::slash_at))]
fn slash_at(other: Result<Piece, FaultKind>, text: &[u8]) -> Result<Piece, FaultKind>
    requires some { 0 < length text.now }
    requires other { IfOk other (λ piece. (0 < piece.len) × (piece.len ≤ length text.now)) }
    ensures at { result ≡ slash_at other text.now }
    ensures within { IfOk result (λ piece. (0 < piece.len) × (piece.len ≤ length text.now)) }
{
    if begins(text, b'/', b'/') {
        gap(line_run(text))
    } else if begins(text, b'/', b'*') {
        match comment_len(text) {
            Some(len) => gap(len),
            None => Err(FaultKind::OpenComment),
        }
    } else {
        other
    }
}

/// An attribute, or the mark `(`.
#[tactic(auto, unfolding(crate::specs::Pieces::open_at))]
fn open_at(text: &[u8]) -> Result<Piece, FaultKind>
    requires { 0 < length text.now }
    ensures at { result ≡ open_at text.now }
    ensures within { IfOk result (λ piece. (0 < piece.len) × (piece.len ≤ length text.now)) }
{
    if begins(text, b'(', b'*') && first(after(text, 2)) != b')' {
        match attribute_len(text) {
            Some(len) => gap(len),
            None => Err(FaultKind::OpenComment),
        }
    } else {
        token(TokenKind::Mark, 1)
    }
}

#[tactic(auto, unfolding(crate::specs::Pieces::quote_at))]
fn quote_at(text: &[u8]) -> Result<Piece, FaultKind>
    requires { 0 < length text.now }
    ensures at { result ≡ quote_at text.now }
    ensures within { IfOk result (λ piece. (0 < piece.len) × (piece.len ≤ length text.now)) }
{
    match text_len(text) {
        Some(len) => token(TokenKind::Text, len),
        None => Err(FaultKind::OpenString),
    }
}

#[tactic(auto, unfolding(crate::specs::Pieces::escaped_at))]
fn escaped_at(text: &[u8]) -> Result<Piece, FaultKind>
    requires { 0 < length text.now }
    ensures at { result ≡ escaped_at text.now }
    ensures within { IfOk result (λ piece. (0 < piece.len) × (piece.len ≤ length text.now)) }
{
    let len = visible_run(after(text, 1));
    if len > 0 {
        token(TokenKind::Name, 1 + len)
    } else {
        Err(FaultKind::BadByte)
    }
}

#[tactic(auto, unfolding(crate::specs::Pieces::directive_at))]
fn directive_at(text: &[u8]) -> Result<Piece, FaultKind>
    requires { 0 < length text.now }
    ensures at { result ≡ directive_at text.now }
    ensures within { IfOk result (λ piece. (0 < piece.len) × (piece.len ≤ length text.now)) }
{
    let name = after(text, 1);
    if is_letter(first(name)) {
        token(TokenKind::Directive, 1 + name_run(name))
    } else {
        Err(FaultKind::BadByte)
    }
}

#[tactic(auto, using(crate::proofs::Fronts::fronts), unfolding(crate::specs::Pieces::name_at))]
fn name_at(words: &ReservedWords, text: &[u8]) -> Result<Piece, FaultKind>
    requires { IsTrue (is_letter (first text.now)) }
    ensures at { result ≡ name_at text.now }
    ensures within { IfOk result (λ piece. (0 < piece.len) × (piece.len ≤ length text.now)) }
{
    let len = name_run(text);
    if words.contains(before(text, len)) {
        token(TokenKind::Word, len)
    } else {
        token(TokenKind::Name, len)
    }
}

/// A based number whose `'` stands at the offset, and whose size is known.
#[tactic(auto, unfolding(crate::specs::Pieces::literal_with))]
fn literal_at(size: Option<u32>, offset: usize, text: &[u8]) -> Result<Piece, FaultKind>
    requires { offset ≤ length text.now }
    ensures at { result ≡ literal_at size offset text.now }
    ensures within { IfOk result (λ piece. (0 < piece.len) × (piece.len ≤ length text.now)) }
{
    match form_at(after(text, offset)) {
        Some(form) => {
            if holds(size, &form) {
                token(TokenKind::Based, offset + form.len)
            } else {
                Err(FaultKind::BadNumber)
            }
        }
        None => Err(FaultKind::BadNumber),
    }
}

/// A number or a decimal of a length, or the exponent that begins with it.
#[tactic(auto, unfolding(crate::specs::Pieces::exponent_at))]
fn exponent_at(kind: TokenKind, len: usize, text: &[u8]) -> Result<Piece, FaultKind>
    requires some { 0 < len }
    requires within { len ≤ length text.now }
    ensures at { result ≡ exponent_at kind len text.now }
    ensures within { IfOk result (λ piece. (0 < piece.len) × (piece.len ≤ length text.now)) }
{
    let exponent = exponent_len(after(text, len));
    if exponent > 0 {
        token(TokenKind::Exponent, len + exponent)
    } else {
        token(kind, len)
    }
}

/// What begins with a number of a length.
#[tactic(auto, unfolding(crate::specs::Pieces::whole_at))]
fn whole_at(len: usize, text: &[u8]) -> Result<Piece, FaultKind>
    requires some { 0 < len }
    requires within { len ≤ length text.now }
    ensures at { result ≡ whole_at len text.now }
    ensures within { IfOk result (λ piece. (0 < piece.len) × (piece.len ≤ length text.now)) }
{
    let offset = len + blank_run(after(text, len));
    match small_value(before(text, len)) {
        None => Err(FaultKind::BadNumber),
        Some(size) => {
            if first(after(text, offset)) == b'\'' {
                literal_at(Some(size), offset, text)
            } else {
                exponent_at(TokenKind::Number, len, text)
            }
        }
    }
}

/// What begins with a digit.
#[tactic(auto, using(crate::proofs::Fronts::fronts), unfolding(crate::specs::Pieces::number_at))]
fn number_at(text: &[u8]) -> Result<Piece, FaultKind>
    requires { IsTrue (is_ascii_digit (first text.now)) }
    ensures at { result ≡ number_at text.now }
    ensures within { IfOk result (λ piece. (0 < piece.len) × (piece.len ≤ length text.now)) }
{
    let len = decimal_len(text);
    if len > 0 {
        exponent_at(TokenKind::Decimal, len, text)
    } else {
        whole_at(number_run(text), text)
    }
}

/// What stands at the front of a text outside tables.
#[tactic(auto, using(crate::proofs::Fronts::fronts), unfolding(crate::specs::Pieces::plain_at))]
fn plain_at(words: &ReservedWords, text: &[u8]) -> Result<Piece, FaultKind>
    requires { 0 < length text.now }
    ensures at { result ≡ plain_at text.now }
    ensures within { IfOk result (λ piece. (0 < piece.len) × (piece.len ≤ length text.now)) }
{
    let byte = first(text);
    if is_blank(byte) {
        gap(blank_run(text))
    } else if is_letter(byte) {
        name_at(words, text)
    } else if byte.is_ascii_digit() {
        number_at(text)
    } else if byte == b'/' {
        slash_at(token(TokenKind::Mark, 1), text)
    } else if byte == b'(' {
        open_at(text)
    } else if byte == b'"' {
        quote_at(text)
    } else if byte == b'\\' {
        escaped_at(text)
    } else if byte == b'`' {
        directive_at(text)
    } else if byte == b'\'' {
        literal_at(None, 0, text)
    } else {
        mark_at(text)
    }
}

/// Whether a byte is a symbol of tables.
#[tactic(auto, unfolding(crate::specs::Pieces::is_symbol, crate::specs::Pieces::symbols))]
fn is_symbol(byte: u8) -> bool
    ensures { result ≡ is_symbol byte }
{
    b"01xX?bBrRfFpPnN*-():;"
        .iter()
        .any(|symbol| byte == *symbol)
}

/// Whether the word `endtable` is at the front.
#[tactic(auto, unfolding(crate::specs::Pieces::is_table_end))]
fn is_table_end(text: &[u8]) -> bool
    ensures is { result ≡ is_table_end text.now }
    ensures long { IsTrue result → 8 ≤ length text.now }
{
    before(text, 8) == b"endtable".as_slice() && !is_name_byte(first(after(text, 8)))
}

/// What stands at the front of a text inside a table.
#[tactic(auto, using(crate::proofs::Fronts::fronts), unfolding(crate::specs::Pieces::row_at))]
fn row_at(text: &[u8]) -> Result<Piece, FaultKind>
    requires { 0 < length text.now }
    ensures at { result ≡ row_at text.now }
    ensures within { IfOk result (λ piece. (0 < piece.len) × (piece.len ≤ length text.now)) }
{
    let byte = first(text);
    if is_blank(byte) {
        gap(blank_run(text))
    } else if is_symbol(byte) {
        token(TokenKind::Symbol, 1)
    } else if byte == b'/' {
        slash_at(Err(FaultKind::BadByte), text)
    } else if is_table_end(text) {
        token(TokenKind::Word, 8)
    } else {
        Err(FaultKind::BadByte)
    }
}

/// What stands at the front of a text, inside a table or outside.
#[tactic(auto, unfolding(crate::specs::Pieces::piece_at))]
pub fn piece_at(words: &ReservedWords, table: bool, text: &[u8]) -> Result<Piece, FaultKind>
    requires { 0 < length text.now }
    ensures at { result ≡ piece_at table text.now }
    ensures within { IfOk result (λ piece. (0 < piece.len) × (piece.len ≤ length text.now)) }
{
    if table {
        row_at(text)
    } else {
        plain_at(words, text)
    }
}

/// Whether a kind is that of reserved words.
fn is_word(kind: Option<TokenKind>) -> bool
    ensures { result ≡ is_word kind }
{
    matches!(kind, Some(TokenKind::Word))
}

#[tactic(auto, unfolding(crate::specs::Pieces::is_table_word))]
fn is_table_word(word: &[u8]) -> bool
    ensures { result ≡ is_table_word word.now }
{
    word == b"table".as_slice()
}

/// Whether what comes after a token or a gap is inside a table.
#[tactic(auto, unfolding(crate::specs::Pieces::table_after))]
pub fn table_after(table: bool, piece: Piece, text: &[u8]) -> bool
    ensures { result ≡ table_after table piece text.now }
{
    if is_word(piece.kind) {
        !table && is_table_word(before(text, piece.len))
    } else {
        table
    }
}
