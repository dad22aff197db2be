ghost use Rattle.std.specs.Prelude.{ℕ, false, drop, ◌≡◌, ◌≤◌, ◌<◌, ◌+◌, ◌^◌, ◌++◌, List, length, Ok, Err, OnOk, IfOk, IfErr};
ghost use Rattle.v_lexer.specs.declared.fault.FaultKind.{FaultKind};
ghost use Rattle.v_lexer.specs.declared.fault.LexFault.TheVariants.{Faulty, Memory};
ghost use Rattle.v_lexer.specs.declared.token.Token.{Token};
ghost use Rattle.v_lexer.specs.declared.token.Piece.{Piece};
ghost use Rattle.v_lexer.specs.Reading.{Stands, AreTokensOf, IsFaultOf, StopsAt, Rise};
ghost use Rattle.v_lexer.specs.Forms.{IsLongest};
ghost use Rattle.v_lexer.specs.Sound.{AreSound};
ghost use Rattle.v_lexer.specs.Tokens.{tokens_of_piece, lines_after, tokens_of, Gives};

use crate::fault::LexFault;
use crate::lists::TokenList;
use crate::pieces::{piece_at, table_after};
use crate::token::{Piece, Token, TokenKind};
use crate::words::ReservedWords;
use std::alloc::Global;

/// The line of what follows these bytes.
#[tactic(auto, unfolding(crate::specs::Tokens::lines_after))]
fn lines_after(line: u32, bytes: &[u8]) -> u32
    requires { line + length bytes.now < 2 ^ 32 }
    ensures line { result ≡ lines_after line bytes.now }
    ensures bound { result ≤ line + length bytes.now }
{
    let mut line = line;
    let mut rest = bytes;
    while let [byte, after @ ..] = rest {
        if *byte == b'\n' {
            line += 1;
        }
        rest = after;
    }
    line
}

/// Puts a token at the end, where the piece is one.
fn push_piece(tokens: &mut Vec<Token>, piece: Piece, at: u32, line: u32) -> Result<(), LexFault>
    requires { at + piece.len < 2 ^ 32 }
    ensures ok { OnOk result
        (tokens.new.items ≡ tokens.old.items ++ tokens_of_piece at line piece.kind piece.len) }
    ensures err { IfErr result (λ e. e ≡ Memory) }
{
    match piece.kind {
        Some(kind) => {
            tokens.push(Token {
                kind,
                start: at,
                end: at + piece.len as u32,
                line,
            })?;
            Ok(())
        }
        None => Ok(()),
    }
}

/// The tokens of a text, or its first lexical fault.
#[tactic(auto, unfolding(crate::specs::Tokens::tokens_of))]
fn read_tokens(alloc: Global, text: &[u8]) -> Result<TokenList, LexFault>
    requires { length text.now ≤ 67108864 }
    ensures { Gives (λ tokens. tokens) result (tokens_of text.now) }
{
    let words = ReservedWords::new(alloc)?;
    let mut tokens = Vec::new(alloc);
    let mut rest = text;
    let mut at: u32 = 0;
    let mut line: u32 = 1;
    let mut table = false;
    while !rest.is_empty() {
        let piece = match piece_at(&words, table, rest) {
            Ok(piece) => piece,
            Err(kind) => return Err(LexFault::Faulty(kind, u64::from(line))),
        };
        push_piece(&mut tokens, piece, at, line)?;
        table = table_after(table, piece, rest);
        let (front, back) = rest.split_at(piece.len);
        line = lines_after(line, front);
        at += piece.len as u32;
        rest = back;
    }
    tokens.push(Token {
        kind: TokenKind::End,
        start: at,
        end: at,
        line,
    })?;
    Ok(TokenList::from_vec(tokens))
}

/// The tokens of a text of at most 64 MiB, the last of which is its end.
///
/// A token is the longest form at its offset. Its offsets count bytes from 0, its line from 1. The
/// error is the first lexical fault of the text; `Memory` says nothing of the text.
pub fn tokens(alloc: Global, text: &[u8]) -> Result<TokenList, LexFault>
    requires { length text.now ≤ 67108864 }
    // The tokens or the fault that the definition gives.
    ensures exact { Gives (λ tokens. tokens) result (tokens_of text.now) }
    // The text is these tokens, with blanks, comments and attributes between them.
    ensures found { IfOk result (λ tokens. AreTokensOf text.now tokens) }
    // There is no other list of tokens that the text is.
    ensures only { (tokens : List Token) → AreTokensOf text.now tokens
        → Gives (λ tokens. tokens) result (Ok tokens) }
    // Tokens don't overlap.
    ensures rising { IfOk result (λ tokens. Rise 0 tokens) }
    // Each lies in the text, and its bytes are what its kind says: each based number has its bits,
    // each number its value. The last is the end of the text, and no other is.
    ensures sound { IfOk result (λ tokens. AreSound text.now tokens) }
    // Outside tables no longer form of a token stands at the offset of one, or of a gap.
    ensures longest { (at : ℕ) (piece : Piece) → Stands text.now false at piece
        → IsLongest (drop at text.now) piece.len }
    // The fault is the first, and has its line.
    ensures fault { IfErr result (λ fault. IsFaultOf text.now fault) }
    // Where the text has a first lexical fault, that is what is answered, unless memory runs out.
    ensures fault_only { (wrong : FaultKind) (line : ℕ) → StopsAt text.now wrong line
        → Gives (λ tokens. tokens) result (Err (Faulty wrong line)) }
{
    read_tokens(alloc, text)
}
