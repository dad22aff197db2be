//! A cursor over the tokens of a text.

ghost use Rattle.std.specs.Prelude.{◌≡◌, ◌<◌, is_some, IfOk, ◌^◌, length, take, drop, ◌-◌};
ghost use Rattle.v_lexer.specs.declared.token.TokenKind.TheVariants.{End};
ghost use Rattle.v_tree.specs.Written.{lower};
ghost use Rattle.v_lexer.specs.Bytes.{first};
ghost use Rattle.std.specs.Option.{option_copied};
ghost use Rattle.std.specs.Str.{bytes_eq};
ghost use Rattle.v_parser.specs.Input as spec;
ghost use Rattle.v_parser.specs.Input.{Reads};
ghost use Rattle.v_parser.specs.Drives.{amount_in, amount};

use crate::fault::ParseFault;
use byte_lists::Bytes;
use std::alloc::{AllocError, Global};
use std::marker::Model;
use v_lexer::{
    Literal, Token, TokenKind, decimal_digits, is_left_out_word, is_literal, literal_value,
    name_text, number_value,
};
use v_tree::{Amount, Location, Name};

/// The tokens that are left, and the text that they stand in.
#[derive(Drop)]
pub struct Cursor<'a> {
    alloc: Global,
    text: &'a [u8],
    tokens: &'a [Token],
    number: u32,
}

impl<'a> Model for Cursor<'a> {
    ghost use Rattle.v_parser.specs.Input.{Input};

    ghost Value = { Input };

    ghost use Rattle.v_parser.specs.Cursor.{input_of, HasNumbers};

    ghost view = { input_of };

    ghost invariant = { HasNumbers };
}

/// The bytes from one offset to another, as far as they lie in the text.
fn slice(text: &[u8], start: usize, end: usize) -> &[u8]
    ensures { result.now ≡ take (end - start) (drop start text.now) }
{
    let (_, rest) = text.split_at(start.min(text.len()));
    let (front, _) = rest.split_at(end.saturating_sub(start).min(rest.len()));
    front
}

/// Whether a word is this one.
pub fn is(word: &[u8], name: &[u8]) -> bool
    ensures { result ≡ bytes_eq word.now name.now }
{
    word == name
}

/// The first byte, or 0.
fn first(bytes: &[u8]) -> u8
    ensures { result ≡ first bytes.now }
{
    match bytes {
        [byte, ..] => *byte,
        [] => 0,
    }
}

/// A capital as a small letter, another byte as it is.
fn lower(byte: u8) -> u8
    ensures { result ≡ lower byte }
{
    if byte < b'A' {
        byte
    } else if b'Z' < byte {
        byte
    } else {
        byte + 32
    }
}

/// Whether a token of a kind belongs to what the grammar leaves out.
fn is_left_out(kind: TokenKind, bytes: &[u8]) -> bool
    ensures { result ≡ spec.is_left_out kind bytes.now }
{
    match kind {
        TokenKind::Directive | TokenKind::Decimal | TokenKind::Exponent => true,
        TokenKind::Word => is_left_out_word(bytes),
        _ => false,
    }
}

/// A copy of bytes.
fn copy_of(alloc: Global, bytes: &[u8]) -> Result<Bytes, AllocError>
    ensures { IfOk result (λ copy. copy ≡ bytes.now) }
{
    Ok(Bytes::from_vec(bytes.to_vec(alloc)?))
}

#[tactic(auto, unfolding(crate::specs::Input::front, crate::specs::Input::location, crate::specs::Input::next, crate::specs::Input::kind_of, crate::specs::Input::bytes, crate::specs::Input::refusal, crate::specs::Input::mark, crate::specs::Input::skip, crate::specs::Input::word, crate::specs::Input::skip_word, crate::specs::Input::skip_symbol, crate::specs::Input::finish, crate::specs::Input::name, crate::specs::Input::number, crate::specs::Input::placed_number, crate::specs::Input::placed_based, crate::specs::Input::directive_word, crate::specs::Drives::amount, v_tree::specs::Written::form_of))]
impl<'a> Cursor<'a> {
    /// All tokens of a text.
    pub fn new(alloc: Global, text: &'a [u8], tokens: &'a [Token]) -> Cursor<'a>
        requires { length tokens.now < 2 ^ 32 }
        ensures { result ≡ record { text = text.now; tokens = tokens.now; number = 0 } }
    {
        Cursor {
            alloc,
            text,
            tokens,
            number: 0,
        }
    }

    /// What kind the next token is: the end, where no token is left.
    fn kind(&self) -> TokenKind
        ensures { result ≡ spec.kind_of self.now }
    {
        match self.tokens {
            [token, ..] => token.kind,
            [] => TokenKind::End,
        }
    }

    /// The bytes of the next token.
    fn bytes(&self) -> &'a [u8]
        ensures { result.now ≡ spec.bytes self.now }
    {
        match self.tokens {
            [token, ..] => slice(self.text, token.start as usize, token.end as usize),
            [] => &[],
        }
    }

    /// Where the next token stands.
    pub fn location(&self) -> Location
        ensures { result ≡ spec.location self.now }
    {
        let line = match self.tokens {
            [token, ..] => token.line,
            [] => 0,
        };
        Location {
            line,
            token: self.number,
        }
    }

    /// Goes on to the token after the next.
    pub fn advance(&mut self)
        ensures { self.new ≡ spec.next self.old }
    {
        if let [_, rest @ ..] = self.tokens {
            self.tokens = rest;
            self.number += 1;
        }
    }

    /// Whether the next token is this mark.
    pub fn sees_mark(&self, byte: u8) -> bool
        ensures { result ≡ spec.is_mark byte (spec.front self.now) }
    {
        match self.tokens {
            [token, ..] if token.kind == TokenKind::Mark => first(self.bytes()) == byte,
            _ => false,
        }
    }

    /// Whether the next token is this word.
    pub fn sees_word(&self, word: &[u8]) -> bool
        ensures { result ≡ spec.is_word word.now (spec.front self.now) }
    {
        match self.tokens {
            [token, ..] if token.kind == TokenKind::Word => is(self.bytes(), word),
            _ => false,
        }
    }

    /// The next token's bytes, where it is a reserved word.
    pub fn seen_word(&self) -> Option<&'a [u8]>
        ensures { option_copied result ≡ spec.word_in (spec.front self.now) }
    {
        if self.kind() == TokenKind::Word {
            Some(self.bytes())
        } else {
            None
        }
    }

    /// The next token's text, where it is a name.
    pub fn seen_name(&self) -> Option<&'a [u8]>
        ensures { option_copied result ≡ spec.name_in (spec.front self.now) }
    {
        if self.kind() == TokenKind::Name {
            Some(name_text(self.bytes()))
        } else {
            None
        }
    }

    /// The next token's bytes, where it is a directive.
    pub fn seen_directive(&self) -> Option<&'a [u8]>
        ensures { option_copied result ≡ spec.directive_in (spec.front self.now) }
    {
        if self.kind() == TokenKind::Directive {
            Some(self.bytes())
        } else {
            None
        }
    }

    /// The next token's symbol of a table, where it is one.
    pub fn seen_symbol(&self) -> Option<u8>
        ensures { result ≡ spec.symbol_in (spec.front self.now) }
    {
        if self.kind() == TokenKind::Symbol {
            Some(lower(first(self.bytes())))
        } else {
            None
        }
    }

    /// Whether the next token is this symbol.
    pub fn sees_symbol(&self, byte: u8) -> bool
        ensures { result ≡ spec.is_symbol byte (spec.front self.now) }
    {
        match self.tokens {
            [token, ..] if token.kind == TokenKind::Symbol => lower(first(self.bytes())) == byte,
            _ => false,
        }
    }

    /// Whether the next token belongs to what the grammar leaves out.
    fn is_unsupported(&self) -> bool
        ensures { result ≡ spec.is_unsupported_in self.now.text self.now.tokens }
    {
        match self.tokens {
            [token, ..] => is_left_out(token.kind, self.bytes()),
            [] => false,
        }
    }

    /// Why the next token is refused.
    pub fn refuse(&self) -> ParseFault
        ensures { result ≡ spec.refusal self.now }
    {
        if self.is_unsupported() {
            ParseFault::Unsupported(self.number)
        } else {
            ParseFault::Syntax(self.number)
        }
    }

    /// A mark, with its location.
    pub fn mark(&mut self, byte: u8) -> Result<Location, ParseFault>
        ensures { Reads (spec.mark byte self.old) result self.new }
    {
        if self.sees_mark(byte) {
            let location = self.location();
            self.advance();
            Ok(location)
        } else {
            Err(self.refuse())
        }
    }

    /// A mark.
    pub fn skip(&mut self, byte: u8) -> Result<(), ParseFault>
        ensures { Reads (spec.skip byte self.old) result self.new }
    {
        if self.sees_mark(byte) {
            self.advance();
            Ok(())
        } else {
            Err(self.refuse())
        }
    }

    /// A symbol of a table.
    pub fn skip_symbol(&mut self, byte: u8) -> Result<(), ParseFault>
        ensures { Reads (spec.skip_symbol byte self.old) result self.new }
    {
        if self.sees_symbol(byte) {
            self.advance();
            Ok(())
        } else {
            Err(self.refuse())
        }
    }

    /// A word, with its location.
    pub fn word(&mut self, word: &[u8]) -> Result<Location, ParseFault>
        ensures { Reads (spec.word word.now self.old) result self.new }
    {
        if self.sees_word(word) {
            let location = self.location();
            self.advance();
            Ok(location)
        } else {
            Err(self.refuse())
        }
    }

    /// A word.
    pub fn skip_word(&mut self, word: &[u8]) -> Result<(), ParseFault>
        ensures { Reads (spec.skip_word word.now self.old) result self.new }
    {
        if self.sees_word(word) {
            self.advance();
            Ok(())
        } else {
            Err(self.refuse())
        }
    }

    /// Whether the next token is this directive.
    pub fn sees_directive(&self, bytes: &[u8]) -> bool
        ensures { result ≡ spec.is_directive bytes.now (spec.front self.now) }
    {
        match self.tokens {
            [token, ..] if token.kind == TokenKind::Directive => is(self.bytes(), bytes),
            _ => false,
        }
    }

    /// Whether the next token is some directive.
    pub fn sees_some_directive(&self) -> bool
        ensures { result ≡ is_some (spec.directive_in (spec.front self.now)) }
    {
        self.kind() == TokenKind::Directive
    }

    /// A directive, with its location.
    pub fn directive(&mut self, bytes: &[u8]) -> Result<Location, ParseFault>
        ensures { Reads (spec.directive_word bytes.now self.old) result self.new }
    {
        if self.sees_directive(bytes) {
            let location = self.location();
            self.advance();
            Ok(location)
        } else {
            Err(self.refuse())
        }
    }

    /// Whether the text ends here.
    pub fn sees_finish(&self) -> bool
        ensures { result ≡ spec.is_finish (spec.front self.now) }
    {
        match self.tokens {
            [token, ..] => token.kind == TokenKind::End,
            [] => false,
        }
    }

    /// The end of the text.
    pub fn finish(&mut self) -> Result<(), ParseFault>
        ensures { Reads (spec.finish self.old) result self.new }
    {
        if self.sees_finish() {
            self.advance();
            Ok(())
        } else {
            Err(self.refuse())
        }
    }

    /// A name.
    pub fn name(&mut self) -> Result<Name, ParseFault>
        ensures { Reads (spec.name self.old) result self.new }
    {
        if self.kind() == TokenKind::Name {
            let location = self.location();
            let text = copy_of(self.alloc, name_text(self.bytes()))?;
            self.advance();
            Ok(Name { location, text })
        } else {
            Err(self.refuse())
        }
    }

    /// The next token as a number, where it is one.
    pub fn seen_number(&self) -> Option<u32>
        ensures { result ≡ spec.number_in (spec.front self.now) }
    {
        if self.kind() == TokenKind::Number {
            number_value(self.bytes())
        } else {
            None
        }
    }

    /// A number, with its location.
    pub fn placed_number(&mut self) -> Result<(u32, Location), ParseFault>
        ensures { Reads (spec.placed_number self.old) result self.new }
    {
        match self.seen_number() {
            Some(value) => {
                let location = self.location();
                self.advance();
                Ok((value, location))
            }
            None => Err(self.refuse()),
        }
    }

    /// A number.
    pub fn number(&mut self) -> Result<u32, ParseFault>
        ensures { Reads (spec.number self.old) result self.new }
    {
        let (value, _) = self.placed_number()?;
        Ok(value)
    }

    /// The tokens after the next.
    pub fn behind(&self) -> Cursor<'a>
        ensures { result ≡ spec.next self.now }
    {
        match self.tokens {
            [_, rest @ ..] => Cursor {
                alloc: self.alloc,
                text: self.text,
                tokens: rest,
                number: self.number + 1,
            },
            [] => Cursor {
                alloc: self.alloc,
                text: self.text,
                tokens: self.tokens,
                number: self.number,
            },
        }
    }

    /// How many tokens are left.
    pub fn left(&self) -> usize
        ensures left { result ≡ length self.now.tokens }
        ensures few { result < 2 ^ 32 }
    {
        self.tokens.len()
    }

    /// What memory for the tree comes from.
    pub fn alloc(&self) -> Global {
        self.alloc
    }

    /// Whether the next token is a name.
    pub fn sees_name(&self) -> bool
        ensures { result ≡ spec.is_name (spec.front self.now) }
    {
        self.kind() == TokenKind::Name
    }

    /// Whether the next token is a number.
    pub fn sees_number(&self) -> bool
        ensures { result ≡ spec.is_number (spec.front self.now) }
    {
        self.seen_number().is_some()
    }

    /// Whether the next token is a based number.
    pub fn sees_based(&self) -> bool
        ensures { result ≡ spec.is_based (spec.front self.now) }
    {
        self.kind() == TokenKind::Based && is_literal(self.bytes())
    }

    /// Whether the next token is a number or a decimal.
    pub fn sees_amount(&self) -> bool
        ensures { result ≡ is_some (amount_in (spec.front self.now)) }
    {
        self.kind() == TokenKind::Decimal || self.seen_number().is_some()
    }

    /// The next token as an amount, where it is one.
    fn seen_amount(&self) -> Result<Option<Amount>, AllocError>
        ensures { IfOk result (λ amount. amount ≡ amount_in (spec.front self.now)) }
    {
        if self.kind() == TokenKind::Decimal {
            let digits = decimal_digits(self.alloc, self.bytes())?;
            return Ok(Some(Amount::Decimal(digits)));
        }
        match self.seen_number() {
            Some(value) => Ok(Some(Amount::Number(value))),
            None => Ok(None),
        }
    }

    /// A number or a decimal.
    pub fn amount(&mut self) -> Result<Amount, ParseFault>
        ensures { Reads (amount self.old) result self.new }
    {
        match self.seen_amount()? {
            Some(amount) => {
                self.advance();
                Ok(amount)
            }
            None => Err(self.refuse()),
        }
    }

    /// The next token as a literal, where it is one.
    fn literal(&self) -> Result<Option<Literal>, AllocError>
        ensures { IfOk result (λ literal. literal ≡ spec.based_in (spec.front self.now)) }
    {
        if self.kind() == TokenKind::Based {
            literal_value(self.alloc, self.bytes())
        } else {
            Ok(None)
        }
    }

    /// A based number, with its location.
    pub fn placed_based(&mut self) -> Result<(Literal, Location), ParseFault>
        ensures { Reads (spec.placed_based self.old) result self.new }
    {
        match self.literal()? {
            Some(literal) => {
                let location = self.location();
                self.advance();
                Ok((literal, location))
            }
            None => Err(self.refuse()),
        }
    }
}
