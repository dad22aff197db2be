//! The tokens of a netlist text, or its first lexical fault.
#![tactic(auto)]

mod bytes;
mod fault;
mod gaps;
mod lexer;
mod lists;
mod literals;
mod numbers;
mod pieces;
mod quoted;
mod token;
mod values;
mod words;

pub use fault::{FaultKind, LexFault};
pub use lexer::tokens;
pub use lists::{BitList, TokenList};
pub use literals::{Base, Bit};
pub use token::{Token, TokenKind};
pub use values::{
    DecimalDigits, Literal, decimal_digits, is_literal, literal_value, name_text, number_value,
};
pub use words::{ReservedWords, is_left_out_word};
