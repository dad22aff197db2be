//! The tree of a list of tokens, or the first token that the grammar refuses.
#![tactic(auto)]

mod blocks;
mod cursor;
mod declarations;
mod descriptions;
mod directives;
mod drives;
mod expressions;
mod fault;
mod gates;
mod lists;
mod modules;
mod parsing;
mod primitives;
mod rows;
mod words;

pub use fault::ParseFault;
pub use parsing::parse;
