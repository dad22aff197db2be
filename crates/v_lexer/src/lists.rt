use crate::literals::Bit;
use crate::token::Token;
use list_of::ListOf;

/// The tokens of a text, the last of which is its end. Contracts see the list of them.
pub type TokenList = ListOf<Token>;

/// The bits of a based number from the left. Contracts see the list of them.
pub type BitList = ListOf<Bit>;
