ghost use Rattle.std.specs.Prelude.{◌≡◌};
ghost use Rattle.v_lexer.specs.declared.fault.LexFault.TheVariants.{Memory};

use std::alloc::{AllocError, AllocFailed};
use thiserror::Error;

/// What is wrong with a text at an offset.
#[derive(Clone, Copy, Debug, PartialEq, Eq, Hash, Error)]
pub enum FaultKind {
    /// A byte that may not stand there: one that is neither a blank nor from `!` to `~`, a `\`
    /// without a name, a backquote without a name, or inside a table a byte that it has nowhere.
    #[error("bad byte")]
    BadByte,
    /// A comment or an attribute that doesn't end.
    #[error("open comment")]
    OpenComment,
    /// A text in quotes that doesn't end on its line.
    #[error("open string")]
    OpenString,
    /// A number of 2^31 or more, or a based number that has no base, no digits, a digit outside its
    /// base, a size outside 1 to 128, a decimal value of 2^128 or more, or no size and a value
    /// that needs more than 32 bits.
    #[error("bad number")]
    BadNumber,
}

/// Why a text has no tokens.
#[derive(Clone, Copy, Debug, PartialEq, Eq, Hash, Error)]
pub enum LexFault {
    /// The first lexical fault of the text, and its line, counted from 1.
    #[error("{0} in line {1}")]
    Faulty(FaultKind, u64),
    /// There is no memory for the tokens.
    #[error("out of memory")]
    Memory,
}

impl From<AllocError> for LexFault {
    ghost from_gives = { λ _ e. e ≡ Memory };

    fn from(_e: AllocError) -> LexFault {
        LexFault::Memory
    }
}

impl<T: Drop> From<AllocFailed<T>> for LexFault {
    ghost from_gives = { λ _ e. e ≡ Memory };

    fn from(_e: AllocFailed<T>) -> LexFault {
        LexFault::Memory
    }
}
