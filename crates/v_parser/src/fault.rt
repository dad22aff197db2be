ghost use Rattle.std.specs.Prelude.{◌≡◌};
ghost use Rattle.v_parser.specs.declared.fault.ParseFault.TheVariants.{Memory};

use std::alloc::{AllocError, AllocFailed};

/// Why a list of tokens has no tree. The number is that of the refused token, counted from 0.
#[derive(Clone, Copy, Debug, PartialEq, Eq, Hash)]
pub enum ParseFault {
    /// The token belongs to a part of the language that the grammar leaves out.
    Unsupported(u32),
    /// The grammar has no such token there.
    Syntax(u32),
    /// There is no memory for the tree.
    Memory,
}

impl From<AllocError> for ParseFault {
    ghost from_gives = { λ _ e. e ≡ Memory };

    fn from(_e: AllocError) -> ParseFault {
        ParseFault::Memory
    }
}

impl<T: Drop> From<AllocFailed<T>> for ParseFault {
    ghost from_gives = { λ _ e. e ≡ Memory };

    fn from(_e: AllocFailed<T>) -> ParseFault {
        ParseFault::Memory
    }
}
