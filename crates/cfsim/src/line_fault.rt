//! What is wrong at a line of a file.

ghost use Rattle.std.specs.Prelude.{◌≡◌};
ghost use Rattle.cfsim.specs.Messages.{what};

use v_lexer::FaultKind;

/// What is wrong at a line of a netlist.
#[derive(Clone, Copy, Debug, PartialEq, Eq)]
pub enum LineFault {
    /// The text has a lexical fault.
    Lexical(FaultKind),
    /// A token is out of place.
    SyntaxError,
    /// The grammar leaves a token out.
    Unsupported,
}

impl LineFault {
    /// How a message says it.
    pub fn message(self) -> &'static [u8]
        ensures { result.now ≡ what self }
    {
        match self {
            LineFault::Lexical(FaultKind::BadByte) => b"bad byte",
            LineFault::Lexical(FaultKind::OpenComment) => b"open comment",
            LineFault::Lexical(FaultKind::OpenString) => b"open string",
            LineFault::Lexical(FaultKind::BadNumber) => b"bad number",
            LineFault::SyntaxError => b"syntax error",
            LineFault::Unsupported => b"unsupported",
        }
    }
}
