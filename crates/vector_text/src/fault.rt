ghost use Rattle.std.specs.Prelude.{◌≡◌};
ghost use Rattle.vector_text.specs.declared.fault.VecFault.TheVariants.{Memory as VecMemory};
ghost use Rattle.vector_text.specs.declared.fault.BindFault.TheVariants.{Memory as BindMemory};

use std::alloc::{AllocError, AllocFailed};
use thiserror::Error;

/// Why a text is no vector text. The number is that of the first line with a fault, counted from 1
/// over all lines.
#[derive(Clone, Copy, Debug, PartialEq, Eq, Error)]
pub enum VecFault {
    /// A line of none of the forms of its version, or where it may not stand.
    #[error("bad line in line {0}")]
    BadLine(u64),
    /// A time above 2^40, or in the second version above 2^48; there also a number of turns above
    /// 4,194,304, a start or a period above 2^48, and a size of what is written out above
    /// 67,108,864.
    #[error("limit in line {0}")]
    Limit(u64),
    /// A time that is smaller than that of the line before, a second value line or a second strobe
    /// at one time, a value line behind a strobe of its time, a time in a block that isn't below
    /// its period, or a block that begins before the line before it.
    #[error("order in line {0}")]
    Order(u64),
    /// There is no `end` line; the line is the one behind the last.
    #[error("no end")]
    NoEnd,
    /// There is no memory for the vectors.
    #[error("out of memory")]
    Memory,
}

impl From<AllocError> for VecFault {
    ghost from_gives = { λ _ e. e ≡ VecMemory };

    fn from(_e: AllocError) -> VecFault {
        VecFault::Memory
    }
}

impl<T: Drop> From<AllocFailed<T>> for VecFault {
    ghost from_gives = { λ _ e. e ≡ VecMemory };

    fn from(_e: AllocFailed<T>) -> VecFault {
        VecFault::Memory
    }
}

/// Why vectors aren't bound to a netlist. The number is that of the first line with a fault.
#[derive(Clone, Copy, Debug, PartialEq, Eq, Error)]
pub enum BindFault {
    /// A name of no net.
    #[error("unknown net in line {0}")]
    UnknownNet(u64),
    /// A name of an input with a bit that is none of an input or inout port of the top.
    #[error("not an input in line {0}")]
    NotAnInput(u64),
    /// A name of an input with a bit that is given twice.
    #[error("named twice in line {0}")]
    NamedTwice(u64),
    /// A name with which there are more than 1,048,576 output bits.
    #[error("limit in line {0}")]
    Limit(u64),
    /// A number of values other than that of the inputs, or of expected values other than that of
    /// the outputs.
    #[error("width in line {0}")]
    Width(u64),
    /// There is no memory for the stimulus.
    #[error("out of memory")]
    Memory,
}

impl From<AllocError> for BindFault {
    ghost from_gives = { λ _ e. e ≡ BindMemory };

    fn from(_e: AllocError) -> BindFault {
        BindFault::Memory
    }
}

impl<T: Drop> From<AllocFailed<T>> for BindFault {
    ghost from_gives = { λ _ e. e ≡ BindMemory };

    fn from(_e: AllocFailed<T>) -> BindFault {
        BindFault::Memory
    }
}
