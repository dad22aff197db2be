//! Why a file gives nothing.

use crate::line_fault::LineFault;

/// Why a file gives neither a netlist nor a stimulus.
#[derive(Clone, Copy, Debug, PartialEq, Eq)]
pub enum Refusal {
    /// There was no memory for it.
    Memory,
    /// A call on the shelf failed, or the shelf doesn't have the file.
    Read,
    /// The file is longer than its limit.
    TooLong,
    /// Something is wrong at a line of the file, counted from 1.
    Faulty(LineFault, u64),
    /// The file is outside its form.
    Unbuilt,
}
