//! The parts of a flat netlist by what a flattening adds.
#![tactic(auto)]

mod assembly;
mod nets;
mod wired;

pub use assembly::Assembly;
