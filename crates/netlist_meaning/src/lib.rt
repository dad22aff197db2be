//! Definitions: the flat netlist of a file under a choice of delays and a top, and its limits.
#![tactic(auto)]

mod limits;

pub use limits::NetlistLimit;
