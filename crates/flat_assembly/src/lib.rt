//! The flat netlist of what a flattening adds.
#![tactic(auto)]
