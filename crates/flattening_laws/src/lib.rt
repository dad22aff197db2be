//! Definitions and laws alone: when the plans of modules are sound, and what then holds of the flat
//! netlist of a top.
#![tactic(auto)]
