//! The netlist of a file of the first form: one flat module of nand gates.
#![tactic(auto)]

mod elaborate;
mod form;
mod names;
mod tables;
mod tree;

pub use form::netlist_of;

#[cfg(test)]
mod tests;
