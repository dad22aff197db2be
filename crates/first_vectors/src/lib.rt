//! The reader of the first vector form: a text of lines that lists inputs of a netlist and the
//! values that they take at rising times.
#![tactic(auto)]

mod fields;
mod inputs;
mod reading;
mod row;
mod rows;

pub use reading::read_vectors;

#[cfg(test)]
mod tests;
