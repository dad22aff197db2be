//! The ports of a module, in the order of its header, found by their names.
#![tactic(auto)]

mod entries;
mod header;
mod table;

pub use table::PortTable;

#[cfg(test)]
mod tests;
