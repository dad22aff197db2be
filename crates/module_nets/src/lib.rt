//! The nets of a module with the numbers of their bits, found by names and by numbers of literals.
#![tactic(auto)]

mod entries;
mod parts;
mod runs;
mod table;
mod widths;

pub use table::NetTable;
