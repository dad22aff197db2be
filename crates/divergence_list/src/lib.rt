//! What faulty machines have in place of the good machine: a finite map from cells and faults to
//! values, as short lists by cell.
#![tactic(auto)]

mod cell_lists;
mod changes;
mod entry;
mod fault_cells;
mod order;
mod spread;

pub use entry::Entry;
pub use spread::Spread;

#[cfg(test)]
mod tests;
