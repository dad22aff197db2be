//! User-defined primitives: their symbols, their rows, and their values.
#![tactic(auto)]

mod clash;
mod look_up;
mod making;
mod matching;
mod rows;
mod symbols;
mod tables;
mod udp;
mod values;
mod well_formed;

pub use look_up::{after_changes, level};
pub use making::{UdpFault, build};
pub use rows::{RowList, SymList, UdpRow};
pub use symbols::{Base, Sym};
pub use tables::{SymTable, edge_table, value_table};
pub use udp::Udp;
