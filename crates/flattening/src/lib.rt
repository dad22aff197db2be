//! The nets and elements of a hierarchy of modules, written out from its top.
#![tactic(auto)]

mod claims;
mod connections;
mod delays;
mod elements;
mod finds;
mod hierarchy;
mod lists;
mod names;
mod nets;
mod numbers;
mod places;

pub use claims::net_claims;
pub use delays::{DelayList, DelayLists, ItemDelays};
pub use hierarchy::flatten;
pub use lists::{ClaimList, FlagList, FlatLists, TerminalList};
