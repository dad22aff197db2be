//! The islands of a flat netlist: the nets that bidirectional switches join.
#![tactic(auto)]

mod groups;
mod islands;
mod items;
mod keys;
mod leasts;
mod parts;

pub use groups::grouping;
pub use parts::{Grouping, NetClass, NetPlace, PlaceList};
