//! The parts of a module in text order: the names that it declares, and the gates, assignments and
//! instances with the bits that they connect.
#![tactic(auto)]

mod assignments;
mod connections;
mod gates;
mod instances;
mod modules;
mod names;
mod parts;

pub use modules::module_parts;
pub use parts::{
    GatePart, InstancePart, ModulePart, PairPart, PartList, PortRuns, PortRunsList, TerminalList,
};
