//! The flat netlist of a netlist text: elaboration, with its rules and limits.
#![tactic(auto)]

mod choice;
mod counts;
mod elaboration;
mod fault;
mod netlist;
mod tick;
mod written;

pub use choice::{Choice, NameText};
pub use chosen_delays::Mtm;
pub use elaboration::elaborate;
pub use fault::NetFault;
pub use netlist_meaning::NetlistLimit;
pub use tick::tick_of;
