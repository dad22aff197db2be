//! A flat netlist of nand gates without delay, the timed values of its inputs, and why a text gives
//! neither.
#![tactic(auto)]

mod fault;
mod netlist;
mod stimulus;

pub use fault::BuildFault;
pub use netlist::{Gate, GateList, Netlist};
pub use stimulus::{LogicList, Stimulus, ValueLine, ValueLineList};
