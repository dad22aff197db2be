//! What a machine, a pass, a time step, a run and a trace are: the definitions that simulators are proved against,
//! and the plain run of a netlist of nand gates.
#![tactic(auto)]

mod force;
mod phases;
mod run;
mod state;
mod trace;

pub use run::{Simulated, simulate};
