//! The plain run: one machine of one netlist, pass by pass.
#![tactic(auto)]

mod due;
mod forces;
mod phases;
mod run;
mod starts;
mod views;

pub use run::PlainRun;
