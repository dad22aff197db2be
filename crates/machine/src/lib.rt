//! Machines of a flat netlist: their passes, time steps and runs, over the definitions alone.
#![tactic(auto)]
