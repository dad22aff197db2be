//! The plan of a module: its nets, the bits of its ports, and its elements and instances in text order.
#![tactic(auto)]

mod assignments;
mod bits;
mod constants;
mod elements;
mod forms;
mod gates;
mod instances;
mod names;
mod nets;
mod numbers;
mod parts;
mod plans;
mod ports;
mod terminals;

pub use plans::module_plan;
