//! How many nets, elements and names the plan of a module has, and how many bits each of its
//! instances connects, by its parts, without the plan.
#![tactic(auto)]

mod elements;
mod instances;
mod modules;
mod nets;
mod ports;
mod sums;

pub use instances::instance_counts;
pub use modules::module_counts;
pub use ports::{WidthList, port_widths};
