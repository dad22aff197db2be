//! What a netlist has of its top: the nets of the top's ports, the primitives that it reaches, and whether
//! a module that it reaches has too wide a range.
#![tactic(auto)]

mod ports;
mod primitives;
mod ranges;

pub use ports::{Side, port_nets};
pub use primitives::reached_primitives;
pub use ranges::has_wide_range;
