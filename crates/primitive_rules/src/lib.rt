//! The user-defined primitives of a netlist: the arguments with which each is made, and the first
//! places of the two rules on them.
#![tactic(auto)]

mod arguments;
mod building;
mod counts;
mod directions;
mod headers;
mod places;
mod ports;
mod starts;
mod states;

pub use arguments::{UdpArguments, arguments_of};
pub use building::udp_of;
pub use places::PrimitivePlaces;
pub use ports::port_count;
