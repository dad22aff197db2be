//! What the instances of a module break: the rules on the widths, the number and the names of their
//! connections, on their delays and drives, and on literals at outputs.
#![tactic(auto)]

mod connections;
mod items;
mod links;
mod modules;
mod places;
mod ports;

pub use modules::{instance_places, master_at};
pub use places::{ItemPlaces, earliest_places, no_places};
pub use ports::{named_port, width_at};
