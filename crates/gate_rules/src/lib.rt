//! What a module's gates, assignments and declarations break: the rules on widths, on the numbers of
//! terminals and delays, on drives, and on literals at outputs.
#![tactic(auto)]

mod classes;
mod counts;
mod delays;
mod drives;
mod literals;
mod places;
mod widths;

pub use classes::{GateClass, gate_class};
pub use places::{GatePlaces, gate_places};
