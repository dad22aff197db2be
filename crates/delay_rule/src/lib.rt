//! Delays: how many ticks one has, which one a change takes, and what is pending after a new target.
#![tactic(auto)]

mod choice;
mod delays;
mod inertia;
mod scale;

pub use choice::pick;
pub use delays::Delays;
pub use inertia::{Pending, retarget, retarget_switch};
pub use scale::ticks;

#[cfg(test)]
mod tests;
