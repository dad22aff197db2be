//! The delays of an item in ticks: of each value the least, the typical or the greatest amount.
#![tactic(auto)]

mod amounts;
mod choice;
mod delays;
mod scale;

pub use choice::Mtm;
pub use delays::{delays_of, no_delays};
pub use scale::DelayScale;

#[cfg(test)]
mod tests;
