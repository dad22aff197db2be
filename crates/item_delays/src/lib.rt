//! The delays of the items of a file's modules in ticks, of which a choice takes the least, the
//! typical or the greatest ones.
#![tactic(auto)]

mod delays;
mod items;
mod scales;

pub use delays::{ChosenDelays, item_delays};
