//! Signals: sets of signed strength levels without gaps, kept as two bounds.
#![tactic(auto)]

mod combine;
mod drive;
mod range;
mod show;
mod switch;

pub use combine::join;
pub use drive::span;
pub use range::{Conduct, Kind, Logic, Range, read};
pub use show::percent_v;
pub use switch::{maybe, reduce};

#[cfg(test)]
mod tests;
