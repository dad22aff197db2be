//! Groups of nets that pairs join, over any number of steps.
#![tactic(auto)]

mod forest;
mod groups;

pub use groups::groups_of;

#[cfg(test)]
mod tests;
