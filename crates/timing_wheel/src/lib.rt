//! Due changes by key: a finite map from keys to times, with the least time at hand.
#![tactic(auto)]

mod chains;
mod index;
mod key_list;
mod least_tree;
mod schedule;
mod wheel;

pub use key_list::KeyList;
pub use wheel::Wheel;

#[cfg(test)]
mod tests;
