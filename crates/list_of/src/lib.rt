//! A vector that contracts see as the list of its elements.
#![tactic(auto)]

mod lists;

pub use lists::ListOf;

#[cfg(test)]
mod tests;
