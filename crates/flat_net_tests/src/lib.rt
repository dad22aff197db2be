//! The tests of `flat_net`.
#![tactic(auto)]

#[cfg(test)]
mod tests;
