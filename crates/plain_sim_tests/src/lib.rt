//! The tests of `plain_sim`.
#![tactic(auto)]

#[cfg(test)]
mod tests;
