//! The tests of `outside_io`.
#![tactic(auto)]

#[cfg(test)]
mod tests;
