//! The tests of `instance_rules`.
#![tactic(auto)]

#[cfg(test)]
mod tests;
