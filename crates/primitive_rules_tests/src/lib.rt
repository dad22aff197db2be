//! The tests of `primitive_rules`.
#![tactic(auto)]

#[cfg(test)]
mod tests;
