//! The tests of `gate_rules`.
#![tactic(auto)]

#[cfg(test)]
mod tests;
