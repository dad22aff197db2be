//! The tests of `v_parser`.
#![tactic(auto)]

#[cfg(test)]
mod tests;
