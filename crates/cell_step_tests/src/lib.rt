//! The tests of `cell_step`.
#![tactic(auto)]

#[cfg(test)]
mod tests;
