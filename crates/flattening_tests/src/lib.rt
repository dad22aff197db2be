//! The tests of `flattening`.
#![tactic(auto)]

#[cfg(test)]
mod tests;
