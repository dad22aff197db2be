//! The tests of `module_graph`.
#![tactic(auto)]

#[cfg(test)]
mod tests;
