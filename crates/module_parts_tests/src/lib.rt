//! The tests of `module_parts`.
#![tactic(auto)]

#[cfg(test)]
mod tests;
