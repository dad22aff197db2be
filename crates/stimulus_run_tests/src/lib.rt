//! The tests of `stimulus_run`.
#![tactic(auto)]

#[cfg(test)]
mod tests;
