//! The tests of `net_settle`.
#![tactic(auto)]

#[cfg(test)]
mod tests;
