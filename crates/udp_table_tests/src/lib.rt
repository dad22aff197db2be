//! The tests of `udp_table`.
#![tactic(auto)]

#[cfg(test)]
mod tests;
