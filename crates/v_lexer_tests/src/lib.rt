//! The tests of `v_lexer`.
#![tactic(auto)]

#[cfg(test)]
mod tests;
