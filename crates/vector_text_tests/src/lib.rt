//! The tests of `vector_text`.
#![tactic(auto)]

#[cfg(test)]
mod tests;
