//! What the line texts share: lines with their numbers, fields, names and decimal numbers.
#![tactic(auto)]

mod fields;
mod lines;
mod names;
mod numbers;

pub use fields::{next_field, one_field, three_fields, two_fields};
pub use lines::{Line, line_count, next_line};
pub use names::names_in;
pub use numbers::{decimal, number};

#[cfg(test)]
mod tests;
