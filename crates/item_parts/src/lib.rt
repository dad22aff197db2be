//! What the parts of a module's items are: the widths of expressions, the literals in them, how many
//! delays a `#` has, and which drives are right.
#![tactic(auto)]

mod delays;
mod drives;
mod literals;
mod misfits;
mod widths;

pub use delays::{delay_count, delay_place};
pub use drives::{drive_place, is_drive, is_pull, pull_level, pull_place};
pub use literals::{has_literal, location_of, unsized_in_concatenation};
pub use misfits::width_place;
pub use widths::{expr_width, name_width, net_width, pick_width, range_width, select_width};

#[cfg(test)]
mod tests;
