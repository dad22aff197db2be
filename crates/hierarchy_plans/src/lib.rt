//! The plans of the modules that a top reaches, and what they say of the size of its hierarchy.
#![tactic(auto)]

mod counts;
mod numbers;
mod parts;
mod plans;
mod widths;

pub use counts::{instance_count_lists, module_count_list};
pub use numbers::primitive_numbers;
pub use parts::{PartLists, part_lists};
pub use plans::{PlanList, plan_list};
pub use widths::{WidthLists, width_lists};
