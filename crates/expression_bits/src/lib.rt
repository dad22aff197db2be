//! The bits that an expression stands for in its place, from the left.
#![tactic(auto)]

mod literals;
mod places;
mod runs;
mod values;
mod widths;

pub use places::{pick_run, place_runs};
pub use runs::{BitRun, RunList};
pub use values::{ValueRuns, value_runs};
pub use widths::{run_width, runs_width};
