//! The run of a stimulus by a plain run, step by step.
#![tactic(auto)]

mod inputs;
mod lines;
mod run;
mod step_end;
mod steps;
mod ticks;

pub use run::StimulusRun;
pub use step_end::StepEnd;
