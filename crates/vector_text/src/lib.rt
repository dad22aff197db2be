//! Vector texts: their reader, and what they mean for a flat netlist.
#![tactic(auto)]

mod binding;
mod body;
mod fault;
mod head;
mod inputs;
mod outputs;
mod reading;
mod said;
mod sayings;
mod schedule;
mod stimulus;
mod values;
mod vectors;

pub use binding::bind;
pub use fault::{BindFault, VecFault};
pub use reading::read_vectors;
pub use stimulus::{LogicList, Stimulus, StimulusLine, StimulusLineList, StimulusWhat, WantedList};
pub use vectors::{VectorLine, VectorLineList, Vectors};
