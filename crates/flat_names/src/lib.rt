//! How the flat names of nets and elements are written: a path of instances, a thing's own name in its
//! module, and the index of a bit.
#![tactic(auto)]

mod names;

pub use names::{push_bit, push_instance, push_name, push_unnamed};

#[cfg(test)]
mod tests;
