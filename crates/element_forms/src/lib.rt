//! What the gates of an item and the nets of a declaration become in a flat netlist: kinds, strengths and
//! charges.
#![tactic(auto)]

mod classes;
mod forms;
mod strengths;

pub use classes::net_class;
pub use forms::{ElementForm, element_form};
pub use strengths::{Strengths, drive_strengths, gate_strengths};
