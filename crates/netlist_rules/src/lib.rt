//! The rules that a netlist text is judged by before the limits: the first that it breaks, and what
//! was made of the text to judge it.
#![tactic(auto)]

mod items;
mod reached;
mod rules;
mod tables;

pub use rules::Rules;
pub use tables::PortTableList;
