//! What modules instantiate: the top, the modules that it reaches, and the rules on their names.
#![tactic(auto)]

mod circles;
mod graph;
mod marks;
mod masters;
mod numbers;
mod order;
mod reach;
mod references;
mod repeated;
mod top;
mod udps;
mod unknown;

pub use graph::ModuleGraph;
pub use reach::ReachedList;
pub use references::{Master, Reference, ReferenceList, ReferenceLists};
pub use repeated::repeated_name;
