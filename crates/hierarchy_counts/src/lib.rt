//! How deep a hierarchy of modules is, and how many nets, elements and names it has when it is written
//! out, told without writing it out.
#![tactic(auto)]

mod counts;
mod rounds;

pub use counts::{
    HierarchyCounts, InstanceCounts, InstanceCountsList, ModuleCounts, hierarchy_counts,
};

#[cfg(test)]
mod tests;
