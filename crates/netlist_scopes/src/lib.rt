//! What a netlist text declares and uses: its modules and their scopes under a choice of the top,
//! and the first rule on them that it breaks.
#![tactic(auto)]

mod places;
mod reached;
mod rules;
mod scopes;

pub use places::NetlistPlaces;
pub use rules::{BrokenRule, NetlistRule, RulePlace, first_broken};
pub use scopes::{ScopeList, Scopes};
