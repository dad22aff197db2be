//! What a module declares and uses: the nets of its names, and the first place of each rule on names
//! that it breaks.
#![tactic(auto)]

mod expressions;
mod headers;
mod items;
mod mentions;
mod nets;
mod places;
mod roles;
mod rules;
mod scopes;
mod summaries;

pub use nets::ScopeNet;
pub use places::ScopePlaces;
pub use roles::NetKind;
pub use scopes::Scope;

#[cfg(test)]
mod tests;
