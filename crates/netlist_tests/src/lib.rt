//! Netlists and the first rule that each breaks, or none.
#![tactic(auto)]

#[cfg(test)]
mod rows;
#[cfg(test)]
mod rules;
#[cfg(test)]
mod scopes;
