//! Definitions and laws alone: what the tree of a module keeps, said of its parts.
#![tactic(auto)]
