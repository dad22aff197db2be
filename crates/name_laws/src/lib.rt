//! Definitions and laws alone: what unbroken rules on the names of a module give of its parts.
#![tactic(auto)]
