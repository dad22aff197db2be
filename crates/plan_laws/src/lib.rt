//! Definitions and laws alone: what has to hold of a module's parts so that its plan is sound.
#![tactic(auto)]
