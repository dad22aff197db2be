//! Laws alone: how many elements the parts of a module make, and that no module that a top reaches has
//! more of them than the top with all that is in it.
#![tactic(auto)]
