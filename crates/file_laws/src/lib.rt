//! Definitions and laws alone: what a file keeps, the numbers of its primitives, and the ports of its top.
#![tactic(auto)]
