//! Laws alone: where no rule on a file is broken and no limit is passed, its flat netlist is sound.
#![tactic(auto)]
