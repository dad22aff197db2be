//! Laws alone: numbers of terminals, ports that are connected once, and the terminals of bidirectional switches.
#![tactic(auto)]
