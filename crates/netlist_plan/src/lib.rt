//! Types and definitions alone: the nets and the plan of a module, and the flat netlist of a hierarchy of
//! modules.
#![tactic(auto)]

mod claims;
mod nets;
mod plan;

pub use claims::NetClaim;
pub use nets::{ModuleNet, ModuleNetList, NetSource};
pub use plan::{
    BitList, ElementName, ModulePlan, OwnName, PlanElement, PlanInstance, PlanNet, PlanNetList,
    PlanStep, PlanStepList, PortBits, PortBitsList, SwitchTerminal, SwitchTerminalList,
};
