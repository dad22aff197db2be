use byte_lists::NetList;
use level_range::Logic;
use list_of::ListOf;

/// Logic values in their order. Contracts see the list of them.
pub type LogicList = ListOf<Logic>;

/// The values that the listed inputs take at a time, in ticks, one for each listed input.
#[derive(Debug, Drop)]
pub struct ValueLine {
    pub time: u64,
    pub values: LogicList,
}

/// Value lines in their order. Contracts see the list of them.
pub type ValueLineList = ListOf<ValueLine>;

/// The timed values of a netlist's inputs, and the end of the run.
#[derive(Debug, Drop)]
pub struct Stimulus {
    /// The listed inputs, by net.
    pub inputs: NetList,
    pub lines: ValueLineList,
    /// The last tick of the run.
    pub end: u64,
}
