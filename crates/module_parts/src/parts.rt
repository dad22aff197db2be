//! The parts of a module, in text order.
use byte_lists::{Bytes, NameList};
use expression_bits::{RunList, ValueRuns};
use sqlite_items::Items;

/// The bits of each terminal of a gate, in terminal order.
pub type TerminalList = Items<RunList>;

/// A gate, or an instance of a user-defined primitive: the index of its item, its name where it has one,
/// and its terminals, of one bit each.
#[derive(Debug, Drop)]
pub struct GatePart {
    pub item: usize,
    pub name: Option<Bytes>,
    pub terminals: TerminalList,
}

/// An assignment to a target: the index of its item, the bits of the target and those of the right side,
/// both from the left.
#[derive(Debug, Drop)]
pub struct PairPart {
    pub item: usize,
    pub target: RunList,
    pub value: ValueRuns,
}

/// What an instance connects: the index of the port, where there is one, and the bits outside.
#[derive(Debug, Drop)]
pub struct PortRuns {
    pub port: Option<usize>,
    pub runs: RunList,
}

/// Connections, in text order.
pub type PortRunsList = Items<PortRuns>;

/// An instance of a module: the index of its item, that of the module, its name where it has one, and
/// what it connects.
#[derive(Debug, Drop)]
pub struct InstancePart {
    pub item: usize,
    pub master: usize,
    pub name: Option<Bytes>,
    pub connections: PortRunsList,
}

/// A part of a module.
#[derive(Debug, Drop)]
pub enum ModulePart {
    /// Names that the header or a declaration has.
    Names(NameList),
    Gate(GatePart),
    Pair(PairPart),
    Instance(InstancePart),
}

/// Parts, in text order.
pub type PartList = Items<ModulePart>;
