//! The plan of a module.
use byte_lists::Bytes;
use element_forms::Strengths;
use flat_net::ElementKind;
use list_of::ListOf;
use net_islands::NetClass;
use sqlite_items::Items;
use v_tree::{Location, RangeBounds};

/// Numbers of bits of a module's nets.
pub type BitList = ListOf<u32>;

/// The name of a thing in its module: a written one, or the number of a thing without.
#[derive(Debug, Drop)]
pub enum OwnName {
    Written(Bytes),
    Unnamed(u32),
}

/// The name of an element in its module.
#[derive(Debug, Drop)]
pub enum ElementName {
    /// A gate, or an instance of a primitive.
    Gate(OwnName),
    /// The half of a complementary switch that conducts for control 1, or else for control 0.
    Half(OwnName, bool),
    /// A bit of an assignment or a literal: the number of that thing, and the bit's index, counted from 0
    /// at the right.
    Bit(u32, u32),
}

/// An element of a module: its kind and strengths, the index of the item that has its delays where it may
/// have some, whether it is resistive, and the bits of its pins.
#[derive(Debug, Drop)]
pub struct PlanElement {
    pub name: ElementName,
    pub kind: ElementKind,
    pub strengths: Strengths,
    pub item: Option<usize>,
    pub resistive: bool,
    pub outs: BitList,
    pub ins: BitList,
    pub ends: Option<(u32, u32)>,
}

/// A port of an instance's module, by its index, and the bits outside that are connected to it.
#[derive(Debug, Drop)]
pub struct PortBits {
    pub port: usize,
    pub bits: BitList,
}

/// Ports that are connected.
pub type PortBitsList = Items<PortBits>;

/// An instance of a module: the index of that module, its name, and its connections.
#[derive(Debug, Drop)]
pub struct PlanInstance {
    pub master: usize,
    pub name: Bytes,
    pub connections: PortBitsList,
}

/// What a module has in a place of its text.
#[derive(Debug, Drop)]
pub enum PlanStep {
    Element(PlanElement),
    Instance(PlanInstance),
}

/// Steps, in text order.
pub type PlanStepList = Items<PlanStep>;

/// A net of a module: its name, its range where it is a vector, its kind and charge, the index of the item
/// that has its delays where one has, and the number of its first bit. A literal's range is from its width
/// less 1 to 0.
#[derive(Debug, Drop)]
pub struct PlanNet {
    pub name: OwnName,
    pub range: Option<RangeBounds>,
    pub class: NetClass,
    pub delay: Option<usize>,
    pub first: u32,
}

/// Nets, in the order of the first tokens that name them.
pub type PlanNetList = Items<PlanNet>;

/// A terminal of a bidirectional switch that is a net or a bit of one: its bit, and its first token.
#[derive(Clone, Copy, Debug)]
pub struct SwitchTerminal {
    pub bit: u32,
    pub location: Location,
}

/// Terminals of bidirectional switches.
pub type SwitchTerminalList = ListOf<SwitchTerminal>;

/// What each instance of a module has: its nets, the bits of its ports by their indexes, its elements and
/// instances in text order, and the terminals of its bidirectional switches.
#[derive(Debug, Drop)]
pub struct ModulePlan {
    pub nets: PlanNetList,
    pub ports: PortBitsList,
    pub steps: PlanStepList,
    pub terminals: SwitchTerminalList,
}
