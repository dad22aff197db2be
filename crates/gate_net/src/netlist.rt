use byte_lists::{NameList, NetList};
use list_of::ListOf;

/// A nand gate without delay: the net that it drives, and the nets that it reads, in terminal order.
#[derive(Debug, Drop)]
pub struct Gate {
    pub output: u32,
    pub inputs: NetList,
}

/// Gates in their order. Contracts see the list of them.
pub type GateList = ListOf<Gate>;

/// A flat netlist. A net is a number: its index in `names`.
#[derive(Debug, Drop)]
pub struct Netlist {
    /// The name of each net.
    pub names: NameList,
    /// The nets of the module's inputs, in port order.
    pub inputs: NetList,
    /// The nets of the module's outputs, in port order.
    pub outputs: NetList,
    pub gates: GateList,
}
