use level_range::Logic;
use logic_tables::{EnableKind, FoldKind};

/// What an element is.
#[derive(Clone, Copy, Debug, PartialEq, Eq)]
pub enum ElementKind {
    /// A logic gate (IEEE 1364-2005, 7.2 and 7.3): one output and one or more inputs, or for `Buf` and
    /// `Not` one or more outputs and one input.
    Fold(FoldKind),
    /// A three-state gate (7.4): output, data, control.
    Enable(EnableKind),
    /// A MOS switch (7.5): output, data, control. It conducts for control 1, or else for control 0.
    Mos { on_one: bool, resistive: bool },
    /// A user-defined primitive, by its number among those of the netlist: output, inputs.
    Udp(u32),
    /// One bit of a continuous assignment (6.1): output, input.
    Copy,
    /// One bit of a literal: output.
    Constant(Logic),
    /// A pullup (true) or a pulldown (7.8): output.
    Pull(bool),
    /// A bidirectional switch that always conducts (7.6): two ends.
    Tran,
    /// A bidirectional switch (7.6): two ends, control. It conducts for control 1, or else for
    /// control 0.
    Tranif { on_one: bool },
}

/// The type of a net (IEEE 1364-2005, 4.6). `tri` is as `Wire`, `triand` as `And`, `trior` as `Or`.
#[derive(Clone, Copy, Debug, PartialEq, Eq)]
pub enum NetKind {
    Wire,
    And,
    Or,
    Tri0,
    Tri1,
    Supply0,
    Supply1,
    Trireg,
}

/// A cell of a netlist: an element or an island, by its number.
#[derive(Clone, Copy, Debug, PartialEq, Eq)]
pub enum Cell {
    Element(u32),
    Island(u32),
}

/// What is other in a cell of a faulty netlist.
#[derive(Clone, Copy, Debug, PartialEq, Eq)]
pub enum Patch {
    /// Nothing.
    Whole,
    /// A net of an island is stuck at 1 or 0.
    NetStuck { net: u32, value: bool },
    /// An input pin of an element reads 1 or 0.
    InStuck { pin: u32, value: bool },
    /// An output pin of an element drives 1 or 0.
    OutStuck { pin: u32, value: bool },
    /// A switch never conducts.
    Open,
    /// A switch always conducts.
    Closed,
}
