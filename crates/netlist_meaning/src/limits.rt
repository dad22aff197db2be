//! The limits of a netlist.

/// What a netlist has a limit on, in the order in which limits are judged: the widths of ranges (4,096
/// bits), how deep modules stand in one another (64), nets (1,048,576), elements (1,048,576), names
/// (2,097,152), the nets of an island (65,536), and delays (2^31 - 1 ticks).
#[derive(Clone, Copy, Debug, PartialEq, Eq)]
pub enum NetlistLimit {
    Width,
    Depth,
    Nets,
    Elements,
    Names,
    Island,
    Delay,
}
