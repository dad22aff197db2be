//! One entry of a cell.

/// What one fault has at a cell.
#[derive(Debug, PartialEq, Drop)]
pub struct Entry<V> {
    /// The number of the fault.
    pub fault: u32,
    /// What stands at the cell in the machine with that fault.
    pub value: V,
}
