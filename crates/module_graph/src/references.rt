use sqlite_items::Items;
use v_tree::Location;

/// What the name of an instance means: the module or the primitive of an index in its file, or neither.
#[derive(Clone, Copy, Debug, PartialEq, Eq)]
pub enum Master {
    Module(usize),
    Udp(usize),
    Unknown,
}

/// A module's name in an item of instances, and what it means (IEEE 1364-2005, 12.1.2).
#[derive(Clone, Copy, Debug, PartialEq, Eq)]
pub struct Reference {
    pub location: Location,
    pub master: Master,
}

/// The references of one module, in text order.
pub type ReferenceList = Items<Reference>;

/// The references of each module.
pub type ReferenceLists = Items<ReferenceList>;
