//! The nets of a module.
use byte_lists::Bytes;
use sqlite_items::Items;
use v_lexer::BitList;

/// What a net of a module is.
#[derive(Debug, Drop)]
pub enum NetSource {
    /// The net of a name.
    Named(Bytes),
    /// The bits of a literal, which is the thing without name of this number.
    Literal(usize, BitList),
}

/// A net of a module, with the number of its first bit, from the left, among the bits of all the
/// module's nets.
#[derive(Debug, Drop)]
pub struct ModuleNet {
    pub source: NetSource,
    pub first: u64,
}

/// Nets, in the order of the first tokens that name them.
pub type ModuleNetList = Items<ModuleNet>;
