use byte_lists::Bytes;
use sqlite_items::Items;

/// Where a token stands: its line, counted from 1, and its number in the list of tokens, counted from 0.
#[derive(Clone, Copy, Debug, PartialEq, Eq)]
pub struct Location {
    pub line: u32,
    pub token: u32,
}

/// A name where it is written (IEEE 1364-2005, 3.7). The text of an escaped name is without its `\`.
#[derive(Debug, Drop)]
pub struct Name {
    pub location: Location,
    pub text: Bytes,
}

/// Names with commas between.
pub type PlacedNameList = Items<Name>;
