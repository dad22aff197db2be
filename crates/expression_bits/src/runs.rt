use byte_lists::Bytes;
use sqlite_items::Items;
use v_lexer::BitList;
use v_tree::Select;

/// Bits that stand side by side in an expression: a net or bits of it, by the net's name, or the bits
/// of a literal from the left.
#[derive(Debug, Drop)]
pub enum BitRun {
    Net(Bytes, Option<Select>),
    Literal(BitList),
}

/// Runs of bits, the leftmost first.
pub type RunList = Items<BitRun>;
