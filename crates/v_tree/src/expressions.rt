use crate::locations::{Location, Name};
use sqlite_items::Items;
use v_lexer::Literal;

/// `[ left : right ]`: the bounds of a declared range (IEEE 1364-2005, 4.3.1).
#[derive(Clone, Copy, Debug, PartialEq, Eq)]
pub struct RangeBounds {
    pub left: u32,
    pub right: u32,
}

/// `[ left ]` or `[ left : right ]` behind a name (IEEE 1364-2005, 5.2.1).
#[derive(Clone, Copy, Debug, PartialEq, Eq)]
pub struct Select {
    pub left: u32,
    pub right: Option<u32>,
}

/// A net or bits of it.
#[derive(Debug, Drop)]
pub struct Pick {
    pub name: Name,
    pub select: Option<Select>,
}

/// What a terminal, a connection or the right side of an assignment is. The location is that of the first
/// token; that of a pick is its name's.
#[cycle(expr)]
#[derive(Drop)]
pub enum Expr {
    Pick(Pick),
    /// A number without base, below 2^31.
    Number(Location, u32),
    /// A based number.
    Based(Location, Literal),
    /// `{ expr , .. }`, the leftmost first.
    Concat(Location, Items<Expr>),
}

/// Expressions with commas between.
pub type ExprList = Items<Expr>;

/// The left side of an assignment.
#[cycle(target)]
#[derive(Drop)]
pub enum Target {
    Pick(Pick),
    /// `{ target , .. }`, the leftmost first.
    Concat(Location, Items<Target>),
}

/// Targets with commas between.
pub type TargetList = Items<Target>;
