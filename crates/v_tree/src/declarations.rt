use crate::drives::{Charge, DelaySpec, DriveStrength};
use crate::expressions::{Expr, RangeBounds, Target};
use crate::locations::{Location, Name, PlacedNameList};
use sqlite_items::Items;

/// The direction of a port (IEEE 1364-2005, 12.3.3).
#[derive(Clone, Copy, Debug, PartialEq, Eq)]
pub enum Direction {
    Input,
    Output,
    Inout,
}

/// The type of a net (IEEE 1364-2005, 4.6).
#[derive(Clone, Copy, Debug, PartialEq, Eq)]
pub enum NetType {
    Wire,
    Tri,
    Wand,
    Triand,
    Wor,
    Trior,
    Tri0,
    Tri1,
    Supply0,
    Supply1,
}

/// The word that may stand before the range of a net.
#[derive(Clone, Copy, Debug, PartialEq, Eq)]
pub enum VectorWord {
    Vectored,
    Scalared,
}

/// The range of a net, with the word before it where there is one.
#[derive(Clone, Copy, Debug, PartialEq, Eq)]
pub struct VectorRange {
    pub word: Option<VectorWord>,
    pub range: RangeBounds,
}

/// A declaration of ports: `dir [ nettype ] [ range ] Name , .. ;`. The location is that of the direction.
#[derive(Debug, Drop)]
pub struct PortDecl {
    pub location: Location,
    pub direction: Direction,
    pub net_type: Option<NetType>,
    pub range: Option<RangeBounds>,
    pub names: PlacedNameList,
}

/// `Name = expr` in a declaration of nets.
#[derive(Drop)]
pub struct ValuedName {
    pub name: Name,
    pub value: Expr,
}

/// Names with their values, with commas between.
pub type ValuedNameList = Items<ValuedName>;

/// What a declaration of nets declares: names alone, or names that are assigned.
#[derive(Drop)]
pub enum DeclaredNames {
    Names(PlacedNameList),
    Valued(ValuedNameList),
}

/// A declaration of nets: `nettype [ drive ] [ vector_range ] [ delay ] declared_names ;`. The location is that of
/// the type.
#[derive(Drop)]
pub struct NetDecl {
    pub location: Location,
    pub net_type: NetType,
    pub drive: Option<DriveStrength>,
    pub vector_range: Option<VectorRange>,
    pub delay: Option<DelaySpec>,
    pub declared_names: DeclaredNames,
}

/// A declaration of triregs: `trireg [ charge ] [ vector_range ] [ delay ] Name , .. ;`. The location is that
/// of the word.
#[derive(Debug, Drop)]
pub struct TriregDecl {
    pub location: Location,
    pub charge: Option<Charge>,
    pub vector_range: Option<VectorRange>,
    pub delay: Option<DelaySpec>,
    pub names: PlacedNameList,
}

/// `target = expr`.
#[derive(Drop)]
pub struct Pair {
    pub target: Target,
    pub value: Expr,
}

/// Pairs with commas between.
pub type PairList = Items<Pair>;

/// Continuous assignments: `assign [ drive ] [ delay ] pair , .. ;` (IEEE 1364-2005, 6.1). The location
/// is that of the word.
#[derive(Drop)]
pub struct AssignItem {
    pub location: Location,
    pub drive: Option<DriveStrength>,
    pub delay: Option<DelaySpec>,
    pub pairs: PairList,
}
