use crate::locations::Location;
use sqlite_items::Items;

/// The word of a directive that begins or ends a library cell.
#[derive(Clone, Copy, Debug, PartialEq, Eq)]
pub enum CellWord {
    Celldefine,
    Endcelldefine,
}

/// `` `celldefine `` or `` `endcelldefine `` (IEEE 1364-2005, 19.1). The location is that of the
/// directive.
#[derive(Clone, Copy, Debug, PartialEq, Eq)]
pub struct CellDirective {
    pub location: Location,
    pub word: CellWord,
}

/// `` `timescale unit / precision `` (IEEE 1364-2005, 19.8). Both are powers of ten of a second: from
/// 2, which is 100 s, to -15, which is 1 fs. The location is that of the directive.
#[derive(Clone, Copy, Debug, PartialEq, Eq)]
pub struct Timescale {
    pub location: Location,
    pub unit: i8,
    pub precision: i8,
}

/// A type that implicit nets may have.
#[derive(Clone, Copy, Debug, PartialEq, Eq)]
pub enum ImplicitNetType {
    Wire,
    Tri,
    Tri0,
    Tri1,
    Wand,
    Triand,
    Wor,
    Trior,
    Trireg,
}

/// `` `default_nettype `` and the type of implicit nets, or `none` (IEEE 1364-2005, 19.2). The location
/// is that of the directive.
#[derive(Clone, Copy, Debug, PartialEq, Eq)]
pub struct DefaultNettype {
    pub location: Location,
    pub net_type: Option<ImplicitNetType>,
}

/// A compiler directive outside modules and primitives (IEEE 1364-2005, 19).
#[derive(Clone, Copy, Debug, PartialEq, Eq)]
pub enum Directive {
    Timescale(Timescale),
    DefaultNettype(DefaultNettype),
    /// `` `resetall ``, with the location of the directive (IEEE 1364-2005, 19.6).
    Resetall(Location),
    Cell(CellDirective),
}

/// Directives in their order.
pub type DirectiveList = Items<Directive>;
