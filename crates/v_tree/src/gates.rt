use crate::drives::{DelaySpec, DriveStrength, PullLevels};
use crate::expressions::{Expr, ExprList};
use crate::locations::{Location, Name};
use sqlite_items::Items;

/// A gate that may have a drive and a delay (IEEE 1364-2005, 7.2 to 7.4).
#[derive(Clone, Copy, Debug, PartialEq, Eq)]
pub enum LogicGate {
    And,
    Nand,
    Or,
    Nor,
    Xor,
    Xnor,
    Buf,
    Not,
    Bufif0,
    Bufif1,
    Notif0,
    Notif1,
}

/// A switch that may have a delay (IEEE 1364-2005, 7.5 to 7.7).
#[derive(Clone, Copy, Debug, PartialEq, Eq)]
pub enum Switch {
    Nmos,
    Pmos,
    Rnmos,
    Rpmos,
    Cmos,
    Rcmos,
    Tranif0,
    Tranif1,
    Rtranif0,
    Rtranif1,
}

/// A switch that always conducts (IEEE 1364-2005, 7.6).
#[derive(Clone, Copy, Debug, PartialEq, Eq)]
pub enum TranGate {
    Tran,
    Rtran,
}

/// A source of 1 or 0 (IEEE 1364-2005, 7.8).
#[derive(Clone, Copy, Debug, PartialEq, Eq)]
pub enum PullGate {
    Pullup,
    Pulldown,
}

/// `[ Name ] ( expr , .. )`: one gate of an item. `paren` is the location of the `(`.
#[derive(Drop)]
pub struct Terms {
    pub name: Option<Name>,
    pub paren: Location,
    pub terminals: ExprList,
}

/// Gates with commas between.
pub type TermsList = Items<Terms>;

/// The word of an item of gates, and what stands before its terminals.
#[derive(Drop)]
pub enum GateKind {
    Logic(LogicGate, Option<DriveStrength>, Option<DelaySpec>),
    Switch(Switch, Option<DelaySpec>),
    Tran(TranGate),
    Pull(PullGate, Option<PullLevels>),
}

/// Gates or switches of one kind (IEEE 1364-2005, 7.1). The location is that of the word.
#[derive(Drop)]
pub struct GateItem {
    pub location: Location,
    pub kind: GateKind,
    pub gates: TermsList,
}

/// `. Name ( [ expr ] )`. The location is that of the `.`.
#[derive(Drop)]
pub struct Connection {
    pub location: Location,
    pub port: Name,
    pub value: Option<Expr>,
}

/// Connections by name, with commas between.
pub type ConnectionList = Items<Connection>;

/// Connections by order, with commas between, each of which may be empty.
pub type OptionalExprList = Items<Option<Expr>>;

/// The connections of an instance: by order, or by name. `()` is one empty connection by order.
#[derive(Drop)]
pub enum Connections {
    ByOrder(OptionalExprList),
    ByName(ConnectionList),
}

/// `[ Name ] ( connections )`: one instance of an item. `paren` is the location of the `(`.
#[derive(Drop)]
pub struct Inst {
    pub name: Option<Name>,
    pub paren: Location,
    pub connections: Connections,
}

/// Instances with commas between.
pub type InstList = Items<Inst>;

/// Instances of one module or user-defined primitive, whose name is the first token: `Name [ drive ]
/// [ delay ] inst , .. ;` (IEEE 1364-2005, 12.1.2 and 8.6).
#[derive(Drop)]
pub struct Instance {
    pub name: Name,
    pub drive: Option<DriveStrength>,
    pub delay: Option<DelaySpec>,
    pub instances: InstList,
}
