//! The syntax tree of a netlist: a type for each rule of the grammar, with a field for each part of the
//! rule, a list for each repetition and a variant for each choice.
#![tactic(auto)]

mod declarations;
mod directives;
mod drives;
mod expressions;
mod gates;
mod locations;
mod modules;
mod primitives;

pub use declarations::{
    AssignItem, DeclaredNames, Direction, NetDecl, NetType, Pair, PairList, PortDecl, TriregDecl,
    ValuedName, ValuedNameList, VectorRange, VectorWord,
};
pub use directives::{
    CellDirective, CellWord, DefaultNettype, Directive, DirectiveList, ImplicitNetType, Timescale,
};
pub use drives::{
    Amount, Charge, Delay, DelaySpec, DelayValue, DelayValueList, DriveStrength, Level, PullLevels,
    Strength,
};
pub use expressions::{Expr, ExprList, Pick, RangeBounds, Select, Target, TargetList};
pub use gates::{
    Connection, ConnectionList, Connections, GateItem, GateKind, Inst, InstList, Instance,
    LogicGate, OptionalExprList, PullGate, Switch, Terms, TermsList, TranGate,
};
pub use locations::{Location, Name, PlacedNameList};
pub use modules::{
    AnsiEntry, AnsiEntryList, AnsiPort, Description, File, Item, ItemList, Module, ModuleList,
    ModuleWord, Ports, SpecifyBlock,
};
pub use primitives::{
    Lit, PlacedRow, PlacedRowList, UdpDecl, UdpDeclList, UdpInitial, UdpInput, UdpInputList,
    UdpItem, UdpItemList, UdpPorts,
};
