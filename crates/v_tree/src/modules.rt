ghost use Rattle.v_tree.specs.Fit.{AreFitLists};

use crate::declarations::{AssignItem, Direction, NetDecl, NetType, PortDecl, TriregDecl};
use crate::directives::{CellDirective, Directive, DirectiveList};
use crate::expressions::RangeBounds;
use crate::gates::{GateItem, Instance};
use crate::locations::{Location, Name, PlacedNameList};
use crate::primitives::{UdpDecl, UdpDeclList};
use sqlite_items::Items;

/// The word that begins a module.
#[derive(Clone, Copy, Debug, PartialEq, Eq)]
pub enum ModuleWord {
    Module,
    Macromodule,
}

/// `dir [ nettype ] [ range ] Name` in a header. The location is that of the direction.
#[derive(Debug, Drop)]
pub struct AnsiPort {
    pub location: Location,
    pub direction: Direction,
    pub net_type: Option<NetType>,
    pub range: Option<RangeBounds>,
    pub name: Name,
}

/// A port with its direction, or a name that continues the direction, type and range before it.
#[derive(Debug, Drop)]
pub enum AnsiEntry {
    Port(AnsiPort),
    Name(Name),
}

/// Entries, each behind a comma.
pub type AnsiEntryList = Items<AnsiEntry>;

/// The ports in the header of a module: no parentheses, nothing in them, names, or declarations (IEEE
/// 1364-2005, 12.3.1 and 12.3.4).
#[derive(Debug, Drop)]
pub enum Ports {
    Absent,
    Empty,
    Names(PlacedNameList),
    Ansi(AnsiPort, AnsiEntryList),
}

/// A block of path delays and timing checks, which is passed over (IEEE 1364-2005, 14): the location
/// of its first word, and how many tokens stand between that and `endspecify`.
#[derive(Clone, Copy, Debug, PartialEq, Eq)]
pub struct SpecifyBlock {
    pub location: Location,
    pub token_count: u32,
}

/// An item of a module.
#[derive(Drop)]
pub enum Item {
    Ports(PortDecl),
    Nets(NetDecl),
    Trireg(TriregDecl),
    Assign(AssignItem),
    Gates(GateItem),
    Instances(Instance),
    Cell(CellDirective),
    Specify(SpecifyBlock),
}

/// Items in their order.
pub type ItemList = Items<Item>;

/// A module (IEEE 1364-2005, 12.1). The location is that of its first word.
#[derive(Drop)]
pub struct Module {
    pub location: Location,
    pub word: ModuleWord,
    pub name: Name,
    pub ports: Ports,
    pub items: ItemList,
}

/// Modules in their order.
pub type ModuleList = Items<Module>;

/// A description of a netlist text: a module, a user-defined primitive or a directive (IEEE 1364-2005,
/// A.1.2 and 19).
#[derive(Drop)]
pub enum Description {
    Module(Module),
    Udp(UdpDecl),
    Directive(Directive),
}

/// A netlist text: its modules, its user-defined primitives, and its directives outside modules. Which
/// stands before which is told by the tokens of their locations. Each name is one or more bytes from `!`
/// to `~`, each number without base is below 2^31, each decimal has digits from 0 to 9 before and behind
/// its `.`, each literal has from 1 to 128 bits, each scale is a power of ten from -15 to 2,
/// concatenations stand at most 64 deep, and each list has fewer than 2^32 entries.
#[derive(Drop)]
pub struct File {
    pub modules: ModuleList,
    pub udps: UdpDeclList,
    pub directives: DirectiveList,
    ghost kept: { ∥ AreFitLists modules udps directives ∥₁ },
}
