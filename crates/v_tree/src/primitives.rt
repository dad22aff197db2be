use crate::locations::{Location, Name, PlacedNameList};
use sqlite_items::Items;
use udp_table::UdpRow;
use v_lexer::Literal;

/// A literal of a start value.
#[derive(Debug, Drop)]
pub enum Lit {
    Number(Location, u32),
    Based(Location, Literal),
}

/// `[ input ] Name` in a header, and whether the word is there.
#[derive(Debug, Drop)]
pub struct UdpInput {
    pub has_word: bool,
    pub name: Name,
}

/// Inputs, each behind a comma.
pub type UdpInputList = Items<UdpInput>;

/// The header of a primitive: names, or `output [ reg ] Name [ = lit ]` and inputs (IEEE 1364-2005,
/// 8.1.2).
#[derive(Debug, Drop)]
pub enum UdpPorts {
    Names(PlacedNameList),
    Declared {
        is_reg: bool,
        output: Name,
        start: Option<Lit>,
        inputs: UdpInputList,
    },
}

/// A declaration in a primitive. The location is that of its first word.
#[derive(Debug, Drop)]
pub enum UdpItem {
    Output {
        location: Location,
        is_reg: bool,
        name: Name,
        start: Option<Lit>,
    },
    Input(Location, PlacedNameList),
    Reg(Location, Name),
}

/// Declarations in their order.
pub type UdpItemList = Items<UdpItem>;

/// `initial Name = lit ;` (IEEE 1364-2005, 8.5). The location is that of the word.
#[derive(Debug, Drop)]
pub struct UdpInitial {
    pub location: Location,
    pub name: Name,
    pub value: Lit,
}

/// A row of the table, with the location of its first token.
#[derive(Debug, Drop)]
pub struct PlacedRow {
    pub location: Location,
    pub row: UdpRow,
}

/// Rows in their order.
pub type PlacedRowList = Items<PlacedRow>;

/// A user-defined primitive (IEEE 1364-2005, 8.1). The location is that of the word `primitive`.
#[derive(Debug, Drop)]
pub struct UdpDecl {
    pub location: Location,
    pub name: Name,
    pub ports: UdpPorts,
    pub items: UdpItemList,
    pub initial: Option<UdpInitial>,
    pub rows: PlacedRowList,
}

/// Primitives in their order.
pub type UdpDeclList = Items<UdpDecl>;
