//! A sound netlist: an island of three nets with a trireg, a wand net, a primitive, and a name of two
//! bits.
use flat_net::{ElementKind, NetKind};
use level_range::{Kind, Logic};
use logic_tables::FoldKind;

pub struct NetRow {
    pub kind: NetKind,
    pub charge: u8,
    pub island: u32,
    pub place: u32,
}

pub struct ElementRow {
    pub kind: ElementKind,
    pub s1: u8,
    pub outs: &'static [u32],
    pub ins: &'static [u32],
    pub ends: Option<(u32, u32)>,
}

pub struct IslandRow {
    pub nets: &'static [u32],
    /// Element, pin, place.
    pub drives: &'static [(u32, u32, u32)],
    pub links: &'static [u32],
    pub kinds: &'static [Kind],
    pub charge: &'static [u8],
    /// The places of the two ends of each link.
    pub ends: &'static [(u32, u32)],
}

pub struct FindRow {
    pub name: &'static str,
    pub nets: &'static [u32],
}

static NETS: [NetRow; 8] = [
    NetRow {
        kind: NetKind::Wire,
        charge: 0,
        island: 0,
        place: 0,
    },
    NetRow {
        kind: NetKind::Wire,
        charge: 0,
        island: 0,
        place: 1,
    },
    NetRow {
        kind: NetKind::Trireg,
        charge: 2,
        island: 0,
        place: 2,
    },
    NetRow {
        kind: NetKind::Wire,
        charge: 0,
        island: 1,
        place: 0,
    },
    NetRow {
        kind: NetKind::And,
        charge: 0,
        island: 2,
        place: 0,
    },
    NetRow {
        kind: NetKind::Wire,
        charge: 0,
        island: 3,
        place: 0,
    },
    NetRow {
        kind: NetKind::Wire,
        charge: 0,
        island: 4,
        place: 0,
    },
    NetRow {
        kind: NetKind::Wire,
        charge: 0,
        island: 5,
        place: 0,
    },
];

static ELEMENTS: [ElementRow; 6] = [
    ElementRow {
        kind: ElementKind::Tran,
        s1: 6,
        outs: &[],
        ins: &[],
        ends: Some((0, 1)),
    },
    ElementRow {
        kind: ElementKind::Tranif { on_one: true },
        s1: 6,
        outs: &[],
        ins: &[3],
        ends: Some((1, 2)),
    },
    ElementRow {
        kind: ElementKind::Udp(0),
        s1: 6,
        outs: &[5],
        ins: &[3, 0],
        ends: None,
    },
    ElementRow {
        kind: ElementKind::Fold(FoldKind::Buf),
        s1: 6,
        outs: &[6, 7],
        ins: &[4],
        ends: None,
    },
    ElementRow {
        kind: ElementKind::Fold(FoldKind::And),
        s1: 6,
        outs: &[4],
        ins: &[3, 5],
        ends: None,
    },
    ElementRow {
        kind: ElementKind::Constant(Logic::One),
        s1: 6,
        outs: &[4],
        ins: &[],
        ends: None,
    },
];

static ISLANDS: [IslandRow; 6] = [
    IslandRow {
        nets: &[0, 1, 2],
        drives: &[],
        links: &[0, 1],
        kinds: &[Kind::Plain, Kind::Plain, Kind::Plain],
        charge: &[0, 0, 2],
        ends: &[(0, 1), (1, 2)],
    },
    IslandRow {
        nets: &[3],
        drives: &[],
        links: &[],
        kinds: &[Kind::Plain],
        charge: &[0],
        ends: &[],
    },
    IslandRow {
        nets: &[4],
        drives: &[(4, 0, 0), (5, 0, 0)],
        links: &[],
        kinds: &[Kind::And],
        charge: &[0],
        ends: &[],
    },
    IslandRow {
        nets: &[5],
        drives: &[(2, 0, 0)],
        links: &[],
        kinds: &[Kind::Plain],
        charge: &[0],
        ends: &[],
    },
    IslandRow {
        nets: &[6],
        drives: &[(3, 0, 0)],
        links: &[],
        kinds: &[Kind::Plain],
        charge: &[0],
        ends: &[],
    },
    IslandRow {
        nets: &[7],
        drives: &[(3, 1, 0)],
        links: &[],
        kinds: &[Kind::Plain],
        charge: &[0],
        ends: &[],
    },
];

static NET_NAMES: [&str; 8] = ["a", "b", "c", "g", "w", "y", "v[1]", "v[0]"];

static ELEMENT_NAMES: [&str; 6] = ["t0", "t1", "u0", "b0", "a0", "k0"];

static FINDS: [FindRow; 7] = [
    FindRow {
        name: "a",
        nets: &[0],
    },
    FindRow {
        name: "b",
        nets: &[1],
    },
    FindRow {
        name: "c",
        nets: &[2],
    },
    FindRow {
        name: "g",
        nets: &[3],
    },
    FindRow {
        name: "w",
        nets: &[4],
    },
    FindRow {
        name: "y",
        nets: &[5],
    },
    FindRow {
        name: "v",
        nets: &[6, 7],
    },
];

pub(crate) fn net_rows() -> &'static [NetRow] {
    &NETS
}

pub(crate) fn element_rows() -> &'static [ElementRow] {
    &ELEMENTS
}

pub(crate) fn island_rows() -> &'static [IslandRow] {
    &ISLANDS
}

pub(crate) fn find_rows() -> &'static [FindRow] {
    &FINDS
}

pub(crate) fn net_names() -> &'static [&'static str] {
    &NET_NAMES
}

pub(crate) fn element_names() -> &'static [&'static str] {
    &ELEMENT_NAMES
}
