//! Parts that break one sentence of soundness each.
use super::sample::{ElementRow, FindRow, IslandRow, NetRow};
use flat_net::{ElementKind, NetKind};
use level_range::{Kind, Logic};
use logic_tables::FoldKind;

/// One part that is other than in the sample.
pub enum Change {
    Nothing,
    Net(usize, NetRow),
    Element(usize, ElementRow),
    Island(usize, IslandRow),
    NetName(usize, &'static str),
    ElementName(usize, &'static str),
    Find(usize, FindRow),
    Inputs(&'static [u32]),
    Outputs(&'static [u32]),
}

pub struct Flaw {
    pub name: &'static str,
    pub change: Change,
}

static FLAWS: [Flaw; 37] = [
    Flaw {
        name: "a strength of 8",
        change: Change::Element(
            4,
            ElementRow {
                kind: ElementKind::Fold(FoldKind::And),
                s1: 8,
                outs: &[4],
                ins: &[3, 5],
                ends: None,
            },
        ),
    },
    Flaw {
        name: "a pin on a net past the last",
        change: Change::Element(
            4,
            ElementRow {
                kind: ElementKind::Fold(FoldKind::And),
                s1: 6,
                outs: &[4],
                ins: &[3, 8],
                ends: None,
            },
        ),
    },
    Flaw {
        name: "a gate with two outputs",
        change: Change::Element(
            4,
            ElementRow {
                kind: ElementKind::Fold(FoldKind::And),
                s1: 6,
                outs: &[4, 4],
                ins: &[3, 5],
                ends: None,
            },
        ),
    },
    Flaw {
        name: "a gate without inputs",
        change: Change::Element(
            4,
            ElementRow {
                kind: ElementKind::Fold(FoldKind::And),
                s1: 6,
                outs: &[4],
                ins: &[],
                ends: None,
            },
        ),
    },
    Flaw {
        name: "a buffer with two inputs",
        change: Change::Element(
            3,
            ElementRow {
                kind: ElementKind::Fold(FoldKind::Buf),
                s1: 6,
                outs: &[6, 7],
                ins: &[4, 5],
                ends: None,
            },
        ),
    },
    Flaw {
        name: "a primitive with an input too few",
        change: Change::Element(
            2,
            ElementRow {
                kind: ElementKind::Udp(0),
                s1: 6,
                outs: &[5],
                ins: &[3],
                ends: None,
            },
        ),
    },
    Flaw {
        name: "a primitive that is not there",
        change: Change::Element(
            2,
            ElementRow {
                kind: ElementKind::Udp(1),
                s1: 6,
                outs: &[5],
                ins: &[3, 0],
                ends: None,
            },
        ),
    },
    Flaw {
        name: "a constant with an input",
        change: Change::Element(
            5,
            ElementRow {
                kind: ElementKind::Constant(Logic::One),
                s1: 6,
                outs: &[4],
                ins: &[0],
                ends: None,
            },
        ),
    },
    Flaw {
        name: "a gate with ends",
        change: Change::Element(
            4,
            ElementRow {
                kind: ElementKind::Fold(FoldKind::And),
                s1: 6,
                outs: &[4],
                ins: &[3, 5],
                ends: Some((0, 1)),
            },
        ),
    },
    Flaw {
        name: "a switch without ends",
        change: Change::Element(
            0,
            ElementRow {
                kind: ElementKind::Tran,
                s1: 6,
                outs: &[],
                ins: &[],
                ends: None,
            },
        ),
    },
    Flaw {
        name: "a switch without a control",
        change: Change::Element(
            1,
            ElementRow {
                kind: ElementKind::Tranif { on_one: true },
                s1: 6,
                outs: &[],
                ins: &[],
                ends: Some((1, 2)),
            },
        ),
    },
    Flaw {
        name: "a trireg with a charge of 3",
        change: Change::Net(
            2,
            NetRow {
                kind: NetKind::Trireg,
                charge: 3,
                island: 0,
                place: 2,
            },
        ),
    },
    Flaw {
        name: "a wire with a charge",
        change: Change::Net(
            3,
            NetRow {
                kind: NetKind::Wire,
                charge: 1,
                island: 1,
                place: 0,
            },
        ),
    },
    Flaw {
        name: "a net of an island past the last",
        change: Change::Net(
            3,
            NetRow {
                kind: NetKind::Wire,
                charge: 0,
                island: 6,
                place: 0,
            },
        ),
    },
    Flaw {
        name: "a net at another place",
        change: Change::Net(
            3,
            NetRow {
                kind: NetKind::Wire,
                charge: 0,
                island: 1,
                place: 1,
            },
        ),
    },
    Flaw {
        name: "a net in two islands",
        change: Change::Island(
            1,
            IslandRow {
                nets: &[3, 5],
                drives: &[],
                links: &[],
                kinds: &[Kind::Plain, Kind::Plain],
                charge: &[0, 0],
                ends: &[],
            },
        ),
    },
    Flaw {
        name: "an island without nets",
        change: Change::Island(
            1,
            IslandRow {
                nets: &[],
                drives: &[],
                links: &[],
                kinds: &[],
                charge: &[],
                ends: &[],
            },
        ),
    },
    Flaw {
        name: "a switch between two islands",
        change: Change::Element(
            0,
            ElementRow {
                kind: ElementKind::Tran,
                s1: 6,
                outs: &[],
                ins: &[],
                ends: Some((0, 3)),
            },
        ),
    },
    Flaw {
        name: "a drive listed twice",
        change: Change::Island(
            3,
            IslandRow {
                nets: &[5],
                drives: &[(2, 0, 0), (2, 0, 0)],
                links: &[],
                kinds: &[Kind::Plain],
                charge: &[0],
                ends: &[],
            },
        ),
    },
    Flaw {
        name: "a drive missing",
        change: Change::Island(
            2,
            IslandRow {
                nets: &[4],
                drives: &[(4, 0, 0)],
                links: &[],
                kinds: &[Kind::And],
                charge: &[0],
                ends: &[],
            },
        ),
    },
    Flaw {
        name: "a drive of a pin past the outputs",
        change: Change::Island(
            3,
            IslandRow {
                nets: &[5],
                drives: &[(2, 1, 0)],
                links: &[],
                kinds: &[Kind::Plain],
                charge: &[0],
                ends: &[],
            },
        ),
    },
    Flaw {
        name: "a drive on another net",
        change: Change::Island(
            4,
            IslandRow {
                nets: &[6],
                drives: &[(3, 1, 0)],
                links: &[],
                kinds: &[Kind::Plain],
                charge: &[0],
                ends: &[],
            },
        ),
    },
    Flaw {
        name: "a link missing",
        change: Change::Island(
            0,
            IslandRow {
                nets: &[0, 1, 2],
                drives: &[],
                links: &[0],
                kinds: &[Kind::Plain, Kind::Plain, Kind::Plain],
                charge: &[0, 0, 2],
                ends: &[(0, 1)],
            },
        ),
    },
    Flaw {
        name: "a link listed twice",
        change: Change::Island(
            0,
            IslandRow {
                nets: &[0, 1, 2],
                drives: &[],
                links: &[0, 1, 1],
                kinds: &[Kind::Plain, Kind::Plain, Kind::Plain],
                charge: &[0, 0, 2],
                ends: &[(0, 1), (1, 2), (1, 2)],
            },
        ),
    },
    Flaw {
        name: "a link with its ends exchanged",
        change: Change::Island(
            0,
            IslandRow {
                nets: &[0, 1, 2],
                drives: &[],
                links: &[0, 1],
                kinds: &[Kind::Plain, Kind::Plain, Kind::Plain],
                charge: &[0, 0, 2],
                ends: &[(1, 0), (1, 2)],
            },
        ),
    },
    Flaw {
        name: "a link of a gate",
        change: Change::Island(
            0,
            IslandRow {
                nets: &[0, 1, 2],
                drives: &[],
                links: &[0, 4],
                kinds: &[Kind::Plain, Kind::Plain, Kind::Plain],
                charge: &[0, 0, 2],
                ends: &[(0, 1), (1, 2)],
            },
        ),
    },
    Flaw {
        name: "a kind too many",
        change: Change::Island(
            1,
            IslandRow {
                nets: &[3],
                drives: &[],
                links: &[],
                kinds: &[Kind::Plain, Kind::Plain],
                charge: &[0],
                ends: &[],
            },
        ),
    },
    Flaw {
        name: "a wand net settled as a plain one",
        change: Change::Island(
            2,
            IslandRow {
                nets: &[4],
                drives: &[(4, 0, 0), (5, 0, 0)],
                links: &[],
                kinds: &[Kind::Plain],
                charge: &[0],
                ends: &[],
            },
        ),
    },
    Flaw {
        name: "a trireg settled without its charge",
        change: Change::Island(
            0,
            IslandRow {
                nets: &[0, 1, 2],
                drives: &[],
                links: &[0, 1],
                kinds: &[Kind::Plain, Kind::Plain, Kind::Plain],
                charge: &[0, 0, 0],
                ends: &[(0, 1), (1, 2)],
            },
        ),
    },
    Flaw {
        name: "an input twice",
        change: Change::Inputs(&[3, 3]),
    },
    Flaw {
        name: "an output past the last net",
        change: Change::Outputs(&[5, 8]),
    },
    Flaw {
        name: "a net name twice",
        change: Change::NetName(1, "a"),
    },
    Flaw {
        name: "a net name that is not ASCII",
        change: Change::NetName(1, "\u{e9}"),
    },
    Flaw {
        name: "an element name twice",
        change: Change::ElementName(4, "t0"),
    },
    Flaw {
        name: "a name found twice",
        change: Change::Find(
            1,
            FindRow {
                name: "a",
                nets: &[1],
            },
        ),
    },
    Flaw {
        name: "a name that finds no net",
        change: Change::Find(
            1,
            FindRow {
                name: "b",
                nets: &[],
            },
        ),
    },
    Flaw {
        name: "a name that finds a net past the last",
        change: Change::Find(
            1,
            FindRow {
                name: "b",
                nets: &[8],
            },
        ),
    },
];

pub(crate) fn flaws() -> &'static [Flaw] {
    &FLAWS
}
