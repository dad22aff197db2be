//! Runs of charges and of changes that wait.
use super::models::{ElementRow, LA0, LA1, LAX, NetRow, RunRow, ST0, ST1, STX, TimeRow, WIRE, Z};
use cell_step::PassEnd;
use flat_net::{ElementKind, NetKind};
use logic_tables::FoldKind;

/// A large trireg that a switch drives, and whose charge decays 50 ticks after the switch opens,
/// unless the switch closes before.
const DECAY: RunRow = RunRow {
    nets: &[
        NetRow {
            kind: NetKind::Trireg,
            charge: 4,
            delays: &[0, 0, 50],
        },
        WIRE,
        WIRE,
    ],
    elements: &[ElementRow {
        kind: ElementKind::Mos {
            on_one: true,
            resistive: false,
        },
        delays: &[],
        out: 0,
        ins: &[1, 2],
    }],
    tables: &[],
    inputs: &[1, 2],
    outputs: &[0],
    limit: 10,
    times: &[
        TimeRow {
            tick: 0,
            inputs: &[ST1, ST1],
            passes: &[&[LAX], &[STX], &[ST1]],
            end: PassEnd::Quiet,
            next: None,
        },
        TimeRow {
            tick: 10,
            inputs: &[ST1, ST0],
            passes: &[&[ST1], &[ST1], &[LA1]],
            end: PassEnd::Quiet,
            next: Some(60),
        },
        TimeRow {
            tick: 40,
            inputs: &[ST0, ST1],
            passes: &[&[LA1], &[LA1], &[ST0]],
            end: PassEnd::Quiet,
            next: None,
        },
        TimeRow {
            tick: 45,
            inputs: &[ST0, ST0],
            passes: &[&[ST0], &[ST0], &[LA0]],
            end: PassEnd::Quiet,
            next: Some(95),
        },
        TimeRow {
            tick: 94,
            inputs: &[ST1, ST0],
            passes: &[&[LA0]],
            end: PassEnd::Quiet,
            next: Some(95),
        },
        TimeRow {
            tick: 95,
            inputs: &[ST1, ST0],
            passes: &[&[LA0], &[LAX]],
            end: PassEnd::Quiet,
            next: None,
        },
    ],
};

/// An or gate that rises in 5 ticks and falls in 3: a fall removes the rise that is pending, and a
/// further input of 1 keeps its time.
const INERTIA: RunRow = RunRow {
    nets: &[WIRE, WIRE, WIRE],
    elements: &[ElementRow {
        kind: ElementKind::Fold(FoldKind::Or),
        delays: &[5, 3],
        out: 0,
        ins: &[1, 2],
    }],
    tables: &[],
    inputs: &[1, 2],
    outputs: &[0],
    limit: 10,
    times: &[
        TimeRow {
            tick: 0,
            inputs: &[ST0, ST0],
            passes: &[&[STX]],
            end: PassEnd::Quiet,
            next: Some(3),
        },
        TimeRow {
            tick: 3,
            inputs: &[ST0, ST0],
            passes: &[&[ST0]],
            end: PassEnd::Quiet,
            next: None,
        },
        TimeRow {
            tick: 10,
            inputs: &[ST1, ST0],
            passes: &[&[ST0]],
            end: PassEnd::Quiet,
            next: Some(15),
        },
        TimeRow {
            tick: 12,
            inputs: &[ST0, ST0],
            passes: &[&[ST0]],
            end: PassEnd::Quiet,
            next: None,
        },
        TimeRow {
            tick: 14,
            inputs: &[ST1, ST0],
            passes: &[&[ST0]],
            end: PassEnd::Quiet,
            next: Some(19),
        },
        TimeRow {
            tick: 16,
            inputs: &[ST1, ST1],
            passes: &[&[ST0]],
            end: PassEnd::Quiet,
            next: Some(19),
        },
        TimeRow {
            tick: 19,
            inputs: &[ST1, ST1],
            passes: &[&[ST1]],
            end: PassEnd::Quiet,
            next: None,
        },
    ],
};

/// A wire that rises in 7 ticks and falls in 4, behind a buffer of 3 ticks: at 27 both the buffer and
/// the wire change.
const SLOW_WIRE: RunRow = RunRow {
    nets: &[
        NetRow {
            kind: NetKind::Wire,
            charge: 0,
            delays: &[7, 4],
        },
        WIRE,
    ],
    elements: &[ElementRow {
        kind: ElementKind::Fold(FoldKind::Buf),
        delays: &[3],
        out: 0,
        ins: &[1],
    }],
    tables: &[],
    inputs: &[1],
    outputs: &[0],
    limit: 10,
    times: &[
        TimeRow {
            tick: 0,
            inputs: &[ST1],
            passes: &[&[Z]],
            end: PassEnd::Quiet,
            next: Some(3),
        },
        TimeRow {
            tick: 3,
            inputs: &[ST1],
            passes: &[&[Z]],
            end: PassEnd::Quiet,
            next: Some(10),
        },
        TimeRow {
            tick: 10,
            inputs: &[ST1],
            passes: &[&[ST1]],
            end: PassEnd::Quiet,
            next: None,
        },
        TimeRow {
            tick: 20,
            inputs: &[ST0],
            passes: &[&[ST1]],
            end: PassEnd::Quiet,
            next: Some(23),
        },
        TimeRow {
            tick: 23,
            inputs: &[ST0],
            passes: &[&[ST1]],
            end: PassEnd::Quiet,
            next: Some(27),
        },
        TimeRow {
            tick: 24,
            inputs: &[ST1],
            passes: &[&[ST1]],
            end: PassEnd::Quiet,
            next: Some(27),
        },
        TimeRow {
            tick: 27,
            inputs: &[ST1],
            passes: &[&[ST0]],
            end: PassEnd::Quiet,
            next: Some(34),
        },
        TimeRow {
            tick: 34,
            inputs: &[ST1],
            passes: &[&[ST1]],
            end: PassEnd::Quiet,
            next: None,
        },
    ],
};

/// Three buffers of one input, with the delays 1, 1,000 and 2^31 - 1: changes that lie far apart, one
/// that is put off, one at 2^48, the last time of a run, and one that comes after it.
const FAR: RunRow = RunRow {
    nets: &[WIRE, WIRE, WIRE, WIRE],
    elements: &[
        ElementRow {
            kind: ElementKind::Fold(FoldKind::Buf),
            delays: &[1],
            out: 0,
            ins: &[3],
        },
        ElementRow {
            kind: ElementKind::Fold(FoldKind::Buf),
            delays: &[1_000],
            out: 1,
            ins: &[3],
        },
        ElementRow {
            kind: ElementKind::Fold(FoldKind::Buf),
            delays: &[2_147_483_647],
            out: 2,
            ins: &[3],
        },
    ],
    tables: &[],
    inputs: &[3],
    outputs: &[0, 1, 2],
    limit: 10,
    times: &[
        TimeRow {
            tick: 0,
            inputs: &[ST1],
            passes: &[&[STX, STX, STX]],
            end: PassEnd::Quiet,
            next: Some(1),
        },
        TimeRow {
            tick: 1,
            inputs: &[ST1],
            passes: &[&[ST1, STX, STX]],
            end: PassEnd::Quiet,
            next: Some(1_000),
        },
        TimeRow {
            tick: 1_000,
            inputs: &[ST1],
            passes: &[&[ST1, ST1, STX]],
            end: PassEnd::Quiet,
            next: Some(2_147_483_647),
        },
        TimeRow {
            tick: 2_147_483_646,
            inputs: &[ST0],
            passes: &[&[ST1, ST1, STX]],
            end: PassEnd::Quiet,
            next: Some(2_147_483_647),
        },
        TimeRow {
            tick: 2_147_483_647,
            inputs: &[ST0],
            passes: &[&[ST0, ST1, STX]],
            end: PassEnd::Quiet,
            next: Some(2_147_484_646),
        },
        TimeRow {
            tick: 2_147_484_646,
            inputs: &[ST0],
            passes: &[&[ST0, ST0, STX]],
            end: PassEnd::Quiet,
            next: Some(4_294_967_293),
        },
        TimeRow {
            tick: 4_294_967_293,
            inputs: &[ST0],
            passes: &[&[ST0, ST0, ST0]],
            end: PassEnd::Quiet,
            next: None,
        },
        TimeRow {
            tick: 281_472_829_227_009,
            inputs: &[ST1],
            passes: &[&[ST0, ST0, ST0]],
            end: PassEnd::Quiet,
            next: Some(281_472_829_227_010),
        },
        TimeRow {
            tick: 281_472_829_228_009,
            inputs: &[ST1],
            passes: &[&[ST1, ST1, ST0]],
            end: PassEnd::Quiet,
            next: Some(281_474_976_710_656),
        },
        TimeRow {
            tick: 281_474_976_710_656,
            inputs: &[ST0],
            passes: &[&[ST1, ST1, ST1]],
            end: PassEnd::Quiet,
            next: Some(281_474_976_710_657),
        },
    ],
};

static DELAYS: [RunRow; 4] = [DECAY, INERTIA, SLOW_WIRE, FAR];

pub(crate) fn delays() -> &'static [RunRow] {
    &DELAYS
}
