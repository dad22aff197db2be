//! Runs of primitives, and runs up to the limit of passes.
use super::models::{ElementRow, RunRow, ST0, ST1, STX, TableRow, TimeRow, WIRE, Z};
use cell_step::PassEnd;
use flat_net::ElementKind;
use level_range::Logic;
use logic_tables::FoldKind;
use udp_table::Sym;

/// Three primitives: two whose inputs change in one pass, in the one and in the other port order, and
/// one in which a row of levels stands against a row with an edge.
const PRIMITIVES: RunRow = RunRow {
    nets: &[WIRE, WIRE, WIRE, WIRE, WIRE, WIRE],
    elements: &[
        ElementRow {
            kind: ElementKind::Udp(0),
            delays: &[],
            out: 0,
            ins: &[3, 4],
        },
        ElementRow {
            kind: ElementKind::Udp(1),
            delays: &[],
            out: 1,
            ins: &[4, 3],
        },
        ElementRow {
            kind: ElementKind::Udp(2),
            delays: &[],
            out: 2,
            ins: &[3, 5],
        },
        ElementRow {
            kind: ElementKind::Constant(Logic::Zero),
            delays: &[],
            out: 5,
            ins: &[],
        },
    ],
    tables: &[
        TableRow {
            rows: &[
                (Sym::Rise, Sym::Zero, Sym::Zero),
                (Sym::Rise, Sym::One, Sym::One),
                (Sym::Neg, Sym::Any, Sym::Same),
                (Sym::Any, Sym::Change, Sym::Same),
            ],
        },
        TableRow {
            rows: &[
                (Sym::Zero, Sym::Rise, Sym::Zero),
                (Sym::One, Sym::Rise, Sym::One),
                (Sym::Any, Sym::Neg, Sym::Same),
                (Sym::Change, Sym::Any, Sym::Same),
            ],
        },
        TableRow {
            rows: &[
                (Sym::Any, Sym::Zero, Sym::Zero),
                (Sym::Rise, Sym::Any, Sym::One),
                (Sym::Neg, Sym::Any, Sym::Same),
                (Sym::Any, Sym::Change, Sym::Same),
            ],
        },
    ],
    inputs: &[3, 4],
    outputs: &[0, 1, 2],
    limit: 10,
    times: &[
        TimeRow {
            tick: 0,
            inputs: &[ST0, ST0],
            passes: &[&[ST0, ST0, ST0]],
            end: PassEnd::Quiet,
            next: None,
        },
        TimeRow {
            tick: 10,
            inputs: &[ST1, ST1],
            passes: &[&[ST0, ST0, ST0], &[ST0, ST1, ST0]],
            end: PassEnd::Quiet,
            next: None,
        },
        TimeRow {
            tick: 20,
            inputs: &[ST0, ST1],
            passes: &[&[ST0, ST1, ST0]],
            end: PassEnd::Quiet,
            next: None,
        },
        TimeRow {
            tick: 30,
            inputs: &[ST1, ST1],
            passes: &[&[ST0, ST1, ST0], &[ST1, ST1, ST0]],
            end: PassEnd::Quiet,
            next: None,
        },
    ],
};

/// Two buffers one behind the other: a change at the input needs three passes, here as many as may be.
const BUFFERS: RunRow = RunRow {
    nets: &[WIRE, WIRE, WIRE],
    elements: &[
        ElementRow {
            kind: ElementKind::Fold(FoldKind::Buf),
            delays: &[],
            out: 1,
            ins: &[0],
        },
        ElementRow {
            kind: ElementKind::Fold(FoldKind::Buf),
            delays: &[],
            out: 2,
            ins: &[1],
        },
    ],
    tables: &[],
    inputs: &[0],
    outputs: &[1, 2],
    limit: 3,
    times: &[
        TimeRow {
            tick: 0,
            inputs: &[ST1],
            passes: &[&[STX, STX], &[ST1, STX], &[ST1, ST1]],
            end: PassEnd::Quiet,
            next: None,
        },
        TimeRow {
            tick: 7,
            inputs: &[Z],
            passes: &[&[ST1, ST1], &[STX, ST1], &[STX, STX]],
            end: PassEnd::Quiet,
            next: None,
        },
    ],
};

/// A ring of two nand gates, which is set, keeps its state, and is reset: a change needs three passes,
/// as many as may be.
const LATCH: RunRow = RunRow {
    nets: &[WIRE, WIRE, WIRE, WIRE],
    elements: &[
        ElementRow {
            kind: ElementKind::Fold(FoldKind::Nand),
            delays: &[],
            out: 0,
            ins: &[2, 1],
        },
        ElementRow {
            kind: ElementKind::Fold(FoldKind::Nand),
            delays: &[],
            out: 1,
            ins: &[3, 0],
        },
    ],
    tables: &[],
    inputs: &[2, 3],
    outputs: &[0, 1],
    limit: 3,
    times: &[
        TimeRow {
            tick: 0,
            inputs: &[ST0, ST1],
            passes: &[&[STX, STX], &[ST1, STX], &[ST1, ST0]],
            end: PassEnd::Quiet,
            next: None,
        },
        TimeRow {
            tick: 5,
            inputs: &[ST1, ST1],
            passes: &[&[ST1, ST0]],
            end: PassEnd::Quiet,
            next: None,
        },
        TimeRow {
            tick: 10,
            inputs: &[ST1, ST0],
            passes: &[&[ST1, ST0], &[ST1, ST1], &[ST0, ST1]],
            end: PassEnd::Quiet,
            next: None,
        },
    ],
};

/// The same with one pass fewer, which goes on where the time begins once more.
const SHORT_LATCH: RunRow = RunRow {
    limit: 2,
    times: &[
        TimeRow {
            tick: 0,
            inputs: &[ST0, ST1],
            passes: &[&[STX, STX], &[ST1, STX]],
            end: PassEnd::Oscillates,
            next: Some(0),
        },
        TimeRow {
            tick: 0,
            inputs: &[ST0, ST1],
            passes: &[&[ST1, ST0]],
            end: PassEnd::Quiet,
            next: None,
        },
    ],
    ..LATCH
};

/// A nand gate whose output is one of its inputs, and which has no delay.
const RING: RunRow = RunRow {
    nets: &[WIRE, WIRE],
    elements: &[ElementRow {
        kind: ElementKind::Fold(FoldKind::Nand),
        delays: &[],
        out: 0,
        ins: &[1, 0],
    }],
    tables: &[],
    inputs: &[1],
    outputs: &[0],
    limit: 5,
    times: &[
        TimeRow {
            tick: 0,
            inputs: &[ST0],
            passes: &[&[STX], &[ST1]],
            end: PassEnd::Quiet,
            next: None,
        },
        TimeRow {
            tick: 30,
            inputs: &[ST1],
            passes: &[&[ST1], &[ST0], &[ST1], &[ST0], &[ST1]],
            end: PassEnd::Oscillates,
            next: Some(30),
        },
    ],
};

/// The same with a delay of two ticks: one pass at each time is enough.
const SLOW_RING: RunRow = RunRow {
    elements: &[ElementRow {
        kind: ElementKind::Fold(FoldKind::Nand),
        delays: &[2],
        out: 0,
        ins: &[1, 0],
    }],
    limit: 1,
    times: &[
        TimeRow {
            tick: 0,
            inputs: &[ST0],
            passes: &[&[STX]],
            end: PassEnd::Quiet,
            next: Some(2),
        },
        TimeRow {
            tick: 2,
            inputs: &[ST0],
            passes: &[&[ST1]],
            end: PassEnd::Quiet,
            next: None,
        },
        TimeRow {
            tick: 10,
            inputs: &[ST1],
            passes: &[&[ST1]],
            end: PassEnd::Quiet,
            next: Some(12),
        },
        TimeRow {
            tick: 12,
            inputs: &[ST1],
            passes: &[&[ST0]],
            end: PassEnd::Quiet,
            next: Some(14),
        },
        TimeRow {
            tick: 14,
            inputs: &[ST1],
            passes: &[&[ST1]],
            end: PassEnd::Quiet,
            next: Some(16),
        },
    ],
    ..RING
};

static PRIMITIVE_RUNS: [RunRow; 1] = [PRIMITIVES];

static PASSES: [RunRow; 5] = [BUFFERS, LATCH, SHORT_LATCH, RING, SLOW_RING];

pub(crate) fn primitives() -> &'static [RunRow] {
    &PRIMITIVE_RUNS
}

pub(crate) fn passes() -> &'static [RunRow] {
    &PASSES
}
