//! Runs of a ring, which oscillates where it has no delay.
use super::models::{GateRow, RunRow, ST0, ST1, STX, StepRow};
use flat_net::ElementKind;
use logic_tables::FoldKind;
use stimulus_run::StepEnd;

/// A nand gate without delay whose output is one of its inputs: each of its passes leaves a change that
/// is due. No step is made after it, and no strobe is read.
const RING: RunRow = RunRow {
    names: &["y", "a"],
    gates: &[GateRow {
        kind: ElementKind::Fold(FoldKind::Nand),
        delays: &[],
        out: 0,
        ins: &[1, 0],
    }],
    inputs: &[1],
    outputs: &[0],
    limit: 5,
    text: "vectors 1\ninputs a\n0 0\nstrobe 4\n10 1\nstrobe 10\nstrobe 20\nend 30\n",
    steps: &[
        StepRow {
            end: StepEnd::Ended(0),
            seen: &[ST1],
            read: "",
        },
        StepRow {
            end: StepEnd::Ended(4),
            seen: &[ST1],
            read: "?",
        },
        StepRow {
            end: StepEnd::Oscillates(10),
            seen: &[ST1],
            read: "",
        },
        StepRow {
            end: StepEnd::Over,
            seen: &[ST1],
            read: "",
        },
    ],
};

/// The same with one pass fewer.
const SHORTER: RunRow = RunRow {
    limit: 4,
    steps: &[
        StepRow {
            end: StepEnd::Ended(0),
            seen: &[ST1],
            read: "",
        },
        StepRow {
            end: StepEnd::Ended(4),
            seen: &[ST1],
            read: "?",
        },
        StepRow {
            end: StepEnd::Oscillates(10),
            seen: &[ST0],
            read: "",
        },
        StepRow {
            end: StepEnd::Over,
            seen: &[ST0],
            read: "",
        },
    ],
    ..RING
};

/// The same with one pass, which is too few for the first step.
const ONE: RunRow = RunRow {
    limit: 1,
    steps: &[
        StepRow {
            end: StepEnd::Oscillates(0),
            seen: &[STX],
            read: "",
        },
        StepRow {
            end: StepEnd::Over,
            seen: &[STX],
            read: "",
        },
    ],
    ..RING
};

/// The same with a delay of 10 ticks: it goes on up to the end, with one pass at a time.
const SLOW: RunRow = RunRow {
    gates: &[GateRow {
        kind: ElementKind::Fold(FoldKind::Nand),
        delays: &[10],
        out: 0,
        ins: &[1, 0],
    }],
    limit: 1,
    text: "vectors 1\ninputs a\n0 0\n15 1\nstrobe 35\nend 45\n",
    steps: &[
        StepRow {
            end: StepEnd::Ended(0),
            seen: &[STX],
            read: "",
        },
        StepRow {
            end: StepEnd::Ended(10),
            seen: &[ST1],
            read: "",
        },
        StepRow {
            end: StepEnd::Ended(15),
            seen: &[ST1],
            read: "",
        },
        StepRow {
            end: StepEnd::Ended(25),
            seen: &[ST0],
            read: "",
        },
        StepRow {
            end: StepEnd::Ended(35),
            seen: &[ST1],
            read: "?",
        },
        StepRow {
            end: StepEnd::Ended(45),
            seen: &[ST0],
            read: "",
        },
        StepRow {
            end: StepEnd::Over,
            seen: &[ST0],
            read: "",
        },
    ],
    ..RING
};

static RINGS: [RunRow; 4] = [RING, SHORTER, ONE, SLOW];

pub(crate) fn rings() -> &'static [RunRow] {
    &RINGS
}
