//! Runs whose steps all end.
use super::models::{GateRow, RunRow, ST0, ST1, STX, StepRow, Z};
use flat_net::ElementKind;
use logic_tables::{EnableKind, FoldKind};
use stimulus_run::StepEnd;

/// An or gate that rises in 5 ticks and falls in 3. The fall at 12 removes the rise that is due at 15,
/// and the second input at 16 keeps the time 19.
const PULSES: RunRow = RunRow {
    names: &["y", "a", "b"],
    gates: &[GateRow {
        kind: ElementKind::Fold(FoldKind::Or),
        delays: &[5, 3],
        out: 0,
        ins: &[1, 2],
    }],
    inputs: &[1, 2],
    outputs: &[0],
    limit: 1_000,
    text: "vectors 1\ninputs a b\n0 00\n10 10\n12 00\n14 10\n16 11\nstrobe 19\nend 25\n",
    steps: &[
        StepRow {
            end: StepEnd::Ended(0),
            seen: &[STX],
            read: "",
        },
        StepRow {
            end: StepEnd::Ended(3),
            seen: &[ST0],
            read: "",
        },
        StepRow {
            end: StepEnd::Ended(10),
            seen: &[ST0],
            read: "",
        },
        StepRow {
            end: StepEnd::Ended(12),
            seen: &[ST0],
            read: "",
        },
        StepRow {
            end: StepEnd::Ended(14),
            seen: &[ST0],
            read: "",
        },
        StepRow {
            end: StepEnd::Ended(16),
            seen: &[ST0],
            read: "",
        },
        StepRow {
            end: StepEnd::Ended(19),
            seen: &[ST1],
            read: "?",
        },
        StepRow {
            end: StepEnd::Ended(25),
            seen: &[ST1],
            read: "",
        },
        StepRow {
            end: StepEnd::Over,
            seen: &[ST1],
            read: "",
        },
    ],
};

/// The same gate, where the input `b` isn't listed and has z, and `a` is x before its first value.
const LATE: RunRow = RunRow {
    text: "vectors 2\ninputs a\noutputs y\nexpect 0 x\n5 1\nexpect 5 -\nstrobe 8\nexpect 10 1\nend 10\n",
    steps: &[
        StepRow {
            end: StepEnd::Ended(0),
            seen: &[STX],
            read: "?x",
        },
        StepRow {
            end: StepEnd::Ended(5),
            seen: &[STX],
            read: "?-",
        },
        StepRow {
            end: StepEnd::Ended(8),
            seen: &[STX],
            read: "?",
        },
        StepRow {
            end: StepEnd::Ended(10),
            seen: &[ST1],
            read: "?1",
        },
        StepRow {
            end: StepEnd::Over,
            seen: &[ST1],
            read: "?1",
        },
    ],
    ..PULSES
};

/// The same gate, where the end comes before the first change.
const SHORT: RunRow = RunRow {
    text: "vectors 1\ninputs a b\n0 00\nend 2\n",
    steps: &[
        StepRow {
            end: StepEnd::Ended(0),
            seen: &[STX],
            read: "",
        },
        StepRow {
            end: StepEnd::Ended(2),
            seen: &[STX],
            read: "",
        },
        StepRow {
            end: StepEnd::Over,
            seen: &[STX],
            read: "",
        },
    ],
    ..PULSES
};

/// The same gate without lines, and with the end at 0.
const EMPTY: RunRow = RunRow {
    text: "vectors 1\ninputs a b\nend 0\n",
    steps: &[
        StepRow {
            end: StepEnd::Ended(0),
            seen: &[STX],
            read: "",
        },
        StepRow {
            end: StepEnd::Over,
            seen: &[STX],
            read: "",
        },
    ],
    ..PULSES
};

/// The same gate up to 2^48, the last time of a run, at which it rises.
const LAST: RunRow = RunRow {
    text: "vectors 2\ninputs a b\n0 00\n281474976710651 01\nstrobe 281474976710656\nend 281474976710656\n",
    steps: &[
        StepRow {
            end: StepEnd::Ended(0),
            seen: &[STX],
            read: "",
        },
        StepRow {
            end: StepEnd::Ended(3),
            seen: &[ST0],
            read: "",
        },
        StepRow {
            end: StepEnd::Ended(281_474_976_710_651),
            seen: &[ST0],
            read: "",
        },
        StepRow {
            end: StepEnd::Ended(281_474_976_710_656),
            seen: &[ST1],
            read: "?",
        },
        StepRow {
            end: StepEnd::Over,
            seen: &[ST1],
            read: "?",
        },
    ],
    ..PULSES
};

/// A buffer with an enable, and a buffer of the enable with a delay of 2, whose inputs and outputs are
/// listed in another order than that of the netlist.
const ORDER: RunRow = RunRow {
    names: &["y", "w", "a", "b"],
    gates: &[
        GateRow {
            kind: ElementKind::Enable(EnableKind::Bufif1),
            delays: &[],
            out: 0,
            ins: &[2, 3],
        },
        GateRow {
            kind: ElementKind::Fold(FoldKind::Buf),
            delays: &[2],
            out: 1,
            ins: &[3],
        },
    ],
    inputs: &[2, 3],
    outputs: &[0, 1],
    limit: 1_000,
    text: "vectors 2\ninputs b a\noutputs w y\n0 01\nexpect 0 xz\n3 10\nexpect 4 01\n6 11\nend 6\n",
    steps: &[
        StepRow {
            end: StepEnd::Ended(0),
            seen: &[Z, STX],
            read: "?xz",
        },
        StepRow {
            end: StepEnd::Ended(2),
            seen: &[Z, ST0],
            read: "",
        },
        StepRow {
            end: StepEnd::Ended(3),
            seen: &[ST0, ST0],
            read: "",
        },
        StepRow {
            end: StepEnd::Ended(4),
            seen: &[ST0, ST0],
            read: "?01",
        },
        StepRow {
            end: StepEnd::Ended(5),
            seen: &[ST0, ST1],
            read: "",
        },
        StepRow {
            end: StepEnd::Ended(6),
            seen: &[ST1, ST1],
            read: "",
        },
        StepRow {
            end: StepEnd::Over,
            seen: &[ST1, ST1],
            read: "",
        },
    ],
};

static RUNS: [RunRow; 6] = [PULSES, LATE, SHORT, EMPTY, LAST, ORDER];

pub(crate) fn runs() -> &'static [RunRow] {
    &RUNS
}
