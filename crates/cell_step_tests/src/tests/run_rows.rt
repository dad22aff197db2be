//! Passes of elements with delays, and the order in which inputs of a primitive change.
use super::models::{CD, CR, Case, DC, Output, Pass, SLOW_OR, SLOW_TRANIF0};
use flat_net::Patch;
use level_range::Conduct;

static RUNS: [Case; 8] = [
    Case {
        model: SLOW_OR,
        patch: Patch::Whole,
        pin: 0,
        start: Output::Drives(-6, 6),
        passes: &[
            Pass {
                now: 0,
                seen: &[(-6, -6), (-6, -6)],
                pending: Some(3),
                output: Output::Drives(-6, 6),
            },
            Pass {
                now: 10,
                seen: &[(6, 6), (-6, -6)],
                pending: Some(15),
                output: Output::Drives(-6, -6),
            },
            Pass {
                now: 12,
                seen: &[(-6, -6), (-6, -6)],
                pending: None,
                output: Output::Drives(-6, -6),
            },
            Pass {
                now: 14,
                seen: &[(-6, -6), (6, 6)],
                pending: Some(19),
                output: Output::Drives(-6, -6),
            },
            Pass {
                now: 16,
                seen: &[(6, 6), (6, 6)],
                pending: Some(19),
                output: Output::Drives(-6, -6),
            },
            Pass {
                now: 19,
                seen: &[(6, 6), (6, 6)],
                pending: None,
                output: Output::Drives(6, 6),
            },
        ],
    },
    Case {
        model: SLOW_OR,
        patch: Patch::OutStuck {
            pin: 0,
            value: false,
        },
        pin: 0,
        start: Output::Drives(-6, -6),
        passes: &[
            Pass {
                now: 0,
                seen: &[(-6, -6), (6, 6)],
                pending: Some(5),
                output: Output::Drives(-6, -6),
            },
            Pass {
                now: 5,
                seen: &[(-6, -6), (-6, -6)],
                pending: Some(8),
                output: Output::Drives(-6, -6),
            },
            Pass {
                now: 8,
                seen: &[(-6, -6), (-6, -6)],
                pending: None,
                output: Output::Drives(-6, -6),
            },
        ],
    },
    Case {
        model: SLOW_TRANIF0,
        patch: Patch::Whole,
        pin: 0,
        start: Output::Conducts(Conduct::Unknown),
        passes: &[
            Pass {
                now: 0,
                seen: &[(-6, -6)],
                pending: Some(5),
                output: Output::Conducts(Conduct::Unknown),
            },
            Pass {
                now: 5,
                seen: &[(6, 6)],
                pending: Some(8),
                output: Output::Conducts(Conduct::On),
            },
            Pass {
                now: 7,
                seen: &[(-6, 6)],
                pending: Some(10),
                output: Output::Conducts(Conduct::On),
            },
            Pass {
                now: 10,
                seen: &[(-6, 6)],
                pending: None,
                output: Output::Conducts(Conduct::Unknown),
            },
        ],
    },
    Case {
        model: SLOW_TRANIF0,
        patch: Patch::Closed,
        pin: 0,
        start: Output::Conducts(Conduct::On),
        passes: &[
            Pass {
                now: 0,
                seen: &[(6, 6)],
                pending: Some(5),
                output: Output::Conducts(Conduct::On),
            },
            Pass {
                now: 5,
                seen: &[(6, 6)],
                pending: None,
                output: Output::Conducts(Conduct::On),
            },
        ],
    },
    Case {
        model: CD,
        patch: Patch::Whole,
        pin: 0,
        start: Output::Drives(-6, -6),
        passes: &[
            Pass {
                now: 0,
                seen: &[(-6, -6), (-6, -6)],
                pending: None,
                output: Output::Drives(-6, -6),
            },
            Pass {
                now: 4,
                seen: &[(6, 6), (6, 6)],
                pending: None,
                output: Output::Drives(-6, -6),
            },
            Pass {
                now: 6,
                seen: &[(-6, -6), (6, 6)],
                pending: None,
                output: Output::Drives(-6, -6),
            },
            Pass {
                now: 7,
                seen: &[(6, 6), (6, 6)],
                pending: Some(7),
                output: Output::Drives(6, 6),
            },
        ],
    },
    Case {
        model: CD,
        patch: Patch::InStuck {
            pin: 2,
            value: true,
        },
        pin: 0,
        start: Output::Drives(-6, -6),
        passes: &[
            Pass {
                now: 0,
                seen: &[(-6, -6), (-6, -6)],
                pending: None,
                output: Output::Drives(-6, -6),
            },
            Pass {
                now: 3,
                seen: &[(6, 6), (-6, -6)],
                pending: Some(3),
                output: Output::Drives(6, 6),
            },
        ],
    },
    Case {
        model: DC,
        patch: Patch::Whole,
        pin: 0,
        start: Output::Drives(-6, -6),
        passes: &[
            Pass {
                now: 0,
                seen: &[(-6, -6), (-6, -6)],
                pending: None,
                output: Output::Drives(-6, -6),
            },
            Pass {
                now: 4,
                seen: &[(6, 6), (6, 6)],
                pending: Some(4),
                output: Output::Drives(6, 6),
            },
            Pass {
                now: 6,
                seen: &[(0, 0), (-6, -6)],
                pending: None,
                output: Output::Drives(6, 6),
            },
            Pass {
                now: 7,
                seen: &[(-6, -6), (6, 6)],
                pending: Some(7),
                output: Output::Drives(-6, -6),
            },
        ],
    },
    Case {
        model: CR,
        patch: Patch::Whole,
        pin: 0,
        start: Output::Drives(6, 6),
        passes: &[
            Pass {
                now: 0,
                seen: &[(-6, -6), (6, 6)],
                pending: None,
                output: Output::Drives(6, 6),
            },
            Pass {
                now: 2,
                seen: &[(-6, -6), (-6, -6)],
                pending: Some(2),
                output: Output::Drives(-6, -6),
            },
            Pass {
                now: 4,
                seen: &[(6, 6), (-6, -6)],
                pending: None,
                output: Output::Drives(-6, -6),
            },
            Pass {
                now: 6,
                seen: &[(-6, -6), (6, 6)],
                pending: None,
                output: Output::Drives(-6, -6),
            },
            Pass {
                now: 8,
                seen: &[(6, 6), (6, 6)],
                pending: Some(8),
                output: Output::Drives(6, 6),
            },
        ],
    },
];

pub(crate) fn runs() -> &'static [Case] {
    &RUNS
}
