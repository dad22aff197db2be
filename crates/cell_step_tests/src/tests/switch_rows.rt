//! Switches, primitives, copies and sources with each patch that fits them, and what they drive or conduct.
use super::models::{
    CD, COPY, Case, HIGH_Z, NMOS, Output, PULLDOWN, PULLUP, Pass, RPMOS, TRAN, TRANIF1, UDP_OR,
    ZERO,
};
use flat_net::Patch;
use level_range::Conduct;

static SWITCHES: [Case; 34] = [
    Case {
        model: NMOS,
        patch: Patch::Whole,
        pin: 0,
        start: Output::Drives(-6, 6),
        passes: &[Pass {
            now: 0,
            seen: &[(7, 7), (6, 6)],
            pending: Some(0),
            output: Output::Drives(6, 6),
        }],
    },
    Case {
        model: NMOS,
        patch: Patch::Whole,
        pin: 0,
        start: Output::Drives(-6, 6),
        passes: &[Pass {
            now: 0,
            seen: &[(7, 7), (-6, -6)],
            pending: Some(0),
            output: Output::Drives(0, 0),
        }],
    },
    Case {
        model: NMOS,
        patch: Patch::Whole,
        pin: 0,
        start: Output::Drives(-6, 6),
        passes: &[Pass {
            now: 0,
            seen: &[(7, 7), (-6, 6)],
            pending: Some(0),
            output: Output::Drives(0, 6),
        }],
    },
    Case {
        model: NMOS,
        patch: Patch::InStuck {
            pin: 1,
            value: false,
        },
        pin: 0,
        start: Output::Drives(-6, 6),
        passes: &[Pass {
            now: 0,
            seen: &[(7, 7), (6, 6)],
            pending: Some(0),
            output: Output::Drives(-6, -6),
        }],
    },
    Case {
        model: NMOS,
        patch: Patch::InStuck {
            pin: 2,
            value: true,
        },
        pin: 0,
        start: Output::Drives(-6, 6),
        passes: &[Pass {
            now: 0,
            seen: &[(-3, -3), (-6, -6)],
            pending: Some(0),
            output: Output::Drives(-3, -3),
        }],
    },
    Case {
        model: NMOS,
        patch: Patch::OutStuck {
            pin: 0,
            value: true,
        },
        pin: 0,
        start: Output::Drives(6, 6),
        passes: &[Pass {
            now: 0,
            seen: &[(-3, -3), (6, 6)],
            pending: Some(0),
            output: Output::Drives(6, 6),
        }],
    },
    Case {
        model: NMOS,
        patch: Patch::Open,
        pin: 0,
        start: Output::Drives(0, 0),
        passes: &[Pass {
            now: 0,
            seen: &[(7, 7), (6, 6)],
            pending: Some(0),
            output: Output::Drives(0, 0),
        }],
    },
    Case {
        model: NMOS,
        patch: Patch::Closed,
        pin: 0,
        start: Output::Drives(-6, 6),
        passes: &[Pass {
            now: 0,
            seen: &[(7, 7), (-6, -6)],
            pending: Some(0),
            output: Output::Drives(6, 6),
        }],
    },
    Case {
        model: RPMOS,
        patch: Patch::Whole,
        pin: 0,
        start: Output::Drives(-5, 5),
        passes: &[Pass {
            now: 0,
            seen: &[(-7, -7), (-6, -6)],
            pending: Some(0),
            output: Output::Drives(-5, -5),
        }],
    },
    Case {
        model: RPMOS,
        patch: Patch::Closed,
        pin: 0,
        start: Output::Drives(-5, 5),
        passes: &[Pass {
            now: 0,
            seen: &[(-3, -3), (6, 6)],
            pending: Some(0),
            output: Output::Drives(-2, -2),
        }],
    },
    Case {
        model: UDP_OR,
        patch: Patch::Whole,
        pin: 0,
        start: Output::Drives(-5, 3),
        passes: &[Pass {
            now: 0,
            seen: &[(-6, -6), (6, 6)],
            pending: Some(0),
            output: Output::Drives(3, 3),
        }],
    },
    Case {
        model: UDP_OR,
        patch: Patch::Whole,
        pin: 0,
        start: Output::Drives(-5, 3),
        passes: &[Pass {
            now: 0,
            seen: &[(0, 0), (-6, -6)],
            pending: None,
            output: Output::Drives(-5, 3),
        }],
    },
    Case {
        model: UDP_OR,
        patch: Patch::InStuck {
            pin: 1,
            value: false,
        },
        pin: 0,
        start: Output::Drives(-5, 3),
        passes: &[Pass {
            now: 0,
            seen: &[(6, 6), (-6, -6)],
            pending: Some(0),
            output: Output::Drives(-5, -5),
        }],
    },
    Case {
        model: UDP_OR,
        patch: Patch::OutStuck {
            pin: 0,
            value: false,
        },
        pin: 0,
        start: Output::Drives(-6, -6),
        passes: &[Pass {
            now: 0,
            seen: &[(6, 6), (6, 6)],
            pending: Some(0),
            output: Output::Drives(-6, -6),
        }],
    },
    Case {
        model: CD,
        patch: Patch::InStuck {
            pin: 1,
            value: true,
        },
        pin: 0,
        start: Output::Drives(-6, -6),
        passes: &[Pass {
            now: 0,
            seen: &[(-6, -6), (6, 6)],
            pending: Some(0),
            output: Output::Drives(-6, 6),
        }],
    },
    Case {
        model: COPY,
        patch: Patch::Whole,
        pin: 0,
        start: Output::Drives(-5, 3),
        passes: &[Pass {
            now: 0,
            seen: &[(0, 0)],
            pending: Some(0),
            output: Output::Drives(0, 0),
        }],
    },
    Case {
        model: COPY,
        patch: Patch::Whole,
        pin: 0,
        start: Output::Drives(-5, 3),
        passes: &[Pass {
            now: 0,
            seen: &[(0, 6)],
            pending: None,
            output: Output::Drives(-5, 3),
        }],
    },
    Case {
        model: COPY,
        patch: Patch::InStuck {
            pin: 1,
            value: true,
        },
        pin: 0,
        start: Output::Drives(-5, 3),
        passes: &[Pass {
            now: 0,
            seen: &[(-6, -6)],
            pending: Some(0),
            output: Output::Drives(3, 3),
        }],
    },
    Case {
        model: COPY,
        patch: Patch::OutStuck {
            pin: 0,
            value: true,
        },
        pin: 0,
        start: Output::Drives(6, 6),
        passes: &[Pass {
            now: 0,
            seen: &[(-6, -6)],
            pending: Some(0),
            output: Output::Drives(6, 6),
        }],
    },
    Case {
        model: ZERO,
        patch: Patch::Whole,
        pin: 0,
        start: Output::Drives(-5, -5),
        passes: &[Pass {
            now: 0,
            seen: &[],
            pending: None,
            output: Output::Drives(-5, -5),
        }],
    },
    Case {
        model: ZERO,
        patch: Patch::OutStuck {
            pin: 0,
            value: true,
        },
        pin: 0,
        start: Output::Drives(6, 6),
        passes: &[Pass {
            now: 0,
            seen: &[],
            pending: None,
            output: Output::Drives(6, 6),
        }],
    },
    Case {
        model: HIGH_Z,
        patch: Patch::Whole,
        pin: 0,
        start: Output::Drives(0, 0),
        passes: &[Pass {
            now: 0,
            seen: &[],
            pending: None,
            output: Output::Drives(0, 0),
        }],
    },
    Case {
        model: PULLUP,
        patch: Patch::Whole,
        pin: 0,
        start: Output::Drives(5, 5),
        passes: &[Pass {
            now: 0,
            seen: &[],
            pending: None,
            output: Output::Drives(5, 5),
        }],
    },
    Case {
        model: PULLDOWN,
        patch: Patch::Whole,
        pin: 0,
        start: Output::Drives(-3, -3),
        passes: &[Pass {
            now: 0,
            seen: &[],
            pending: None,
            output: Output::Drives(-3, -3),
        }],
    },
    Case {
        model: PULLDOWN,
        patch: Patch::OutStuck {
            pin: 0,
            value: true,
        },
        pin: 0,
        start: Output::Drives(6, 6),
        passes: &[Pass {
            now: 0,
            seen: &[],
            pending: None,
            output: Output::Drives(6, 6),
        }],
    },
    Case {
        model: TRAN,
        patch: Patch::Whole,
        pin: 0,
        start: Output::Conducts(Conduct::On),
        passes: &[Pass {
            now: 0,
            seen: &[],
            pending: None,
            output: Output::Conducts(Conduct::On),
        }],
    },
    Case {
        model: TRAN,
        patch: Patch::Open,
        pin: 0,
        start: Output::Conducts(Conduct::Off),
        passes: &[Pass {
            now: 0,
            seen: &[],
            pending: None,
            output: Output::Conducts(Conduct::Off),
        }],
    },
    Case {
        model: TRAN,
        patch: Patch::Closed,
        pin: 0,
        start: Output::Conducts(Conduct::On),
        passes: &[Pass {
            now: 0,
            seen: &[],
            pending: None,
            output: Output::Conducts(Conduct::On),
        }],
    },
    Case {
        model: TRANIF1,
        patch: Patch::Whole,
        pin: 0,
        start: Output::Conducts(Conduct::Unknown),
        passes: &[Pass {
            now: 0,
            seen: &[(6, 6)],
            pending: Some(0),
            output: Output::Conducts(Conduct::On),
        }],
    },
    Case {
        model: TRANIF1,
        patch: Patch::Whole,
        pin: 0,
        start: Output::Conducts(Conduct::Unknown),
        passes: &[Pass {
            now: 0,
            seen: &[(-6, -6)],
            pending: Some(0),
            output: Output::Conducts(Conduct::Off),
        }],
    },
    Case {
        model: TRANIF1,
        patch: Patch::Whole,
        pin: 0,
        start: Output::Conducts(Conduct::Unknown),
        passes: &[Pass {
            now: 0,
            seen: &[(0, 0)],
            pending: None,
            output: Output::Conducts(Conduct::Unknown),
        }],
    },
    Case {
        model: TRANIF1,
        patch: Patch::InStuck {
            pin: 2,
            value: true,
        },
        pin: 0,
        start: Output::Conducts(Conduct::Unknown),
        passes: &[Pass {
            now: 0,
            seen: &[(-6, -6)],
            pending: Some(0),
            output: Output::Conducts(Conduct::On),
        }],
    },
    Case {
        model: TRANIF1,
        patch: Patch::Open,
        pin: 0,
        start: Output::Conducts(Conduct::Off),
        passes: &[Pass {
            now: 0,
            seen: &[(6, 6)],
            pending: Some(0),
            output: Output::Conducts(Conduct::Off),
        }],
    },
    Case {
        model: TRANIF1,
        patch: Patch::Closed,
        pin: 0,
        start: Output::Conducts(Conduct::On),
        passes: &[Pass {
            now: 0,
            seen: &[(-6, -6)],
            pending: Some(0),
            output: Output::Conducts(Conduct::On),
        }],
    },
];

pub(crate) fn switches() -> &'static [Case] {
    &SWITCHES
}
