//! Gates with each patch that fits them, and what they drive.
use super::models::{
    AND, BUF, BUFIF0, BUFIF1, Case, NAND, NOR, NOT, NOTIF0, NOTIF1, OR, Output, PULL0_BUFIF1, Pass,
    XNOR, XOR,
};
use flat_net::Patch;

static GATES: [Case; 29] = [
    Case {
        model: AND,
        patch: Patch::Whole,
        pin: 0,
        start: Output::Drives(-5, 3),
        passes: &[Pass {
            now: 0,
            seen: &[(6, 6), (6, 6)],
            pending: Some(0),
            output: Output::Drives(3, 3),
        }],
    },
    Case {
        model: AND,
        patch: Patch::Whole,
        pin: 0,
        start: Output::Drives(-5, 3),
        passes: &[Pass {
            now: 0,
            seen: &[(-6, -6), (-6, 6)],
            pending: Some(0),
            output: Output::Drives(-5, -5),
        }],
    },
    Case {
        model: AND,
        patch: Patch::InStuck {
            pin: 1,
            value: false,
        },
        pin: 0,
        start: Output::Drives(-5, 3),
        passes: &[Pass {
            now: 0,
            seen: &[(6, 6), (6, 6)],
            pending: Some(0),
            output: Output::Drives(-5, -5),
        }],
    },
    Case {
        model: AND,
        patch: Patch::InStuck {
            pin: 2,
            value: true,
        },
        pin: 0,
        start: Output::Drives(-5, 3),
        passes: &[Pass {
            now: 0,
            seen: &[(6, 6), (0, 0)],
            pending: Some(0),
            output: Output::Drives(3, 3),
        }],
    },
    Case {
        model: AND,
        patch: Patch::OutStuck {
            pin: 0,
            value: true,
        },
        pin: 0,
        start: Output::Drives(6, 6),
        passes: &[Pass {
            now: 0,
            seen: &[(-6, -6), (-6, -6)],
            pending: Some(0),
            output: Output::Drives(6, 6),
        }],
    },
    Case {
        model: NAND,
        patch: Patch::Whole,
        pin: 0,
        start: Output::Drives(-5, 3),
        passes: &[Pass {
            now: 0,
            seen: &[(6, 6), (-6, 6)],
            pending: None,
            output: Output::Drives(-5, 3),
        }],
    },
    Case {
        model: NAND,
        patch: Patch::InStuck {
            pin: 2,
            value: false,
        },
        pin: 0,
        start: Output::Drives(-5, 3),
        passes: &[Pass {
            now: 0,
            seen: &[(6, 6), (6, 6)],
            pending: Some(0),
            output: Output::Drives(3, 3),
        }],
    },
    Case {
        model: OR,
        patch: Patch::Whole,
        pin: 0,
        start: Output::Drives(-5, 3),
        passes: &[Pass {
            now: 0,
            seen: &[(-6, 6), (6, 6)],
            pending: Some(0),
            output: Output::Drives(3, 3),
        }],
    },
    Case {
        model: NOR,
        patch: Patch::Whole,
        pin: 0,
        start: Output::Drives(-5, 3),
        passes: &[Pass {
            now: 0,
            seen: &[(-6, -6), (-6, -6)],
            pending: Some(0),
            output: Output::Drives(3, 3),
        }],
    },
    Case {
        model: XOR,
        patch: Patch::Whole,
        pin: 0,
        start: Output::Drives(-5, 3),
        passes: &[Pass {
            now: 0,
            seen: &[(6, 6), (6, 6), (6, 6)],
            pending: Some(0),
            output: Output::Drives(3, 3),
        }],
    },
    Case {
        model: XOR,
        patch: Patch::InStuck {
            pin: 3,
            value: false,
        },
        pin: 0,
        start: Output::Drives(-5, 3),
        passes: &[Pass {
            now: 0,
            seen: &[(6, 6), (6, 6), (6, 6)],
            pending: Some(0),
            output: Output::Drives(-5, -5),
        }],
    },
    Case {
        model: XNOR,
        patch: Patch::Whole,
        pin: 0,
        start: Output::Drives(-5, 3),
        passes: &[Pass {
            now: 0,
            seen: &[(6, 6), (-6, -6)],
            pending: Some(0),
            output: Output::Drives(-5, -5),
        }],
    },
    Case {
        model: BUF,
        patch: Patch::Whole,
        pin: 1,
        start: Output::Drives(-5, 3),
        passes: &[Pass {
            now: 0,
            seen: &[(6, 6)],
            pending: Some(0),
            output: Output::Drives(3, 3),
        }],
    },
    Case {
        model: BUF,
        patch: Patch::InStuck {
            pin: 2,
            value: false,
        },
        pin: 1,
        start: Output::Drives(-5, 3),
        passes: &[Pass {
            now: 0,
            seen: &[(6, 6)],
            pending: Some(0),
            output: Output::Drives(-5, -5),
        }],
    },
    Case {
        model: BUF,
        patch: Patch::OutStuck {
            pin: 1,
            value: false,
        },
        pin: 1,
        start: Output::Drives(-6, -6),
        passes: &[Pass {
            now: 0,
            seen: &[(6, 6)],
            pending: Some(0),
            output: Output::Drives(-6, -6),
        }],
    },
    Case {
        model: BUF,
        patch: Patch::OutStuck {
            pin: 1,
            value: false,
        },
        pin: 0,
        start: Output::Drives(-5, 3),
        passes: &[Pass {
            now: 0,
            seen: &[(6, 6)],
            pending: Some(0),
            output: Output::Drives(3, 3),
        }],
    },
    Case {
        model: NOT,
        patch: Patch::Whole,
        pin: 0,
        start: Output::Drives(-5, 3),
        passes: &[Pass {
            now: 0,
            seen: &[(0, 0)],
            pending: None,
            output: Output::Drives(-5, 3),
        }],
    },
    Case {
        model: NOT,
        patch: Patch::Whole,
        pin: 0,
        start: Output::Drives(-5, 3),
        passes: &[Pass {
            now: 0,
            seen: &[(-6, 0)],
            pending: None,
            output: Output::Drives(-5, 3),
        }],
    },
    Case {
        model: NOT,
        patch: Patch::InStuck {
            pin: 1,
            value: false,
        },
        pin: 0,
        start: Output::Drives(-5, 3),
        passes: &[Pass {
            now: 0,
            seen: &[(0, 0)],
            pending: Some(0),
            output: Output::Drives(3, 3),
        }],
    },
    Case {
        model: BUFIF1,
        patch: Patch::Whole,
        pin: 0,
        start: Output::Drives(-5, 6),
        passes: &[Pass {
            now: 0,
            seen: &[(6, 6), (-6, 6)],
            pending: Some(0),
            output: Output::Drives(0, 6),
        }],
    },
    Case {
        model: BUFIF1,
        patch: Patch::Whole,
        pin: 0,
        start: Output::Drives(-5, 6),
        passes: &[Pass {
            now: 0,
            seen: &[(-6, -6), (0, 0)],
            pending: Some(0),
            output: Output::Drives(-5, 0),
        }],
    },
    Case {
        model: BUFIF1,
        patch: Patch::InStuck {
            pin: 2,
            value: false,
        },
        pin: 0,
        start: Output::Drives(-5, 6),
        passes: &[Pass {
            now: 0,
            seen: &[(6, 6), (6, 6)],
            pending: Some(0),
            output: Output::Drives(0, 0),
        }],
    },
    Case {
        model: BUFIF1,
        patch: Patch::InStuck {
            pin: 1,
            value: false,
        },
        pin: 0,
        start: Output::Drives(-5, 6),
        passes: &[Pass {
            now: 0,
            seen: &[(6, 6), (6, 6)],
            pending: Some(0),
            output: Output::Drives(-5, -5),
        }],
    },
    Case {
        model: BUFIF1,
        patch: Patch::OutStuck {
            pin: 0,
            value: false,
        },
        pin: 0,
        start: Output::Drives(-6, -6),
        passes: &[Pass {
            now: 0,
            seen: &[(6, 6), (6, 6)],
            pending: Some(0),
            output: Output::Drives(-6, -6),
        }],
    },
    Case {
        model: BUFIF0,
        patch: Patch::Whole,
        pin: 0,
        start: Output::Drives(-5, 6),
        passes: &[Pass {
            now: 0,
            seen: &[(6, 6), (-6, -6)],
            pending: Some(0),
            output: Output::Drives(6, 6),
        }],
    },
    Case {
        model: NOTIF0,
        patch: Patch::InStuck {
            pin: 1,
            value: true,
        },
        pin: 0,
        start: Output::Drives(-5, 6),
        passes: &[Pass {
            now: 0,
            seen: &[(-6, -6), (-6, -6)],
            pending: Some(0),
            output: Output::Drives(-5, -5),
        }],
    },
    Case {
        model: NOTIF1,
        patch: Patch::Whole,
        pin: 0,
        start: Output::Drives(-5, 6),
        passes: &[Pass {
            now: 0,
            seen: &[(-6, -6), (6, 6)],
            pending: Some(0),
            output: Output::Drives(6, 6),
        }],
    },
    Case {
        model: PULL0_BUFIF1,
        patch: Patch::Whole,
        pin: 0,
        start: Output::Drives(-5, 0),
        passes: &[Pass {
            now: 0,
            seen: &[(6, 6), (6, 6)],
            pending: Some(0),
            output: Output::Drives(0, 0),
        }],
    },
    Case {
        model: PULL0_BUFIF1,
        patch: Patch::Whole,
        pin: 0,
        start: Output::Drives(-5, 0),
        passes: &[Pass {
            now: 0,
            seen: &[(-6, 6), (6, 6)],
            pending: None,
            output: Output::Drives(-5, 0),
        }],
    },
];

pub(crate) fn gates() -> &'static [Case] {
    &GATES
}
