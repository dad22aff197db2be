//! Kinds of elements with their strengths, cases of them, and primitives.
use flat_net::{ElementKind, Patch};
use level_range::{Conduct, Logic};
use logic_tables::{EnableKind, FoldKind};
use udp_table::Sym;

/// A kind of element with its strengths, whether it has the delays 5 and 3 or none, and how many outputs
/// and inputs it has.
pub struct Model {
    pub kind: ElementKind,
    pub s0: u8,
    pub s1: u8,
    pub slow: bool,
    pub outs: u8,
    pub ins: u8,
}

/// What an element drives at an output pin, or what a bidirectional switch conducts.
#[derive(Clone, Copy)]
pub enum Output {
    Drives(i8, i8),
    Conducts(Conduct),
}

/// A pass: its tick, the signals at the inputs, the tick of the change that is then pending, and the
/// output when the changes of this tick have taken effect.
pub struct Pass {
    pub now: u64,
    pub seen: &'static [(i8, i8)],
    pub pending: Option<u64>,
    pub output: Output,
}

/// An element with a patch, an output pin, the output there at the start, and the passes.
pub struct Case {
    pub model: Model,
    pub patch: Patch,
    pub pin: u8,
    pub start: Output,
    pub passes: &'static [Pass],
}

/// A primitive of two inputs, by the symbols of its rows: of the inputs, of the state, and the output.
pub struct Table {
    pub sequential: bool,
    pub start: Logic,
    pub rows: &'static [(Sym, Sym, Option<Sym>, Sym)],
}

pub const AND: Model = Model {
    kind: ElementKind::Fold(FoldKind::And),
    s0: 5,
    s1: 3,
    slow: false,
    outs: 1,
    ins: 2,
};

pub const NAND: Model = Model {
    kind: ElementKind::Fold(FoldKind::Nand),
    s0: 5,
    s1: 3,
    slow: false,
    outs: 1,
    ins: 2,
};

pub const OR: Model = Model {
    kind: ElementKind::Fold(FoldKind::Or),
    s0: 5,
    s1: 3,
    slow: false,
    outs: 1,
    ins: 2,
};

pub const NOR: Model = Model {
    kind: ElementKind::Fold(FoldKind::Nor),
    s0: 5,
    s1: 3,
    slow: false,
    outs: 1,
    ins: 2,
};

pub const XOR: Model = Model {
    kind: ElementKind::Fold(FoldKind::Xor),
    s0: 5,
    s1: 3,
    slow: false,
    outs: 1,
    ins: 3,
};

pub const XNOR: Model = Model {
    kind: ElementKind::Fold(FoldKind::Xnor),
    s0: 5,
    s1: 3,
    slow: false,
    outs: 1,
    ins: 2,
};

pub const BUF: Model = Model {
    kind: ElementKind::Fold(FoldKind::Buf),
    s0: 5,
    s1: 3,
    slow: false,
    outs: 2,
    ins: 1,
};

pub const NOT: Model = Model {
    kind: ElementKind::Fold(FoldKind::Not),
    s0: 5,
    s1: 3,
    slow: false,
    outs: 1,
    ins: 1,
};

pub const SLOW_OR: Model = Model {
    kind: ElementKind::Fold(FoldKind::Or),
    s0: 6,
    s1: 6,
    slow: true,
    outs: 1,
    ins: 2,
};

pub const BUFIF0: Model = Model {
    kind: ElementKind::Enable(EnableKind::Bufif0),
    s0: 5,
    s1: 6,
    slow: false,
    outs: 1,
    ins: 2,
};

pub const BUFIF1: Model = Model {
    kind: ElementKind::Enable(EnableKind::Bufif1),
    s0: 5,
    s1: 6,
    slow: false,
    outs: 1,
    ins: 2,
};

pub const PULL0_BUFIF1: Model = Model {
    kind: ElementKind::Enable(EnableKind::Bufif1),
    s0: 5,
    s1: 0,
    slow: false,
    outs: 1,
    ins: 2,
};

pub const NOTIF0: Model = Model {
    kind: ElementKind::Enable(EnableKind::Notif0),
    s0: 5,
    s1: 6,
    slow: false,
    outs: 1,
    ins: 2,
};

pub const NOTIF1: Model = Model {
    kind: ElementKind::Enable(EnableKind::Notif1),
    s0: 5,
    s1: 6,
    slow: false,
    outs: 1,
    ins: 2,
};

pub const NMOS: Model = Model {
    kind: ElementKind::Mos {
        on_one: true,
        resistive: false,
    },
    s0: 6,
    s1: 6,
    slow: false,
    outs: 1,
    ins: 2,
};

pub const RPMOS: Model = Model {
    kind: ElementKind::Mos {
        on_one: false,
        resistive: true,
    },
    s0: 6,
    s1: 6,
    slow: false,
    outs: 1,
    ins: 2,
};

pub const COPY: Model = Model {
    kind: ElementKind::Copy,
    s0: 5,
    s1: 3,
    slow: false,
    outs: 1,
    ins: 1,
};

pub const ZERO: Model = Model {
    kind: ElementKind::Constant(Logic::Zero),
    s0: 5,
    s1: 3,
    slow: false,
    outs: 1,
    ins: 0,
};

pub const HIGH_Z: Model = Model {
    kind: ElementKind::Constant(Logic::Z),
    s0: 5,
    s1: 3,
    slow: false,
    outs: 1,
    ins: 0,
};

pub const PULLUP: Model = Model {
    kind: ElementKind::Pull(true),
    s0: 5,
    s1: 5,
    slow: false,
    outs: 1,
    ins: 0,
};

pub const PULLDOWN: Model = Model {
    kind: ElementKind::Pull(false),
    s0: 3,
    s1: 3,
    slow: false,
    outs: 1,
    ins: 0,
};

pub const TRAN: Model = Model {
    kind: ElementKind::Tran,
    s0: 6,
    s1: 6,
    slow: false,
    outs: 0,
    ins: 0,
};

pub const TRANIF1: Model = Model {
    kind: ElementKind::Tranif { on_one: true },
    s0: 6,
    s1: 6,
    slow: false,
    outs: 0,
    ins: 1,
};

pub const SLOW_TRANIF0: Model = Model {
    kind: ElementKind::Tranif { on_one: false },
    s0: 6,
    s1: 6,
    slow: true,
    outs: 0,
    ins: 1,
};

pub const UDP_OR: Model = Model {
    kind: ElementKind::Udp(0),
    s0: 5,
    s1: 3,
    slow: false,
    outs: 1,
    ins: 2,
};

pub const CD: Model = Model {
    kind: ElementKind::Udp(1),
    s0: 6,
    s1: 6,
    slow: false,
    outs: 1,
    ins: 2,
};

pub const DC: Model = Model {
    kind: ElementKind::Udp(2),
    s0: 6,
    s1: 6,
    slow: false,
    outs: 1,
    ins: 2,
};

pub const CR: Model = Model {
    kind: ElementKind::Udp(3),
    s0: 6,
    s1: 6,
    slow: false,
    outs: 1,
    ins: 2,
};

/// input at 0 clears it.
static TABLES: [Table; 4] = [
    Table {
        sequential: false,
        start: Logic::X,
        rows: &[
            (Sym::One, Sym::Any, None, Sym::One),
            (Sym::Any, Sym::One, None, Sym::One),
            (Sym::Zero, Sym::Zero, None, Sym::Zero),
        ],
    },
    Table {
        sequential: true,
        start: Logic::Zero,
        rows: &[
            (Sym::Rise, Sym::Zero, Some(Sym::Any), Sym::Zero),
            (Sym::Rise, Sym::One, Some(Sym::Any), Sym::One),
            (Sym::Neg, Sym::Any, Some(Sym::Any), Sym::Same),
            (Sym::Any, Sym::Change, Some(Sym::Any), Sym::Same),
        ],
    },
    Table {
        sequential: true,
        start: Logic::Zero,
        rows: &[
            (Sym::Zero, Sym::Rise, Some(Sym::Any), Sym::Zero),
            (Sym::One, Sym::Rise, Some(Sym::Any), Sym::One),
            (Sym::Any, Sym::Neg, Some(Sym::Any), Sym::Same),
            (Sym::Change, Sym::Any, Some(Sym::Any), Sym::Same),
        ],
    },
    Table {
        sequential: true,
        start: Logic::One,
        rows: &[
            (Sym::Any, Sym::Zero, Some(Sym::Any), Sym::Zero),
            (Sym::Rise, Sym::Any, Some(Sym::Any), Sym::One),
            (Sym::Neg, Sym::Any, Some(Sym::Any), Sym::Same),
            (Sym::Any, Sym::Change, Some(Sym::Any), Sym::Same),
        ],
    },
];

pub(crate) fn tables() -> &'static [Table] {
    &TABLES
}
