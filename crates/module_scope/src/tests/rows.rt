use crate::roles::{NetKind, NetRole, PortRole, Role, Side};
use v_tree::{Direction, NetType, RangeBounds, Select};

/// Mentions at the tokens from 1 on, whether implicit nets are made, and the first place of each rule
/// that is broken: of ports, repeated, undeclared, selects, ranges, implicit, 0 where it isn't.
pub struct Row {
    pub text: &'static str,
    pub makes: bool,
    pub mentions: &'static [(&'static str, Role)],
    pub places: [u32; 6],
}

const CONNECTION: Role = Role::Use(Side::Connection, None);

const HEADER: Role = Role::Header;

const INPUT: Role = Role::Port(PortRole {
    direction: Direction::Input,
    net_type: None,
    range: None,
});

const INPUT_3_0: Role = Role::Port(PortRole {
    direction: Direction::Input,
    net_type: None,
    range: Some(RangeBounds { left: 3, right: 0 }),
});

const INPUT_WIRE: Role = Role::Port(PortRole {
    direction: Direction::Input,
    net_type: Some(NetType::Wire),
    range: None,
});

const INSTANCE: Role = Role::Instance;

const TARGET: Role = Role::Use(Side::Target, None);

const TERMINAL: Role = Role::Use(Side::Terminal, None);

const TERMINAL_1: Role = Role::Use(
    Side::Terminal,
    Some(Select {
        left: 1,
        right: None,
    }),
);

const VALUE: Role = Role::Use(Side::Value, None);

const VALUE_0_3: Role = Role::Use(
    Side::Value,
    Some(Select {
        left: 0,
        right: Some(3),
    }),
);

const VALUE_1_1: Role = Role::Use(
    Side::Value,
    Some(Select {
        left: 1,
        right: Some(1),
    }),
);

const VALUE_3_0: Role = Role::Use(
    Side::Value,
    Some(Select {
        left: 3,
        right: Some(0),
    }),
);

const VALUE_4: Role = Role::Use(
    Side::Value,
    Some(Select {
        left: 4,
        right: None,
    }),
);

const WIRE: Role = Role::Net(NetRole {
    kind: NetKind::Typed(NetType::Wire),
    range: None,
    delay: None,
});

const WIRE_0_3: Role = Role::Net(NetRole {
    kind: NetKind::Typed(NetType::Wire),
    range: Some(RangeBounds { left: 0, right: 3 }),
    delay: None,
});

const WIRE_2_0: Role = Role::Net(NetRole {
    kind: NetKind::Typed(NetType::Wire),
    range: Some(RangeBounds { left: 2, right: 0 }),
    delay: None,
});

const WIRE_3_0: Role = Role::Net(NetRole {
    kind: NetKind::Typed(NetType::Wire),
    range: Some(RangeBounds { left: 3, right: 0 }),
    delay: None,
});

static ROWS: [Row; 39] = [
    Row {
        text: "a port with one direction",
        makes: true,
        mentions: &[("a", HEADER), ("a", INPUT), ("a", TERMINAL)],
        places: [0, 0, 0, 0, 0, 0],
    },
    Row {
        text: "a port with a direction and its net",
        makes: true,
        mentions: &[("a", HEADER), ("a", INPUT), ("a", WIRE)],
        places: [0, 0, 0, 0, 0, 0],
    },
    Row {
        text: "a net and then its direction",
        makes: true,
        mentions: &[("a", HEADER), ("a", WIRE), ("a", INPUT)],
        places: [0, 0, 0, 0, 0, 0],
    },
    Row {
        text: "a header name without a direction",
        makes: true,
        mentions: &[("a", HEADER), ("b", HEADER), ("b", INPUT)],
        places: [1, 0, 0, 0, 0, 0],
    },
    Row {
        text: "two directions",
        makes: true,
        mentions: &[("a", HEADER), ("a", INPUT), ("a", INPUT)],
        places: [1, 3, 0, 0, 0, 0],
    },
    Row {
        text: "twice in the header, without a direction",
        makes: true,
        mentions: &[("a", HEADER), ("a", HEADER)],
        places: [2, 0, 0, 0, 0, 0],
    },
    Row {
        text: "three times in the header",
        makes: true,
        mentions: &[("a", HEADER), ("a", HEADER), ("a", INPUT), ("a", HEADER)],
        places: [2, 0, 0, 0, 0, 0],
    },
    Row {
        text: "a direction of no header name",
        makes: true,
        mentions: &[("a", HEADER), ("a", INPUT), ("b", INPUT)],
        places: [3, 0, 0, 0, 0, 0],
    },
    Row {
        text: "a typed direction and a net",
        makes: true,
        mentions: &[("a", HEADER), ("a", INPUT_WIRE), ("a", WIRE)],
        places: [0, 3, 0, 0, 0, 0],
    },
    Row {
        text: "a direction, its net and another",
        makes: true,
        mentions: &[("a", HEADER), ("a", INPUT), ("a", WIRE), ("a", WIRE)],
        places: [0, 4, 0, 0, 0, 0],
    },
    Row {
        text: "a direction, its net and an instance",
        makes: true,
        mentions: &[("a", HEADER), ("a", INPUT), ("a", WIRE), ("a", INSTANCE)],
        places: [0, 4, 0, 0, 0, 0],
    },
    Row {
        text: "two nets before a direction",
        makes: true,
        mentions: &[("a", HEADER), ("a", WIRE), ("a", WIRE), ("a", INPUT)],
        places: [0, 3, 0, 0, 0, 0],
    },
    Row {
        text: "two nets of one name, and two of another",
        makes: true,
        mentions: &[("b", WIRE), ("a", WIRE), ("a", WIRE), ("b", WIRE)],
        places: [0, 3, 0, 0, 0, 0],
    },
    Row {
        text: "an instance of a net's name",
        makes: true,
        mentions: &[("a", WIRE), ("a", INSTANCE)],
        places: [0, 2, 0, 0, 0, 0],
    },
    Row {
        text: "two instances of one name",
        makes: true,
        mentions: &[("a", INSTANCE), ("b", INSTANCE), ("a", INSTANCE)],
        places: [0, 3, 0, 0, 0, 0],
    },
    Row {
        text: "an implicit net and an instance",
        makes: true,
        mentions: &[("a", TERMINAL), ("a", TERMINAL), ("a", INSTANCE)],
        places: [0, 3, 0, 0, 0, 0],
    },
    Row {
        text: "an instance and an implicit net",
        makes: true,
        mentions: &[("a", INSTANCE), ("a", TARGET), ("a", TERMINAL)],
        places: [0, 2, 0, 0, 0, 0],
    },
    Row {
        text: "an instance and a right side",
        makes: true,
        mentions: &[("a", INSTANCE), ("a", VALUE)],
        places: [0, 0, 2, 0, 0, 0],
    },
    Row {
        text: "no implicit net, and so no clash",
        makes: false,
        mentions: &[("a", INSTANCE), ("a", TERMINAL)],
        places: [0, 0, 0, 0, 0, 2],
    },
    Row {
        text: "an instance and a declared net's use",
        makes: true,
        mentions: &[("a", TERMINAL), ("a", WIRE)],
        places: [0, 0, 0, 0, 0, 0],
    },
    Row {
        text: "a right side before the implicit net",
        makes: true,
        mentions: &[("a", VALUE), ("a", TERMINAL)],
        places: [0, 0, 1, 0, 0, 0],
    },
    Row {
        text: "a right side behind the implicit net",
        makes: true,
        mentions: &[("a", CONNECTION), ("a", VALUE)],
        places: [0, 0, 0, 0, 0, 0],
    },
    Row {
        text: "a right side of a net declared behind",
        makes: true,
        mentions: &[("a", VALUE), ("a", WIRE)],
        places: [0, 0, 0, 0, 0, 0],
    },
    Row {
        text: "a select makes no implicit net",
        makes: true,
        mentions: &[("a", TERMINAL_1), ("a", VALUE)],
        places: [0, 0, 1, 0, 0, 0],
    },
    Row {
        text: "a select of an implicit net made before",
        makes: true,
        mentions: &[("a", TERMINAL), ("a", TERMINAL_1)],
        places: [0, 0, 0, 2, 0, 0],
    },
    Row {
        text: "a select before the implicit net",
        makes: true,
        mentions: &[("a", TERMINAL_1), ("a", TERMINAL)],
        places: [0, 0, 1, 0, 0, 0],
    },
    Row {
        text: "a right side where no nets are implicit",
        makes: false,
        mentions: &[("a", VALUE)],
        places: [0, 0, 1, 0, 0, 0],
    },
    Row {
        text: "a terminal, where no nets are implicit",
        makes: false,
        mentions: &[("a", TERMINAL), ("a", VALUE)],
        places: [0, 0, 2, 0, 0, 1],
    },
    Row {
        text: "a declared terminal, where no nets are implicit",
        makes: false,
        mentions: &[
            ("a", WIRE),
            ("a", TERMINAL),
            ("a", CONNECTION),
            ("a", TARGET),
            ("a", VALUE),
        ],
        places: [0, 0, 0, 0, 0, 0],
    },
    Row {
        text: "a select of a scalar",
        makes: true,
        mentions: &[("a", WIRE), ("a", TERMINAL_1)],
        places: [0, 0, 0, 2, 0, 0],
    },
    Row {
        text: "selects inside the range",
        makes: true,
        mentions: &[
            ("a", WIRE_3_0),
            ("a", TERMINAL_1),
            ("a", VALUE_3_0),
            ("a", VALUE_1_1),
        ],
        places: [0, 0, 0, 0, 0, 0],
    },
    Row {
        text: "a select outside the range",
        makes: true,
        mentions: &[("a", WIRE_3_0), ("a", VALUE_4)],
        places: [0, 0, 0, 2, 0, 0],
    },
    Row {
        text: "a select against the range",
        makes: true,
        mentions: &[("a", WIRE_3_0), ("a", VALUE_3_0), ("a", VALUE_0_3)],
        places: [0, 0, 0, 3, 0, 0],
    },
    Row {
        text: "a select against a rising range",
        makes: true,
        mentions: &[("a", WIRE_0_3), ("a", VALUE_0_3), ("a", VALUE_3_0)],
        places: [0, 0, 0, 3, 0, 0],
    },
    Row {
        text: "a select that reaches out of the range",
        makes: true,
        mentions: &[("a", WIRE_2_0), ("a", VALUE_3_0)],
        places: [0, 0, 0, 2, 0, 0],
    },
    Row {
        text: "the first declaration gives the range",
        makes: true,
        mentions: &[
            ("a", HEADER),
            ("a", INPUT_3_0),
            ("a", WIRE_2_0),
            ("a", VALUE_3_0),
            ("a", VALUE_4),
        ],
        places: [0, 0, 0, 5, 3, 0],
    },
    Row {
        text: "ranges that differ",
        makes: true,
        mentions: &[
            ("a", HEADER),
            ("a", WIRE_3_0),
            ("a", INPUT_3_0),
            ("b", HEADER),
            ("b", WIRE_3_0),
            ("b", INPUT),
        ],
        places: [0, 0, 0, 0, 6, 0],
    },
    Row {
        text: "ranges of the same bits in another direction",
        makes: true,
        mentions: &[("a", HEADER), ("a", INPUT_3_0), ("a", WIRE_0_3)],
        places: [0, 0, 0, 0, 3, 0],
    },
    Row {
        text: "a range on the second alone",
        makes: true,
        mentions: &[("a", HEADER), ("a", INPUT), ("a", WIRE_3_0)],
        places: [0, 0, 0, 0, 3, 0],
    },
];

pub fn rows() -> &'static [Row; 39] {
    &ROWS
}
