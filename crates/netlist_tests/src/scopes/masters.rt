//! Instances of a name that is neither a module's nor a primitive's.

use crate::rows::{BrokenLine, NetlistRow};

#[rattlefmt::skip]
static ROWS: [NetlistRow; 27] = [
    NetlistRow {
        shows: "no module and no primitive",
        text: "module t;\nx u();\nendmodule\n",
        top: None, broken: Some(BrokenLine { rule: 3, line: 2 }),
    },
    NetlistRow {
        shows: "the place is the master's name",
        text: "module t; wire a;\nx\nu\n(a);\nendmodule\n",
        top: None, broken: Some(BrokenLine { rule: 3, line: 2 }),
    },
    NetlistRow {
        shows: "two instances of one item",
        text: "module t;\nx u(),\nv();\nendmodule\n",
        top: None, broken: Some(BrokenLine { rule: 3, line: 2 }),
    },
    NetlistRow {
        shows: "two masters: the first",
        text: "module t;\nx u();\ny v();\nendmodule\n",
        top: None, broken: Some(BrokenLine { rule: 3, line: 2 }),
    },
    NetlistRow {
        shows: "behind a known master",
        text: "module s; endmodule\nmodule t;\ns u();\nx v();\nendmodule\n",
        top: None, broken: Some(BrokenLine { rule: 3, line: 4 }),
    },
    NetlistRow {
        shows: "the second of two, the first is known",
        text: "primitive p(o, i); output o; input i; table 0 : 0 ; 1 : 1 ; endtable endprimitive\nmodule t; wire a, b;\np u(a, b);\nx v(a);\np w(b, a);\nendmodule\n",
        top: None, broken: Some(BrokenLine { rule: 3, line: 4 }),
    },
    NetlistRow {
        shows: "in a module that stands before the top",
        text: "module s;\nx u();\nendmodule\nmodule t;\ns u();\ny v();\nendmodule\n",
        top: None, broken: Some(BrokenLine { rule: 3, line: 2 }),
    },
    NetlistRow {
        shows: "in a module that stands behind the top",
        text: "module t;\ns u();\nendmodule\nmodule s;\nx u();\nendmodule\n",
        top: None, broken: Some(BrokenLine { rule: 3, line: 5 }),
    },
    NetlistRow {
        shows: "in the top, before one in a module behind it",
        text: "module t;\ns u();\ny v();\nendmodule\nmodule s;\nx u();\nendmodule\n",
        top: None, broken: Some(BrokenLine { rule: 3, line: 3 }),
    },
    NetlistRow {
        shows: "two instances down",
        text: "module t; a u(); endmodule\nmodule a; b u(); endmodule\nmodule b;\nx u(); endmodule\n",
        top: None, broken: Some(BrokenLine { rule: 3, line: 4 }),
    },
    NetlistRow {
        shows: "in a module that is reached two ways: one place",
        text: "module s;\nx u(); endmodule\nmodule a; s u(); endmodule\nmodule b; s u(); endmodule\nmodule t; a u(); b v(); endmodule\n",
        top: None, broken: Some(BrokenLine { rule: 3, line: 2 }),
    },
    NetlistRow {
        shows: "an instance without a name",
        text: "module t; wire a;\nx (a);\nendmodule\n",
        top: None, broken: Some(BrokenLine { rule: 3, line: 2 }),
    },
    NetlistRow {
        shows: "an instance with a drive and a delay",
        text: "module t; wire a;\nx (strong0, weak1) #3 u(a);\nendmodule\n",
        top: None, broken: Some(BrokenLine { rule: 3, line: 2 }),
    },
    NetlistRow {
        shows: "connections by name",
        text: "module t; wire a;\n\nx u(.p(a), .q());\nendmodule\n",
        top: None, broken: Some(BrokenLine { rule: 3, line: 3 }),
    },
    NetlistRow {
        shows: "a net has the name",
        text: "module t;\nwire x;\nx u();\nendmodule\n",
        top: None, broken: Some(BrokenLine { rule: 3, line: 3 }),
    },
    NetlistRow {
        shows: "an instance has the name",
        text: "module s; endmodule\nmodule t;\ns x();\nx u();\nendmodule\n",
        top: None, broken: Some(BrokenLine { rule: 3, line: 4 }),
    },
    NetlistRow {
        shows: "a module of the name in capital letters",
        text: "module X; endmodule\nmodule t;\nx u();\nendmodule\n",
        top: None, broken: Some(BrokenLine { rule: 3, line: 3 }),
    },
    NetlistRow {
        shows: "a module whose name it begins",
        text: "module xy; endmodule\nmodule t;\nx u();\nendmodule\n",
        top: None, broken: Some(BrokenLine { rule: 3, line: 3 }),
    },
    NetlistRow {
        shows: "a module whose name begins it",
        text: "module x; endmodule\nmodule t;\nxy u();\nendmodule\n",
        top: None, broken: Some(BrokenLine { rule: 3, line: 3 }),
    },
    NetlistRow {
        shows: "a name that is near a word of the language",
        text: "module t;\nstrong u();\nendmodule\n",
        top: None, broken: Some(BrokenLine { rule: 3, line: 2 }),
    },
    NetlistRow {
        shows: "names that only a directive knows",
        text: "module t;\nnone u();\nns v();\nendmodule\n",
        top: None, broken: Some(BrokenLine { rule: 3, line: 2 }),
    },
    NetlistRow {
        shows: "an escaped name that is a gate's word",
        text: "module t; wire y, a;\n\\buf u(y, a);\nendmodule\n",
        top: None, broken: Some(BrokenLine { rule: 3, line: 2 }),
    },
    NetlistRow {
        shows: "in a module that the top doesn't reach",
        text: "module s; x u(); endmodule\nmodule t; endmodule\n",
        top: None, broken: None,
    },
    NetlistRow {
        shows: "in a module that only such a module instantiates",
        text: "module a; x u(); endmodule\nmodule b; a u(); endmodule\nmodule t; endmodule\n",
        top: None, broken: None,
    },
    NetlistRow {
        shows: "a module that stands behind its instance",
        text: "module t; s u(); endmodule\nmodule s; endmodule\n",
        top: None, broken: None,
    },
    NetlistRow {
        shows: "a primitive that stands behind its instance",
        text: "module t; wire y, a; p u(y, a); endmodule\nprimitive p(o, i); output o; input i; table 0 : 0 ; 1 : 1 ; endtable endprimitive\n",
        top: None, broken: None,
    },
    NetlistRow {
        shows: "a master that is written escaped",
        text: "module s; endmodule\nmodule \\b+ ; endmodule\nmodule t; \\s u(); \\b+ v(); endmodule\n",
        top: None, broken: None,
    },
];

pub(crate) fn rows() -> &'static [NetlistRow] {
    &ROWS
}
