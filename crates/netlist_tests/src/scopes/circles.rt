//! Modules that contain themselves.

use crate::rows::{BrokenLine, NetlistRow};

#[rattlefmt::skip]
static ROWS: [NetlistRow; 26] = [
    NetlistRow {
        shows: "a chosen module contains itself",
        text: "module a;\na u();\nendmodule\n",
        top: Some("a"), broken: Some(BrokenLine { rule: 4, line: 2 }),
    },
    NetlistRow {
        shows: "a module below the top contains itself",
        text: "module t;\na u();\nendmodule\nmodule a;\na u();\nendmodule\n",
        top: None, broken: Some(BrokenLine { rule: 4, line: 5 }),
    },
    NetlistRow {
        shows: "the place is the master's name",
        text: "module t; a u(); endmodule\nmodule a; wire w;\na\nu\n(w);\nendmodule\n",
        top: None, broken: Some(BrokenLine { rule: 4, line: 3 }),
    },
    NetlistRow {
        shows: "two modules: the first instance in the text",
        text: "module a;\nb u();\nendmodule\nmodule b;\na u();\nendmodule\n",
        top: Some("a"), broken: Some(BrokenLine { rule: 4, line: 2 }),
    },
    NetlistRow {
        shows: "two modules: the first instance isn't in the top",
        text: "module b;\na u();\nendmodule\nmodule a;\nb u();\nendmodule\n",
        top: Some("a"), broken: Some(BrokenLine { rule: 4, line: 2 }),
    },
    NetlistRow {
        shows: "three modules below the top",
        text: "module t;\na u();\nendmodule\nmodule a;\nb u();\nendmodule\nmodule b;\nc u();\nendmodule\nmodule c;\na u();\nendmodule\n",
        top: None, broken: Some(BrokenLine { rule: 4, line: 5 }),
    },
    NetlistRow {
        shows: "three modules in another order",
        text: "module c;\na u();\nendmodule\nmodule t;\na u();\nendmodule\nmodule b;\nc u();\nendmodule\nmodule a;\nb u();\nendmodule\n",
        top: None, broken: Some(BrokenLine { rule: 4, line: 2 }),
    },
    NetlistRow {
        shows: "an instance that doesn't lead back stands before",
        text: "module d; endmodule\nmodule t; a u(); endmodule\nmodule a;\nd u();\nb v();\nendmodule\nmodule b; a u(); endmodule\n",
        top: None, broken: Some(BrokenLine { rule: 4, line: 5 }),
    },
    NetlistRow {
        shows: "the way to the circle isn't in it",
        text: "module t;\na u();\nendmodule\nmodule a;\nb u();\nendmodule\nmodule b;\nc u();\nendmodule\nmodule c;\nb u();\nendmodule\n",
        top: None, broken: Some(BrokenLine { rule: 4, line: 8 }),
    },
    NetlistRow {
        shows: "a module below another contains itself",
        text: "module t; a u(); endmodule\nmodule a;\nb u();\nendmodule\nmodule b;\nb u();\nendmodule\n",
        top: None, broken: Some(BrokenLine { rule: 4, line: 6 }),
    },
    NetlistRow {
        shows: "two circles: the first in the text",
        text: "module b; b u(); endmodule\nmodule a;\na u();\nendmodule\nmodule t;\na u();\nb v();\nendmodule\n",
        top: None, broken: Some(BrokenLine { rule: 4, line: 1 }),
    },
    NetlistRow {
        shows: "two circles through one module",
        text: "module t; a u(); endmodule\nmodule a;\nc u();\nb v();\nendmodule\nmodule b; a u(); endmodule\nmodule c; a u(); endmodule\n",
        top: None, broken: Some(BrokenLine { rule: 4, line: 3 }),
    },
    NetlistRow {
        shows: "a circle in a circle",
        text: "module t; a u(); endmodule\nmodule a;\nb u(); endmodule\nmodule b;\nb u();\na v();\nendmodule\n",
        top: None, broken: Some(BrokenLine { rule: 4, line: 3 }),
    },
    NetlistRow {
        shows: "two instances of one item",
        text: "module t; a u(); endmodule\nmodule a;\na u(),\nv();\nendmodule\n",
        top: None, broken: Some(BrokenLine { rule: 4, line: 3 }),
    },
    NetlistRow {
        shows: "two items: the first",
        text: "module t; a u(); endmodule\nmodule a;\na u();\na v();\nendmodule\n",
        top: None, broken: Some(BrokenLine { rule: 4, line: 3 }),
    },
    NetlistRow {
        shows: "the circle that is reached, not one before it",
        text: "module x; x u(); endmodule\nmodule t; a u(); endmodule\nmodule a;\na u();\nendmodule\n",
        top: Some("t"), broken: Some(BrokenLine { rule: 4, line: 4 }),
    },
    NetlistRow {
        shows: "the chosen module reaches a circle that others don't",
        text: "module a; b u(); endmodule\nmodule b;\nb u();\nendmodule\nmodule t; endmodule\n",
        top: Some("a"), broken: Some(BrokenLine { rule: 4, line: 3 }),
    },
    NetlistRow {
        shows: "an instance without a name",
        text: "module t; a u(); endmodule\nmodule a;\na ();\nendmodule\n",
        top: None, broken: Some(BrokenLine { rule: 4, line: 3 }),
    },
    NetlistRow {
        shows: "escaped names",
        text: "module t; \\a+ u(); endmodule\nmodule \\a+ ;\n\\a+ u();\nendmodule\n",
        top: None, broken: Some(BrokenLine { rule: 4, line: 3 }),
    },
    NetlistRow {
        shows: "a circle back to the chosen top",
        text: "module c;\nt u();\nendmodule\nmodule t;\nc u();\nendmodule\n",
        top: Some("t"), broken: Some(BrokenLine { rule: 4, line: 2 }),
    },
    NetlistRow {
        shows: "a circle of five",
        text: "module t; a u(); endmodule\nmodule e; a u(); endmodule\nmodule d; e u(); endmodule\nmodule c; d u(); endmodule\nmodule b; c u(); endmodule\nmodule a; b u(); endmodule\n",
        top: None, broken: Some(BrokenLine { rule: 4, line: 2 }),
    },
    NetlistRow {
        shows: "a circle that the top doesn't reach",
        text: "module a; b u(); endmodule\nmodule b; a u(); endmodule\nmodule s; endmodule\nmodule t; s u(); endmodule\n",
        top: None, broken: None,
    },
    NetlistRow {
        shows: "a circle that leads to what the top reaches",
        text: "module a; a u(); s v(); endmodule\nmodule s; endmodule\nmodule t; s u(); endmodule\n",
        top: None, broken: None,
    },
    NetlistRow {
        shows: "a module that is reached two ways",
        text: "module d; endmodule\nmodule b; d u(); endmodule\nmodule c; d u(); endmodule\nmodule t; b u(); c v(); d w(); endmodule\n",
        top: None, broken: None,
    },
    NetlistRow {
        shows: "two instances of one module",
        text: "module d; endmodule\nmodule t; d u(), v(); d w(); endmodule\n",
        top: None, broken: None,
    },
    NetlistRow {
        shows: "a chain of six",
        text: "module f; endmodule\nmodule e; f u(); endmodule\nmodule d; e u(); endmodule\nmodule c; d u(); endmodule\nmodule b; c u(); endmodule\nmodule a; b u(); endmodule\n",
        top: None, broken: None,
    },
];

pub(crate) fn rows() -> &'static [NetlistRow] {
    &ROWS
}
