//! Which module is the top, and texts without one.

use crate::rows::{BrokenLine, NetlistRow};

#[rattlefmt::skip]
static ROWS: [NetlistRow; 34] = [
    NetlistRow {
        shows: "an empty text",
        text: "",
        top: None, broken: Some(BrokenLine { rule: 2, line: 1 }),
    },
    NetlistRow {
        shows: "lines without a token",
        text: "\n\n// module a; endmodule\n/*\n*/\n",
        top: None, broken: Some(BrokenLine { rule: 2, line: 1 }),
    },
    NetlistRow {
        shows: "a primitive alone",
        text: "\nprimitive p(o, i); output o; input i; table 0 : 0 ; 1 : 1 ; endtable endprimitive\n",
        top: None, broken: Some(BrokenLine { rule: 2, line: 1 }),
    },
    NetlistRow {
        shows: "directives alone",
        text: "`timescale 1ns/1ps\n`default_nettype none\n`celldefine\n`endcelldefine\n`resetall\n",
        top: None, broken: Some(BrokenLine { rule: 2, line: 1 }),
    },
    NetlistRow {
        shows: "a chosen name that no module has",
        text: "module a;\nendmodule\n",
        top: Some("b"), broken: Some(BrokenLine { rule: 2, line: 1 }),
    },
    NetlistRow {
        shows: "a chosen name in an empty text",
        text: "",
        top: Some("a"), broken: Some(BrokenLine { rule: 2, line: 1 }),
    },
    NetlistRow {
        shows: "a chosen name that is a primitive's",
        text: "primitive p(o, i); output o; input i; table 0 : 0 ; 1 : 1 ; endtable endprimitive\nmodule a; endmodule\n",
        top: Some("p"), broken: Some(BrokenLine { rule: 2, line: 1 }),
    },
    NetlistRow {
        shows: "a chosen name in capital letters",
        text: "module a; endmodule\n",
        top: Some("A"), broken: Some(BrokenLine { rule: 2, line: 1 }),
    },
    NetlistRow {
        shows: "a chosen name without bytes",
        text: "module a; endmodule\n",
        top: Some(""), broken: Some(BrokenLine { rule: 2, line: 1 }),
    },
    NetlistRow {
        shows: "a chosen name with a blank behind it",
        text: "module a; endmodule\n",
        top: Some("a "), broken: Some(BrokenLine { rule: 2, line: 1 }),
    },
    NetlistRow {
        shows: "a chosen name that begins a module's",
        text: "module ab; endmodule\n",
        top: Some("a"), broken: Some(BrokenLine { rule: 2, line: 1 }),
    },
    NetlistRow {
        shows: "a chosen name that goes on behind a module's",
        text: "module a; endmodule\n",
        top: Some("ab"), broken: Some(BrokenLine { rule: 2, line: 1 }),
    },
    NetlistRow {
        shows: "a chosen name that is written escaped",
        text: "module \\a+b ; endmodule\n",
        top: Some("\\a+b "), broken: Some(BrokenLine { rule: 2, line: 1 }),
    },
    NetlistRow {
        shows: "a chosen name that is an instance's",
        text: "module s; endmodule\nmodule a; s u(); endmodule\n",
        top: Some("u"), broken: Some(BrokenLine { rule: 2, line: 1 }),
    },
    NetlistRow {
        shows: "a chosen name that is a port's",
        text: "module a(p);\ninput p;\nendmodule\n",
        top: Some("p"), broken: Some(BrokenLine { rule: 2, line: 1 }),
    },
    NetlistRow {
        shows: "a module that instantiates itself",
        text: "\nmodule a;\na u();\nendmodule\n",
        top: None, broken: Some(BrokenLine { rule: 2, line: 1 }),
    },
    NetlistRow {
        shows: "a module that instantiates itself with its port",
        text: "module m(m1);\noutput m1;\nm u (m1);\nendmodule\n",
        top: None, broken: Some(BrokenLine { rule: 2, line: 1 }),
    },
    NetlistRow {
        shows: "two modules that instantiate each other",
        text: "module a;\nb u();\nendmodule\nmodule b;\na u();\nendmodule\n",
        top: None, broken: Some(BrokenLine { rule: 2, line: 1 }),
    },
    NetlistRow {
        shows: "a circle of three",
        text: "\n\nmodule a; b u(); endmodule\nmodule b; c u(); endmodule\nmodule c; a u(); endmodule\n",
        top: None, broken: Some(BrokenLine { rule: 2, line: 1 }),
    },
    NetlistRow {
        shows: "two circles",
        text: "module a; a u(); endmodule\nmodule b; c u(); endmodule\nmodule c; b u(); endmodule\n",
        top: None, broken: Some(BrokenLine { rule: 2, line: 1 }),
    },
    NetlistRow {
        shows: "a circle and a module that it instantiates",
        text: "module a; b u(); c v(); endmodule\nmodule b; a u(); endmodule\nmodule c; endmodule\n",
        top: None, broken: Some(BrokenLine { rule: 2, line: 1 }),
    },
    NetlistRow {
        shows: "a circle and a primitive, which is no top",
        text: "module a; a u(); endmodule\nprimitive p(o, i); output o; input i; table 0 : 0 ; 1 : 1 ; endtable endprimitive\n",
        top: None, broken: Some(BrokenLine { rule: 2, line: 1 }),
    },
    NetlistRow {
        shows: "the chosen module of a circle isn't asked for: another module has no instance",
        text: "module a; b u(); endmodule\nmodule b; a u(); endmodule\nmodule t; endmodule\n",
        top: None, broken: None,
    },
    NetlistRow {
        shows: "a chosen name with bytes that only an escaped name has",
        text: "module \\a+b ; endmodule\n",
        top: Some("a+b"), broken: None,
    },
    NetlistRow {
        shows: "a chosen name of a module that is written escaped without need",
        text: "module \\a ; endmodule\nmodule b; x u(); endmodule\n",
        top: Some("a"), broken: None,
    },
    NetlistRow {
        shows: "the last of two modules is the top",
        text: "module a;\nx u();\nendmodule\nmodule b;\nendmodule\n",
        top: None, broken: None,
    },
    NetlistRow {
        shows: "the last of two modules is the top, and breaks a rule",
        text: "module b;\nendmodule\nmodule a;\nx u();\nendmodule\n",
        top: None, broken: Some(BrokenLine { rule: 3, line: 4 }),
    },
    NetlistRow {
        shows: "the last module is instantiated by an earlier one",
        text: "module a;\nb u();\nx v();\nendmodule\nmodule b;\nendmodule\n",
        top: None, broken: Some(BrokenLine { rule: 3, line: 3 }),
    },
    NetlistRow {
        shows: "the last module is instantiated by one that isn't reached",
        text: "module b; c u(); x v(); endmodule\nmodule a; endmodule\nmodule c; x u(); endmodule\n",
        top: None, broken: None,
    },
    NetlistRow {
        shows: "a module that only itself instantiates is no top",
        text: "module a;\nx u();\nendmodule\nmodule b;\nb u();\nendmodule\n",
        top: None, broken: Some(BrokenLine { rule: 3, line: 2 }),
    },
    NetlistRow {
        shows: "a primitive behind the modules is no top",
        text: "module a; endmodule\nmodule b; p u(y, a); endmodule\nprimitive p(o, i); output o; input i; table 0 : 0 ; 1 : 1 ; endtable endprimitive\n",
        top: None, broken: None,
    },
    NetlistRow {
        shows: "the chosen module is instantiated by another",
        text: "module a; b u(); x v(); endmodule\nmodule b; endmodule\n",
        top: Some("b"), broken: None,
    },
    NetlistRow {
        shows: "the chosen module is the first of three",
        text: "module a;\nx u();\nendmodule\nmodule b; endmodule\nmodule c; endmodule\n",
        top: Some("a"), broken: Some(BrokenLine { rule: 3, line: 2 }),
    },
    NetlistRow {
        shows: "the chosen module is the second of three",
        text: "module a; x u(); endmodule\nmodule b; endmodule\nmodule c; y u(); endmodule\n",
        top: Some("b"), broken: None,
    },
];

pub(crate) fn rows() -> &'static [NetlistRow] {
    &ROWS
}
