//! Modules and primitives of one name.

use crate::rows::{BrokenLine, NetlistRow};

#[rattlefmt::skip]
static ROWS: [NetlistRow; 23] = [
    NetlistRow {
        shows: "two modules",
        text: "module a;\nendmodule\nmodule a;\nendmodule\n",
        top: None, broken: Some(BrokenLine { rule: 1, line: 3 }),
    },
    NetlistRow {
        shows: "a name on the line behind its word",
        text: "module a; endmodule\nmodule\na;\nendmodule\n",
        top: None, broken: Some(BrokenLine { rule: 1, line: 3 }),
    },
    NetlistRow {
        shows: "two primitives",
        text: "primitive p(o, i); output o; input i; table 0 : 0 ; 1 : 1 ; endtable endprimitive\nmodule t; endmodule\nprimitive p(o, i); output o; input i; table 0 : 0 ; 1 : 1 ; endtable endprimitive\n",
        top: None, broken: Some(BrokenLine { rule: 1, line: 3 }),
    },
    NetlistRow {
        shows: "a primitive with the name of a module",
        text: "module a; endmodule\nmodule b; endmodule\nprimitive a(o, i); output o; input i; table 0 : 0 ; 1 : 1 ; endtable endprimitive\n",
        top: None, broken: Some(BrokenLine { rule: 1, line: 3 }),
    },
    NetlistRow {
        shows: "a module with the name of a primitive",
        text: "primitive a(o, i); output o; input i; table 0 : 0 ; 1 : 1 ; endtable endprimitive\nmodule b; endmodule\nmodule a; endmodule\n",
        top: None, broken: Some(BrokenLine { rule: 1, line: 3 }),
    },
    NetlistRow {
        shows: "an escaped name first",
        text: "module \\a ;\nendmodule\nmodule a;\nendmodule\n",
        top: None, broken: Some(BrokenLine { rule: 1, line: 3 }),
    },
    NetlistRow {
        shows: "an escaped name later",
        text: "module a;\nendmodule\nmodule \\a ;\nendmodule\n",
        top: None, broken: Some(BrokenLine { rule: 1, line: 3 }),
    },
    NetlistRow {
        shows: "an escaped name that is a word of the language",
        text: "module \\wire ; endmodule\nmodule b; endmodule\nmodule \\wire ; endmodule\n",
        top: None, broken: Some(BrokenLine { rule: 1, line: 3 }),
    },
    NetlistRow {
        shows: "three of one name: the second",
        text: "module a; endmodule\nmodule a; endmodule\nmodule a; endmodule\n",
        top: None, broken: Some(BrokenLine { rule: 1, line: 2 }),
    },
    NetlistRow {
        shows: "a module, a primitive and a module of one name",
        text: "module a; endmodule\nprimitive a(o, i); output o; input i; table 0 : 0 ; 1 : 1 ; endtable endprimitive\nmodule a; endmodule\n",
        top: None, broken: Some(BrokenLine { rule: 1, line: 2 }),
    },
    NetlistRow {
        shows: "two names that stand twice: the least later one",
        text: "module a; endmodule\nmodule b; endmodule\nmodule b; endmodule\nmodule a; endmodule\n",
        top: None, broken: Some(BrokenLine { rule: 1, line: 3 }),
    },
    NetlistRow {
        shows: "two names that stand twice, of a module and of a primitive",
        text: "module a; endmodule\nprimitive q(o, i); output o; input i; table 0 : 0 ; 1 : 1 ; endtable endprimitive\nprimitive q(o, i); output o; input i; table 0 : 0 ; 1 : 1 ; endtable endprimitive\nmodule a; endmodule\n",
        top: None, broken: Some(BrokenLine { rule: 1, line: 3 }),
    },
    NetlistRow {
        shows: "modules that the top doesn't reach",
        text: "module a; endmodule\nmodule a; endmodule\nmodule t; endmodule\n",
        top: Some("t"), broken: Some(BrokenLine { rule: 1, line: 2 }),
    },
    NetlistRow {
        shows: "primitives that no module has",
        text: "primitive p(o, i); output o; input i; table 0 : 0 ; 1 : 1 ; endtable endprimitive\nprimitive p(o, i); output o; input i; table 0 : 0 ; 1 : 1 ; endtable endprimitive\nmodule t; endmodule\n",
        top: None, broken: Some(BrokenLine { rule: 1, line: 2 }),
    },
    NetlistRow {
        shows: "a macromodule",
        text: "module a; endmodule\nmacromodule a;\nendmodule\n",
        top: None, broken: Some(BrokenLine { rule: 1, line: 2 }),
    },
    NetlistRow {
        shows: "two macromodules",
        text: "macromodule a; endmodule\n\n\nmacromodule a; endmodule\n",
        top: None, broken: Some(BrokenLine { rule: 1, line: 4 }),
    },
    NetlistRow {
        shows: "the later one is instantiated too",
        text: "module a; endmodule\nmodule a; endmodule\nmodule t;\na u();\nendmodule\n",
        top: None, broken: Some(BrokenLine { rule: 1, line: 2 }),
    },
    NetlistRow {
        shows: "letters, digits, low lines and dollars",
        text: "module _a1$; endmodule\nmodule _a1$; endmodule\n",
        top: None, broken: Some(BrokenLine { rule: 1, line: 2 }),
    },
    NetlistRow {
        shows: "a directive between them",
        text: "module a; endmodule\n`timescale 1ns/1ps\n`resetall\nmodule a; endmodule\n",
        top: None, broken: Some(BrokenLine { rule: 1, line: 4 }),
    },
    NetlistRow {
        shows: "comments and attributes between them",
        text: "module a; endmodule\n/* a\n a */ (* a = 1 *) module // a\na; endmodule\n",
        top: None, broken: Some(BrokenLine { rule: 1, line: 4 }),
    },
    NetlistRow {
        shows: "a name and the same in capital letters",
        text: "module a; endmodule\nmodule A; endmodule\n",
        top: None, broken: None,
    },
    NetlistRow {
        shows: "a name that begins another",
        text: "module a; endmodule\nmodule ab; endmodule\nmodule abc; endmodule\n",
        top: None, broken: None,
    },
    NetlistRow {
        shows: "a module, its net, its port and its instance of one name",
        text: "module s(s); input s; endmodule\nmodule a(t); input t; wire a; s s(t); endmodule\n",
        top: None, broken: None,
    },
];

pub(crate) fn rows() -> &'static [NetlistRow] {
    &ROWS
}
