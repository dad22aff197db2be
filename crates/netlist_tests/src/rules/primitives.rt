//! Primitives, and what is reached.

use crate::rows::{BrokenLine, NetlistRow};

#[rattlefmt::skip]
static ROWS: [NetlistRow; 25] = [
    NetlistRow {
        shows: "a bad row of a primitive",
        text: "module t;\nx (o, a);\nendmodule\nprimitive x(o, a);\noutput o;\ninput a;\ntable\n0 : 0;\nr : 1;\nendtable\nendprimitive\n",
        top: None, broken: Some(BrokenLine { rule: 16, line: 9 }),
    },
    NetlistRow {
        shows: "a bad row of a primitive before the module",
        text: "primitive x(o, a);\noutput o;\ninput a;\ntable\n0 : 0;\nr : 1;\nendtable\nendprimitive\nmodule t;\nx (o, a);\nendmodule\n",
        top: None, broken: Some(BrokenLine { rule: 16, line: 6 }),
    },
    NetlistRow {
        shows: "a bad row of a primitive that no module instantiates",
        text: "module t;\nbuf (o, a);\nendmodule\nprimitive x(o, a);\noutput o;\ninput a;\ntable\n0 : 0;\nr : 1;\nendtable\nendprimitive\n",
        top: None, broken: None,
    },
    NetlistRow {
        shows: "a bad row of a primitive that an unreached module instantiates",
        text: "module v;\nx (o, a);\nendmodule\nmodule t;\nbuf (o, a);\nendmodule\nprimitive x(o, a);\noutput o;\ninput a;\ntable\n0 : 0;\nr : 1;\nendtable\nendprimitive\n",
        top: None, broken: None,
    },
    NetlistRow {
        shows: "a bad row of a primitive that an inner module instantiates",
        text: "module t;\nv i();\nendmodule\nmodule v;\nx (o, a);\nendmodule\nprimitive x(o, a);\noutput o;\ninput a;\ntable\n0 : 0;\nr : 1;\nendtable\nendprimitive\n",
        top: None, broken: Some(BrokenLine { rule: 16, line: 12 }),
    },
    NetlistRow {
        shows: "a wrong header",
        text: "module t;\nx (o, a);\nendmodule\nprimitive\nx(o, a);\noutput o;\ntable\n0 : 0;\nendtable\nendprimitive\n",
        top: None, broken: Some(BrokenLine { rule: 17, line: 5 }),
    },
    NetlistRow {
        shows: "a wrong header of a primitive that no module instantiates",
        text: "module t;\nbuf (o, a);\nendmodule\nprimitive\nx(o, a);\noutput o;\ntable\n0 : 0;\nendtable\nendprimitive\n",
        top: None, broken: None,
    },
    NetlistRow {
        shows: "eleven inputs",
        text: "module t;\nx (o, a, b, c, d, e, f, g, h, i, j, k);\nendmodule\nprimitive\nx(o, a, b, c, d, e, f, g, h, i, j, k);\noutput o;\ninput a, b, c, d, e, f, g, h, i, j, k;\ntable\nendtable\nendprimitive\n",
        top: None, broken: Some(BrokenLine { rule: 16, line: 5 }),
    },
    NetlistRow {
        shows: "a clash",
        text: "module t;\nx (o, a, b);\nendmodule\nprimitive x(o, a, b);\noutput o;\ninput a, b;\ntable\n0 ? : 1;\n? 0 : 0;\nendtable\nendprimitive\n",
        top: None, broken: Some(BrokenLine { rule: 16, line: 9 }),
    },
    NetlistRow {
        shows: "a wrong header before a bad row of another",
        text: "module t;\nx (o, a);\nw (o, a);\nendmodule\nprimitive\nx(o, a);\noutput o;\ntable\n0 : 0;\nendtable\nendprimitive\nprimitive w(o, a);\noutput o;\ninput a;\ntable\n0 : 0;\nr : 1;\nendtable\nendprimitive\n",
        top: None, broken: Some(BrokenLine { rule: 16, line: 17 }),
    },
    NetlistRow {
        shows: "the second of two wrong headers is reached",
        text: "module t;\nw (o, a);\nendmodule\nprimitive\nx(o, a);\noutput o;\ntable\n0 : 0;\nendtable\nendprimitive\nprimitive\nw(o, a);\noutput o;\ntable\n0 : 0;\nendtable\nendprimitive\n",
        top: None, broken: Some(BrokenLine { rule: 17, line: 12 }),
    },
    NetlistRow {
        shows: "a primitive with the name of a module is not meant",
        text: "module t;\nx i(o, a);\nendmodule\nmodule\nx(o, a);\noutput o;\ninput a;\nendmodule\nprimitive x(o, a);\noutput o;\ninput a;\ntable\n0 : 0;\nr : 1;\nendtable\nendprimitive\n",
        top: None, broken: Some(BrokenLine { rule: 1, line: 9 }),
    },
    NetlistRow {
        shows: "a primitive of its own under the first of its name",
        text: "module t;\nx (o, a);\nendmodule\nprimitive x(o, a);\noutput o;\ninput a;\ntable\n0 : 0;\nendtable\nendprimitive\nprimitive x(o, a);\noutput o;\ninput a;\ntable\n0 : 0;\nr : 1;\nendtable\nendprimitive\n",
        top: None, broken: Some(BrokenLine { rule: 1, line: 11 }),
    },
    NetlistRow {
        shows: "a sequential primitive",
        text: "module t;\nx (o, a);\nendmodule\nprimitive x(o, a);\noutput o;\nreg o;\ninput a;\ninitial o = 1'b0;\ntable\nr : ? : 1;\nf : ? : 0;\nendtable\nendprimitive\n",
        top: None, broken: None,
    },
    NetlistRow {
        shows: "an unreached module breaks all rules",
        text: "module z;\nwire [1:0] v;\nbuf (v, 1, 2);\nnand #(1, 2, 3) (a);\nbuf (strong0, weak0) (1'b0, b);\nnix #3 (c);\nassign y = w;\nendmodule\nmodule t;\nbuf (a, b);\nendmodule\n",
        top: None, broken: None,
    },
    NetlistRow {
        shows: "another top is chosen",
        text: "module z;\nbuf (a);\nendmodule\nmodule t;\nbuf (a, b);\nendmodule\n",
        top: Some("t"), broken: None,
    },
    NetlistRow {
        shows: "the first module is chosen",
        text: "module z;\nbuf\n(a);\nendmodule\nmodule t;\nbuf (a, b);\nendmodule\n",
        top: Some("z"), broken: Some(BrokenLine { rule: 10, line: 3 }),
    },
    NetlistRow {
        shows: "a module below the top",
        text: "module z;\nbuf\n(a);\nendmodule\nmodule t;\nz i();\nendmodule\n",
        top: None, broken: Some(BrokenLine { rule: 10, line: 3 }),
    },
    NetlistRow {
        shows: "a module two below the top",
        text: "module z;\nbuf\n(a);\nendmodule\nmodule y;\nz i();\nendmodule\nmodule t;\ny i();\nendmodule\n",
        top: None, broken: Some(BrokenLine { rule: 10, line: 3 }),
    },
    NetlistRow {
        shows: "the earlier of two places in two modules",
        text: "module z;\nbuf\n(a);\nendmodule\nmodule t;\nz i();\nbuf (b);\nendmodule\n",
        top: None, broken: Some(BrokenLine { rule: 10, line: 3 }),
    },
    NetlistRow {
        shows: "the earlier of two places, gate before instance",
        text: "module t;\nwire [1:0] v;\nbuf (a,\nv);\ns i(a, y);\nendmodule\nmodule s(p, q);\noutput [1:0] p;\ninput q;\nendmodule\n",
        top: None, broken: Some(BrokenLine { rule: 9, line: 4 }),
    },
    NetlistRow {
        shows: "the earlier of two places, instance before gate",
        text: "module t;\nwire [1:0] v;\ns i(\na, y);\nbuf (a, v);\nendmodule\nmodule s(p, q);\noutput [1:0] p;\ninput q;\nendmodule\n",
        top: None, broken: Some(BrokenLine { rule: 9, line: 4 }),
    },
    NetlistRow {
        shows: "no module",
        text: "primitive x(o, a);\noutput o;\ninput a;\ntable\n0 : 0;\nr : 1;\nendtable\nendprimitive\n",
        top: None, broken: Some(BrokenLine { rule: 2, line: 1 }),
    },
    NetlistRow {
        shows: "an empty netlist",
        text: "",
        top: None, broken: Some(BrokenLine { rule: 2, line: 1 }),
    },
    NetlistRow {
        shows: "no such top",
        text: "module t;\nbuf (a);\nendmodule\n",
        top: Some("x"), broken: Some(BrokenLine { rule: 2, line: 1 }),
    },
];

/// The rows.
pub(crate) fn rows() -> &'static [NetlistRow] {
    &ROWS
}
