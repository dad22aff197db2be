//! Instances, their connections, and literals at outputs.

use crate::rows::{BrokenLine, NetlistRow};

#[rattlefmt::skip]
static ROWS: [NetlistRow; 42] = [
    NetlistRow {
        shows: "a module without name",
        text: "module t;\nwire [1:0] v;\ns\n(v, y);\nendmodule\nmodule s(p, q);\noutput [1:0] p;\ninput q;\nendmodule\n",
        top: None, broken: Some(BrokenLine { rule: 10, line: 4 }),
    },
    NetlistRow {
        shows: "the second of two modules without name",
        text: "module t;\nwire [1:0] v;\ns i(v, y),\n(v, y);\nendmodule\nmodule s(p, q);\noutput [1:0] p;\ninput q;\nendmodule\n",
        top: None, broken: Some(BrokenLine { rule: 10, line: 4 }),
    },
    NetlistRow {
        shows: "a primitive without name",
        text: "module t;\nu (o, a, b), i (o, a, b);\nendmodule\nprimitive u(o, a, b);\noutput o;\ninput a, b;\ntable\n0 ? : 0;\n1 1 : 1;\nendtable\nendprimitive\n",
        top: None, broken: None,
    },
    NetlistRow {
        shows: "a primitive with too few connections",
        text: "module t;\nu\n(o, a);\nendmodule\nprimitive u(o, a, b);\noutput o;\ninput a, b;\ntable\n0 ? : 0;\n1 1 : 1;\nendtable\nendprimitive\n",
        top: None, broken: Some(BrokenLine { rule: 10, line: 3 }),
    },
    NetlistRow {
        shows: "a primitive with too many connections",
        text: "module t;\nu\ni(o, a, b, c);\nendmodule\nprimitive u(o, a, b);\noutput o;\ninput a, b;\ntable\n0 ? : 0;\n1 1 : 1;\nendtable\nendprimitive\n",
        top: None, broken: Some(BrokenLine { rule: 10, line: 3 }),
    },
    NetlistRow {
        shows: "a primitive with an empty connection",
        text: "module t;\nu\n(o, , b);\nendmodule\nprimitive u(o, a, b);\noutput o;\ninput a, b;\ntable\n0 ? : 0;\n1 1 : 1;\nendtable\nendprimitive\n",
        top: None, broken: Some(BrokenLine { rule: 10, line: 3 }),
    },
    NetlistRow {
        shows: "a primitive with a last empty connection",
        text: "module t;\nu\n(o, a, );\nendmodule\nprimitive u(o, a, b);\noutput o;\ninput a, b;\ntable\n0 ? : 0;\n1 1 : 1;\nendtable\nendprimitive\n",
        top: None, broken: Some(BrokenLine { rule: 10, line: 3 }),
    },
    NetlistRow {
        shows: "a primitive without connections",
        text: "module t;\nu\n();\nendmodule\nprimitive u(o, a, b);\noutput o;\ninput a, b;\ntable\n0 ? : 0;\n1 1 : 1;\nendtable\nendprimitive\n",
        top: None, broken: Some(BrokenLine { rule: 10, line: 3 }),
    },
    NetlistRow {
        shows: "a primitive with named connections",
        text: "module t;\nu\ni(.o(o), .a(a), .b(b));\nendmodule\nprimitive u(o, a, b);\noutput o;\ninput a, b;\ntable\n0 ? : 0;\n1 1 : 1;\nendtable\nendprimitive\n",
        top: None, broken: Some(BrokenLine { rule: 10, line: 3 }),
    },
    NetlistRow {
        shows: "no connection",
        text: "module t;\ns i();\nendmodule\nmodule s(p, q);\noutput [1:0] p;\ninput q;\nendmodule\n",
        top: None, broken: None,
    },
    NetlistRow {
        shows: "fewer connections than ports",
        text: "module t;\nwire [1:0] v;\ns i(v);\nendmodule\nmodule s(p, q);\noutput [1:0] p;\ninput q;\nendmodule\n",
        top: None, broken: None,
    },
    NetlistRow {
        shows: "empty connections",
        text: "module t;\ns i(, y), j(, );\nendmodule\nmodule s(p, q);\noutput [1:0] p;\ninput q;\nendmodule\n",
        top: None, broken: None,
    },
    NetlistRow {
        shows: "more connections than ports",
        text: "module t;\nwire [1:0] v;\ns i\n(v, y, z);\nendmodule\nmodule s(p, q);\noutput [1:0] p;\ninput q;\nendmodule\n",
        top: None, broken: Some(BrokenLine { rule: 13, line: 4 }),
    },
    NetlistRow {
        shows: "more empty places than ports",
        text: "module t;\ns i\n(, , );\nendmodule\nmodule s(p, q);\noutput [1:0] p;\ninput q;\nendmodule\n",
        top: None, broken: Some(BrokenLine { rule: 13, line: 3 }),
    },
    NetlistRow {
        shows: "a connection to a module without ports",
        text: "module t;\ne i\n(a);\nendmodule\nmodule e;\nendmodule\n",
        top: None, broken: Some(BrokenLine { rule: 13, line: 3 }),
    },
    NetlistRow {
        shows: "no connection to a module without ports",
        text: "module t;\ne i();\nendmodule\nmodule e;\nendmodule\n",
        top: None, broken: None,
    },
    NetlistRow {
        shows: "two empty places of a module without ports",
        text: "module t;\ne i\n(, );\nendmodule\nmodule e;\nendmodule\n",
        top: None, broken: Some(BrokenLine { rule: 13, line: 3 }),
    },
    NetlistRow {
        shows: "a named connection of no port",
        text: "module t;\ns i(.q(y),\n.z(a));\nendmodule\nmodule s(p, q);\noutput [1:0] p;\ninput q;\nendmodule\n",
        top: None, broken: Some(BrokenLine { rule: 13, line: 3 }),
    },
    NetlistRow {
        shows: "a named connection of a net that is no port",
        text: "module t;\nr i(\n.w(a));\nendmodule\nmodule r(x);\ninput x;\nwire w;\nendmodule\n",
        top: None, broken: Some(BrokenLine { rule: 13, line: 3 }),
    },
    NetlistRow {
        shows: "a port connected twice",
        text: "module t;\ns i(.q(y),\n.q(z));\nendmodule\nmodule s(p, q);\noutput [1:0] p;\ninput q;\nendmodule\n",
        top: None, broken: Some(BrokenLine { rule: 13, line: 3 }),
    },
    NetlistRow {
        shows: "a port connected twice, first to nothing",
        text: "module t;\ns i(.q(),\n.q(z));\nendmodule\nmodule s(p, q);\noutput [1:0] p;\ninput q;\nendmodule\n",
        top: None, broken: Some(BrokenLine { rule: 13, line: 3 }),
    },
    NetlistRow {
        shows: "a port connected twice to nothing",
        text: "module t;\ns i(.q(),\n.q());\nendmodule\nmodule s(p, q);\noutput [1:0] p;\ninput q;\nendmodule\n",
        top: None, broken: Some(BrokenLine { rule: 13, line: 3 }),
    },
    NetlistRow {
        shows: "a port connected in two instances",
        text: "module t;\ns i(.q(y)), j(.q(y));\nendmodule\nmodule s(p, q);\noutput [1:0] p;\ninput q;\nendmodule\n",
        top: None, broken: None,
    },
    NetlistRow {
        shows: "a literal at an input port",
        text: "module t;\ns i(.q(1'b0));\nendmodule\nmodule s(p, q);\noutput [1:0] p;\ninput q;\nendmodule\n",
        top: None, broken: None,
    },
    NetlistRow {
        shows: "a literal at an output port",
        text: "module t;\ns i(\n2'b01, y);\nendmodule\nmodule s(p, q);\noutput [1:0] p;\ninput q;\nendmodule\n",
        top: None, broken: Some(BrokenLine { rule: 14, line: 3 }),
    },
    NetlistRow {
        shows: "a literal without size at an output port",
        text: "module t;\ns i(\n1, y);\nendmodule\nmodule s(p, q);\noutput [1:0] p;\ninput q;\nendmodule\n",
        top: None, broken: Some(BrokenLine { rule: 14, line: 3 }),
    },
    NetlistRow {
        shows: "a concatenation with a literal at an output port",
        text: "module t;\ns i(\n{a, 1'b0}, y);\nendmodule\nmodule s(p, q);\noutput [1:0] p;\ninput q;\nendmodule\n",
        top: None, broken: Some(BrokenLine { rule: 14, line: 3 }),
    },
    NetlistRow {
        shows: "a named literal at an output port",
        text: "module t;\ns i(.q(y),\n.p({a,\n{1'b0}}));\nendmodule\nmodule s(p, q);\noutput [1:0] p;\ninput q;\nendmodule\n",
        top: None, broken: Some(BrokenLine { rule: 14, line: 3 }),
    },
    NetlistRow {
        shows: "a literal at an inout port",
        text: "module t;\nr i(\n1'b0);\nendmodule\nmodule r(x);\ninout x;\nendmodule\n",
        top: None, broken: Some(BrokenLine { rule: 14, line: 3 }),
    },
    NetlistRow {
        shows: "a literal at an output of a header that declares",
        text: "module t;\nr i(y,\n1'b0);\nendmodule\nmodule r(input y, output x);\nendmodule\n",
        top: None, broken: Some(BrokenLine { rule: 14, line: 3 }),
    },
    NetlistRow {
        shows: "a literal at the output of a primitive",
        text: "module t;\nu (\n1'b0, a, b);\nendmodule\nprimitive u(o, a, b);\noutput o;\ninput a, b;\ntable\n0 ? : 0;\n1 1 : 1;\nendtable\nendprimitive\n",
        top: None, broken: Some(BrokenLine { rule: 14, line: 3 }),
    },
    NetlistRow {
        shows: "a literal at an input of a primitive",
        text: "module t;\nu (o, 1'b0, 1);\nendmodule\nprimitive u(o, a, b);\noutput o;\ninput a, b;\ntable\n0 ? : 0;\n1 1 : 1;\nendtable\nendprimitive\n",
        top: None, broken: None,
    },
    NetlistRow {
        shows: "a literal at the output of a gate",
        text: "module t;\nand (\n1'b0, a, b);\nendmodule\n",
        top: None, broken: Some(BrokenLine { rule: 14, line: 3 }),
    },
    NetlistRow {
        shows: "literals at the inputs of a gate",
        text: "module t;\nand (a, 1'b0, 1);\nendmodule\n",
        top: None, broken: None,
    },
    NetlistRow {
        shows: "a literal at an output of a buf",
        text: "module t;\nbuf (a,\n{1'b0}, c);\nendmodule\n",
        top: None, broken: Some(BrokenLine { rule: 14, line: 3 }),
    },
    NetlistRow {
        shows: "a literal at the input of a buf",
        text: "module t;\nbuf (a, b, 1'b0);\nnot (a, 1'bz);\nendmodule\n",
        top: None, broken: None,
    },
    NetlistRow {
        shows: "a literal at an end of a switch",
        text: "module t;\ntran (a,\n1'b0);\nendmodule\n",
        top: None, broken: Some(BrokenLine { rule: 14, line: 3 }),
    },
    NetlistRow {
        shows: "a literal at the first end of a switch",
        text: "module t;\nrtranif1 (\n1'b0, a, c);\nendmodule\n",
        top: None, broken: Some(BrokenLine { rule: 14, line: 3 }),
    },
    NetlistRow {
        shows: "a literal at the control of a switch",
        text: "module t;\ntranif1 (a, b, 1'b0);\nendmodule\n",
        top: None, broken: None,
    },
    NetlistRow {
        shows: "a literal at a pullup",
        text: "module t;\npullup (\n1'b0);\nendmodule\n",
        top: None, broken: Some(BrokenLine { rule: 14, line: 3 }),
    },
    NetlistRow {
        shows: "a literal at the output of a cmos",
        text: "module t;\ncmos (\n1'b0, a, b, c);\nendmodule\n",
        top: None, broken: Some(BrokenLine { rule: 14, line: 3 }),
    },
    NetlistRow {
        shows: "literals at the inputs of a cmos",
        text: "module t;\ncmos (y, 1'b0, 1'b1, 1'bx);\nendmodule\n",
        top: None, broken: None,
    },
];

/// The rows.
pub(crate) fn rows() -> &'static [NetlistRow] {
    &ROWS
}
