//! Widths of terminals and connections.

use crate::rows::{BrokenLine, NetlistRow};

#[rattlefmt::skip]
static ROWS: [NetlistRow; 34] = [
    NetlistRow {
        shows: "a vector at a gate",
        text: "module t;\nwire [1:0] v;\nand (a,\nb,\nv);\nendmodule\n",
        top: None, broken: Some(BrokenLine { rule: 9, line: 5 }),
    },
    NetlistRow {
        shows: "a vector of one bit at a gate",
        text: "module t;\nwire [3:3] v;\nand (v, b, c);\nendmodule\n",
        top: None, broken: None,
    },
    NetlistRow {
        shows: "a bit of a vector at a gate",
        text: "module t;\nwire [1:0] v;\nand (v[0], v[1], v[0:0]);\nendmodule\n",
        top: None, broken: None,
    },
    NetlistRow {
        shows: "a part of a vector at a gate",
        text: "module t;\nwire [0:3] v;\nand (a, b,\nv[1:2]);\nendmodule\n",
        top: None, broken: Some(BrokenLine { rule: 9, line: 4 }),
    },
    NetlistRow {
        shows: "a concatenation of one bit at a gate",
        text: "module t;\nbuf ({a}, {{b}});\nendmodule\n",
        top: None, broken: None,
    },
    NetlistRow {
        shows: "a concatenation of two bits at a gate",
        text: "module t;\nbuf (a,\n{b, c});\nendmodule\n",
        top: None, broken: Some(BrokenLine { rule: 9, line: 3 }),
    },
    NetlistRow {
        shows: "a literal of one bit at a gate",
        text: "module t;\nand (a, 1'b1, 1'bx);\nendmodule\n",
        top: None, broken: None,
    },
    NetlistRow {
        shows: "a literal of two bits at a gate",
        text: "module t;\nand (a, b,\n2'b01);\nendmodule\n",
        top: None, broken: Some(BrokenLine { rule: 9, line: 3 }),
    },
    NetlistRow {
        shows: "literals without size at a gate",
        text: "module t;\nand (a, 1, 'b1, 200);\nendmodule\n",
        top: None, broken: None,
    },
    NetlistRow {
        shows: "a literal without size in a concatenation at a gate",
        text: "module t;\nand (a,\n{\n1}, b);\nendmodule\n",
        top: None, broken: Some(BrokenLine { rule: 9, line: 4 }),
    },
    NetlistRow {
        shows: "a literal without size in an inner concatenation",
        text: "module t;\nbuf (a, {{b,\n'h1}});\nendmodule\n",
        top: None, broken: Some(BrokenLine { rule: 9, line: 3 }),
    },
    NetlistRow {
        shows: "a superfluous terminal",
        text: "module t;\nwire [1:0] v;\nnmos (a, b, c,\nv);\nendmodule\n",
        top: None, broken: Some(BrokenLine { rule: 9, line: 4 }),
    },
    NetlistRow {
        shows: "a vector at a switch",
        text: "module t;\nwire [2:1] v;\ntran (a,\nv);\nendmodule\n",
        top: None, broken: Some(BrokenLine { rule: 9, line: 4 }),
    },
    NetlistRow {
        shows: "the control of a switch",
        text: "module t;\nwire [2:1] v;\ntranif0 (a, b,\nv);\nendmodule\n",
        top: None, broken: Some(BrokenLine { rule: 9, line: 4 }),
    },
    NetlistRow {
        shows: "an assignment of another width",
        text: "module t;\nwire [3:0] a;\nwire b;\nassign a = b;\nassign b = a;\nassign a = {b, b};\nendmodule\n",
        top: None, broken: None,
    },
    NetlistRow {
        shows: "a literal without size in an assignment",
        text: "module t;\nwire [3:0] a;\nassign a = 5;\nassign {a[0], a[1]} = 3;\nendmodule\n",
        top: None, broken: None,
    },
    NetlistRow {
        shows: "a literal without size in a concatenation of an assignment",
        text: "module t;\nwire [3:0] a;\nassign a = {2'b01,\n2};\nendmodule\n",
        top: None, broken: Some(BrokenLine { rule: 9, line: 4 }),
    },
    NetlistRow {
        shows: "a literal without size in a concatenation of a declared value",
        text: "module t;\nwire [3:0] a = {\n'b1, 1'b0};\nendmodule\n",
        top: None, broken: Some(BrokenLine { rule: 9, line: 3 }),
    },
    NetlistRow {
        shows: "a connection of the right width",
        text: "module t;\nwire [4:3] v;\ns i(v, y), j({a, b}, y), k(.q(y), .p(v));\nendmodule\nmodule s(p, q);\noutput [1:0] p;\ninput q;\nendmodule\n",
        top: None, broken: None,
    },
    NetlistRow {
        shows: "a connection too narrow",
        text: "module t;\ns i(\na, y);\nendmodule\nmodule s(p, q);\noutput [1:0] p;\ninput q;\nendmodule\n",
        top: None, broken: Some(BrokenLine { rule: 9, line: 3 }),
    },
    NetlistRow {
        shows: "a connection too wide",
        text: "module t;\nwire [2:0] v;\ns i(\nv, y);\nendmodule\nmodule s(p, q);\noutput [1:0] p;\ninput q;\nendmodule\n",
        top: None, broken: Some(BrokenLine { rule: 9, line: 4 }),
    },
    NetlistRow {
        shows: "a connection of a descending range",
        text: "module t;\nwire [0:1] v;\ns i(v, y);\nendmodule\nmodule s(p, q);\noutput [1:0] p;\ninput q;\nendmodule\n",
        top: None, broken: None,
    },
    NetlistRow {
        shows: "a named connection too narrow",
        text: "module t;\ns i(.q(y),\n.p(\na));\nendmodule\nmodule s(p, q);\noutput [1:0] p;\ninput q;\nendmodule\n",
        top: None, broken: Some(BrokenLine { rule: 9, line: 3 }),
    },
    NetlistRow {
        shows: "a literal without size at an input",
        text: "module t;\nwire [1:0] v;\ns i(v, 1);\nendmodule\nmodule s(p, q);\noutput [1:0] p;\ninput q;\nendmodule\n",
        top: None, broken: None,
    },
    NetlistRow {
        shows: "a literal with size too wide at an input",
        text: "module t;\nwire [1:0] v;\ns i(v,\n2'b1);\nendmodule\nmodule s(p, q);\noutput [1:0] p;\ninput q;\nendmodule\n",
        top: None, broken: Some(BrokenLine { rule: 9, line: 4 }),
    },
    NetlistRow {
        shows: "a literal without size in a concatenation at an input",
        text: "module t;\nwire [1:0] v;\ns i(v, {\n0});\nendmodule\nmodule s(p, q);\noutput [1:0] p;\ninput q;\nendmodule\n",
        top: None, broken: Some(BrokenLine { rule: 9, line: 4 }),
    },
    NetlistRow {
        shows: "a superfluous connection has no width to keep",
        text: "module t;\nwire [1:0] v;\nwire [7:0] w;\ns i(v, y,\nw), j(v, y);\nendmodule\nmodule s(p, q);\noutput [1:0] p;\ninput q;\nendmodule\n",
        top: None, broken: Some(BrokenLine { rule: 13, line: 4 }),
    },
    NetlistRow {
        shows: "a named connection of no port has no width to keep",
        text: "module t;\nwire [7:0] w;\ns i(\n.z(w));\nendmodule\nmodule s(p, q);\noutput [1:0] p;\ninput q;\nendmodule\n",
        top: None, broken: Some(BrokenLine { rule: 13, line: 4 }),
    },
    NetlistRow {
        shows: "a literal without size in a superfluous connection",
        text: "module t;\nwire [1:0] v;\ns i(v, y, {\n1});\nendmodule\nmodule s(p, q);\noutput [1:0] p;\ninput q;\nendmodule\n",
        top: None, broken: Some(BrokenLine { rule: 9, line: 4 }),
    },
    NetlistRow {
        shows: "a vector at a primitive",
        text: "module t;\nwire [1:0] v;\nu (o, a,\nv);\nendmodule\nprimitive u(o, a, b);\noutput o;\ninput a, b;\ntable\n0 ? : 0;\n1 1 : 1;\nendtable\nendprimitive\n",
        top: None, broken: Some(BrokenLine { rule: 9, line: 4 }),
    },
    NetlistRow {
        shows: "a named vector at a primitive",
        text: "module t;\nwire [1:0] v;\nu (\n.o(v));\nendmodule\nprimitive u(o, a, b);\noutput o;\ninput a, b;\ntable\n0 ? : 0;\n1 1 : 1;\nendtable\nendprimitive\n",
        top: None, broken: Some(BrokenLine { rule: 9, line: 4 }),
    },
    NetlistRow {
        shows: "a superfluous vector at a primitive",
        text: "module t;\nwire [1:0] v;\nu (o, a, b,\nv);\nendmodule\nprimitive u(o, a, b);\noutput o;\ninput a, b;\ntable\n0 ? : 0;\n1 1 : 1;\nendtable\nendprimitive\n",
        top: None, broken: Some(BrokenLine { rule: 9, line: 4 }),
    },
    NetlistRow {
        shows: "an inout port of a vector",
        text: "module t;\nwire [1:0] v;\nr i(v), j({a, b}), k(\na);\nendmodule\nmodule r(x);\ninout [7:6] x;\nendmodule\n",
        top: None, broken: Some(BrokenLine { rule: 9, line: 4 }),
    },
    NetlistRow {
        shows: "a port whose net has the range",
        text: "module t;\nr i(\na);\nendmodule\nmodule r(x);\ninput [1:0] x;\nwire [1:0] x;\nendmodule\n",
        top: None, broken: Some(BrokenLine { rule: 9, line: 3 }),
    },
];

/// The rows.
pub(crate) fn rows() -> &'static [NetlistRow] {
    &ROWS
}
