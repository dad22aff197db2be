//! Netlists that break one rule or two.

use crate::rows::{BrokenLine, NetlistRow};

#[rattlefmt::skip]
static ROWS: [NetlistRow; 48] = [
    NetlistRow {
        shows: "the rules 7 and 9",
        text: "module t;\nwire [1:0] v9;\nwire o9;\nbuf (o9,\nv9);\nwire y7;\nassign y7 =\nu7;\nendmodule\n",
        top: Some("t"), broken: Some(BrokenLine { rule: 7, line: 8 }),
    },
    NetlistRow {
        shows: "the rules 7 and 10",
        text: "module t;\nwire o10;\nand\n(o10);\nwire y7;\nassign y7 =\nu7;\nendmodule\n",
        top: Some("t"), broken: Some(BrokenLine { rule: 7, line: 7 }),
    },
    NetlistRow {
        shows: "the rules 7 and 11",
        text: "module t;\nwire o11, a11;\nnand\n#(1, 2, 3) (o11, a11);\nwire y7;\nassign y7 =\nu7;\nendmodule\n",
        top: Some("t"), broken: Some(BrokenLine { rule: 7, line: 7 }),
    },
    NetlistRow {
        shows: "the rules 7 and 12",
        text: "module t;\nwire o12, a12;\nbuf\n(strong0, weak0) (o12, a12);\nwire y7;\nassign y7 =\nu7;\nendmodule\n",
        top: Some("t"), broken: Some(BrokenLine { rule: 7, line: 7 }),
    },
    NetlistRow {
        shows: "the rules 7 and 18",
        text: "module t;\nm18 u18();\nwire y7;\nassign y7 =\nu7;\nendmodule\nmodule m18(r);\noutput [1:0] r;\nwire [2:0]\nr;\nendmodule\n",
        top: Some("t"), broken: Some(BrokenLine { rule: 7, line: 5 }),
    },
    NetlistRow {
        shows: "the rules 8 and 9",
        text: "module t;\nwire [1:0] v9;\nwire o9;\nbuf (o9,\nv9);\nwire s8;\nwire [0:0] o8;\nbuf (o8[0],\ns8[1]);\nendmodule\n",
        top: Some("t"), broken: Some(BrokenLine { rule: 8, line: 9 }),
    },
    NetlistRow {
        shows: "the rules 8 and 10",
        text: "module t;\nwire o10;\nand\n(o10);\nwire s8;\nwire [0:0] o8;\nbuf (o8[0],\ns8[1]);\nendmodule\n",
        top: Some("t"), broken: Some(BrokenLine { rule: 8, line: 8 }),
    },
    NetlistRow {
        shows: "the rules 8 and 11",
        text: "module t;\nwire o11, a11;\nnand\n#(1, 2, 3) (o11, a11);\nwire s8;\nwire [0:0] o8;\nbuf (o8[0],\ns8[1]);\nendmodule\n",
        top: Some("t"), broken: Some(BrokenLine { rule: 8, line: 8 }),
    },
    NetlistRow {
        shows: "the rules 8 and 12",
        text: "module t;\nwire o12, a12;\nbuf\n(strong0, weak0) (o12, a12);\nwire s8;\nwire [0:0] o8;\nbuf (o8[0],\ns8[1]);\nendmodule\n",
        top: Some("t"), broken: Some(BrokenLine { rule: 8, line: 8 }),
    },
    NetlistRow {
        shows: "the rules 8 and 17",
        text: "module t;\nwire o17, a17;\np17 (o17, a17);\nwire s8;\nwire [0:0] o8;\nbuf (o8[0],\ns8[1]);\nendmodule\nprimitive\np17(o, a);\noutput a;\noutput o;\ntable\n0 : 0;\nendtable\nendprimitive\n",
        top: Some("t"), broken: Some(BrokenLine { rule: 8, line: 7 }),
    },
    NetlistRow {
        shows: "the rules 9 and 10",
        text: "module t;\nwire o10;\nand\n(o10);\nwire [1:0] v9;\nwire o9;\nbuf (o9,\nv9);\nendmodule\n",
        top: Some("t"), broken: Some(BrokenLine { rule: 9, line: 8 }),
    },
    NetlistRow {
        shows: "the rules 9 and 11",
        text: "module t;\nwire o11, a11;\nnand\n#(1, 2, 3) (o11, a11);\nwire [1:0] v9;\nwire o9;\nbuf (o9,\nv9);\nendmodule\n",
        top: Some("t"), broken: Some(BrokenLine { rule: 9, line: 8 }),
    },
    NetlistRow {
        shows: "the rules 9 and 12",
        text: "module t;\nwire o12, a12;\nbuf\n(strong0, weak0) (o12, a12);\nwire [1:0] v9;\nwire o9;\nbuf (o9,\nv9);\nendmodule\n",
        top: Some("t"), broken: Some(BrokenLine { rule: 9, line: 8 }),
    },
    NetlistRow {
        shows: "the rules 9 and 13",
        text: "module t;\nwire a13;\nm13 u13(\n.zz(a13));\nwire [1:0] v9;\nwire o9;\nbuf (o9,\nv9);\nendmodule\nmodule m13(p);\ninput p;\nendmodule\n",
        top: Some("t"), broken: Some(BrokenLine { rule: 9, line: 8 }),
    },
    NetlistRow {
        shows: "the rules 9 and 16",
        text: "module t;\nwire o16, a16;\np16 (o16, a16);\nwire [1:0] v9;\nwire o9;\nbuf (o9,\nv9);\nendmodule\nprimitive p16(o, a);\noutput o;\ninput a;\ntable\n- : 0;\nendtable\nendprimitive\n",
        top: Some("t"), broken: Some(BrokenLine { rule: 9, line: 7 }),
    },
    NetlistRow {
        shows: "the rules 10 and 11",
        text: "module t;\nwire o11, a11;\nnand\n#(1, 2, 3) (o11, a11);\nwire o10;\nand\n(o10);\nendmodule\n",
        top: Some("t"), broken: Some(BrokenLine { rule: 10, line: 7 }),
    },
    NetlistRow {
        shows: "the rules 10 and 12",
        text: "module t;\nwire o12, a12;\nbuf\n(strong0, weak0) (o12, a12);\nwire o10;\nand\n(o10);\nendmodule\n",
        top: Some("t"), broken: Some(BrokenLine { rule: 10, line: 7 }),
    },
    NetlistRow {
        shows: "the rules 10 and 13",
        text: "module t;\nwire a13;\nm13 u13(\n.zz(a13));\nwire o10;\nand\n(o10);\nendmodule\nmodule m13(p);\ninput p;\nendmodule\n",
        top: Some("t"), broken: Some(BrokenLine { rule: 10, line: 7 }),
    },
    NetlistRow {
        shows: "the rules 10 and 14",
        text: "module t;\nwire a14;\nbuf (\n1'b0, a14);\nwire o10;\nand\n(o10);\nendmodule\n",
        top: Some("t"), broken: Some(BrokenLine { rule: 10, line: 7 }),
    },
    NetlistRow {
        shows: "the rules 10 and 20",
        text: "module t;\nm20 u20();\nwire o10;\nand\n(o10);\nendmodule\n`default_nettype none\nmodule m20;\nbuf (\nn20, n21);\nendmodule\n",
        top: Some("t"), broken: Some(BrokenLine { rule: 10, line: 5 }),
    },
    NetlistRow {
        shows: "the rules 11 and 12",
        text: "module t;\nwire o12, a12;\nbuf\n(strong0, weak0) (o12, a12);\nwire o11, a11;\nnand\n#(1, 2, 3) (o11, a11);\nendmodule\n",
        top: Some("t"), broken: Some(BrokenLine { rule: 11, line: 7 }),
    },
    NetlistRow {
        shows: "the rules 11 and 13",
        text: "module t;\nwire a13;\nm13 u13(\n.zz(a13));\nwire o11, a11;\nnand\n#(1, 2, 3) (o11, a11);\nendmodule\nmodule m13(p);\ninput p;\nendmodule\n",
        top: Some("t"), broken: Some(BrokenLine { rule: 11, line: 7 }),
    },
    NetlistRow {
        shows: "the rules 11 and 14",
        text: "module t;\nwire a14;\nbuf (\n1'b0, a14);\nwire o11, a11;\nnand\n#(1, 2, 3) (o11, a11);\nendmodule\n",
        top: Some("t"), broken: Some(BrokenLine { rule: 11, line: 7 }),
    },
    NetlistRow {
        shows: "the rules 11 and 16",
        text: "module t;\nwire o16, a16;\np16 (o16, a16);\nwire o11, a11;\nnand\n#(1, 2, 3) (o11, a11);\nendmodule\nprimitive p16(o, a);\noutput o;\ninput a;\ntable\n- : 0;\nendtable\nendprimitive\n",
        top: Some("t"), broken: Some(BrokenLine { rule: 11, line: 6 }),
    },
    NetlistRow {
        shows: "the rules 11 and 19",
        text: "module t;\nwire o11, a11;\nnand\n#(1, 2, 3) (o11, a11);\nendmodule\n`timescale 1ps / 1ns\n",
        top: Some("t"), broken: Some(BrokenLine { rule: 11, line: 4 }),
    },
    NetlistRow {
        shows: "the rules 12 and 13",
        text: "module t;\nwire a13;\nm13 u13(\n.zz(a13));\nwire o12, a12;\nbuf\n(strong0, weak0) (o12, a12);\nendmodule\nmodule m13(p);\ninput p;\nendmodule\n",
        top: Some("t"), broken: Some(BrokenLine { rule: 12, line: 7 }),
    },
    NetlistRow {
        shows: "the rules 12 and 14",
        text: "module t;\nwire a14;\nbuf (\n1'b0, a14);\nwire o12, a12;\nbuf\n(strong0, weak0) (o12, a12);\nendmodule\n",
        top: Some("t"), broken: Some(BrokenLine { rule: 12, line: 7 }),
    },
    NetlistRow {
        shows: "the rules 12 and 16",
        text: "module t;\nwire o16, a16;\np16 (o16, a16);\nwire o12, a12;\nbuf\n(strong0, weak0) (o12, a12);\nendmodule\nprimitive p16(o, a);\noutput o;\ninput a;\ntable\n- : 0;\nendtable\nendprimitive\n",
        top: Some("t"), broken: Some(BrokenLine { rule: 12, line: 6 }),
    },
    NetlistRow {
        shows: "the rules 12 and 17",
        text: "module t;\nwire o17, a17;\np17 (o17, a17);\nwire o12, a12;\nbuf\n(strong0, weak0) (o12, a12);\nendmodule\nprimitive\np17(o, a);\noutput a;\noutput o;\ntable\n0 : 0;\nendtable\nendprimitive\n",
        top: Some("t"), broken: Some(BrokenLine { rule: 12, line: 6 }),
    },
    NetlistRow {
        shows: "the rules 12 and 18",
        text: "module t;\nm18 u18();\nwire o12, a12;\nbuf\n(strong0, weak0) (o12, a12);\nendmodule\nmodule m18(r);\noutput [1:0] r;\nwire [2:0]\nr;\nendmodule\n",
        top: Some("t"), broken: Some(BrokenLine { rule: 12, line: 5 }),
    },
    NetlistRow {
        shows: "the rules 13 and 14",
        text: "module t;\nwire a14;\nbuf (\n1'b0, a14);\nwire a13;\nm13 u13(\n.zz(a13));\nendmodule\nmodule m13(p);\ninput p;\nendmodule\n",
        top: Some("t"), broken: Some(BrokenLine { rule: 13, line: 7 }),
    },
    NetlistRow {
        shows: "the rules 13 and 16",
        text: "module t;\nwire o16, a16;\np16 (o16, a16);\nwire a13;\nm13 u13(\n.zz(a13));\nendmodule\nprimitive p16(o, a);\noutput o;\ninput a;\ntable\n- : 0;\nendtable\nendprimitive\nmodule m13(p);\ninput p;\nendmodule\n",
        top: Some("t"), broken: Some(BrokenLine { rule: 13, line: 6 }),
    },
    NetlistRow {
        shows: "the rules 13 and 17",
        text: "module t;\nwire o17, a17;\np17 (o17, a17);\nwire a13;\nm13 u13(\n.zz(a13));\nendmodule\nprimitive\np17(o, a);\noutput a;\noutput o;\ntable\n0 : 0;\nendtable\nendprimitive\nmodule m13(p);\ninput p;\nendmodule\n",
        top: Some("t"), broken: Some(BrokenLine { rule: 13, line: 6 }),
    },
    NetlistRow {
        shows: "the rules 13 and 18",
        text: "module t;\nm18 u18();\nwire a13;\nm13 u13(\n.zz(a13));\nendmodule\nmodule m18(r);\noutput [1:0] r;\nwire [2:0]\nr;\nendmodule\nmodule m13(p);\ninput p;\nendmodule\n",
        top: Some("t"), broken: Some(BrokenLine { rule: 13, line: 5 }),
    },
    NetlistRow {
        shows: "the rules 14 and 16",
        text: "module t;\nwire o16, a16;\np16 (o16, a16);\nwire a14;\nbuf (\n1'b0, a14);\nendmodule\nprimitive p16(o, a);\noutput o;\ninput a;\ntable\n- : 0;\nendtable\nendprimitive\n",
        top: Some("t"), broken: Some(BrokenLine { rule: 14, line: 6 }),
    },
    NetlistRow {
        shows: "the rules 14 and 17",
        text: "module t;\nwire o17, a17;\np17 (o17, a17);\nwire a14;\nbuf (\n1'b0, a14);\nendmodule\nprimitive\np17(o, a);\noutput a;\noutput o;\ntable\n0 : 0;\nendtable\nendprimitive\n",
        top: Some("t"), broken: Some(BrokenLine { rule: 14, line: 6 }),
    },
    NetlistRow {
        shows: "the rules 14 and 18",
        text: "module t;\nm18 u18();\nwire a14;\nbuf (\n1'b0, a14);\nendmodule\nmodule m18(r);\noutput [1:0] r;\nwire [2:0]\nr;\nendmodule\n",
        top: Some("t"), broken: Some(BrokenLine { rule: 14, line: 5 }),
    },
    NetlistRow {
        shows: "the rules 14 and 19",
        text: "module t;\nwire a14;\nbuf (\n1'b0, a14);\nendmodule\n`timescale 1ps / 1ns\n",
        top: Some("t"), broken: Some(BrokenLine { rule: 14, line: 4 }),
    },
    NetlistRow {
        shows: "the rules 16 and 17",
        text: "module t;\nwire o17, a17;\np17 (o17, a17);\nwire o16, a16;\np16 (o16, a16);\nendmodule\nprimitive\np17(o, a);\noutput a;\noutput o;\ntable\n0 : 0;\nendtable\nendprimitive\nprimitive p16(o, a);\noutput o;\ninput a;\ntable\n- : 0;\nendtable\nendprimitive\n",
        top: Some("t"), broken: Some(BrokenLine { rule: 16, line: 19 }),
    },
    NetlistRow {
        shows: "the rules 16 and 18",
        text: "module t;\nm18 u18();\nwire o16, a16;\np16 (o16, a16);\nendmodule\nmodule m18(r);\noutput [1:0] r;\nwire [2:0]\nr;\nendmodule\nprimitive p16(o, a);\noutput o;\ninput a;\ntable\n- : 0;\nendtable\nendprimitive\n",
        top: Some("t"), broken: Some(BrokenLine { rule: 16, line: 15 }),
    },
    NetlistRow {
        shows: "the rules 16 and 19",
        text: "module t;\nwire o16, a16;\np16 (o16, a16);\nendmodule\n`timescale 1ps / 1ns\nprimitive p16(o, a);\noutput o;\ninput a;\ntable\n- : 0;\nendtable\nendprimitive\n",
        top: Some("t"), broken: Some(BrokenLine { rule: 16, line: 10 }),
    },
    NetlistRow {
        shows: "the rules 16 and 20",
        text: "module t;\nm20 u20();\nwire o16, a16;\np16 (o16, a16);\nendmodule\nprimitive p16(o, a);\noutput o;\ninput a;\ntable\n- : 0;\nendtable\nendprimitive\n`default_nettype none\nmodule m20;\nbuf (\nn20, n21);\nendmodule\n",
        top: Some("t"), broken: Some(BrokenLine { rule: 16, line: 10 }),
    },
    NetlistRow {
        shows: "the rules 17 and 18",
        text: "module t;\nm18 u18();\nwire o17, a17;\np17 (o17, a17);\nendmodule\nmodule m18(r);\noutput [1:0] r;\nwire [2:0]\nr;\nendmodule\nprimitive\np17(o, a);\noutput a;\noutput o;\ntable\n0 : 0;\nendtable\nendprimitive\n",
        top: Some("t"), broken: Some(BrokenLine { rule: 17, line: 12 }),
    },
    NetlistRow {
        shows: "the rules 17 and 19",
        text: "module t;\nwire o17, a17;\np17 (o17, a17);\nendmodule\n`timescale 1ps / 1ns\nprimitive\np17(o, a);\noutput a;\noutput o;\ntable\n0 : 0;\nendtable\nendprimitive\n",
        top: Some("t"), broken: Some(BrokenLine { rule: 17, line: 7 }),
    },
    NetlistRow {
        shows: "the rules 17 and 20",
        text: "module t;\nm20 u20();\nwire o17, a17;\np17 (o17, a17);\nendmodule\nprimitive\np17(o, a);\noutput a;\noutput o;\ntable\n0 : 0;\nendtable\nendprimitive\n`default_nettype none\nmodule m20;\nbuf (\nn20, n21);\nendmodule\n",
        top: Some("t"), broken: Some(BrokenLine { rule: 17, line: 7 }),
    },
    NetlistRow {
        shows: "the rules 18 and 19",
        text: "module t;\nm18 u18();\nendmodule\n`timescale 1ps / 1ns\nmodule m18(r);\noutput [1:0] r;\nwire [2:0]\nr;\nendmodule\n",
        top: Some("t"), broken: Some(BrokenLine { rule: 18, line: 8 }),
    },
    NetlistRow {
        shows: "the rules 18 and 20",
        text: "module t;\nm20 u20();\nm18 u18();\nendmodule\nmodule m18(r);\noutput [1:0] r;\nwire [2:0]\nr;\nendmodule\n`default_nettype none\nmodule m20;\nbuf (\nn20, n21);\nendmodule\n",
        top: Some("t"), broken: Some(BrokenLine { rule: 18, line: 8 }),
    },
    NetlistRow {
        shows: "the rules 19 and 20",
        text: "module t;\nm20 u20();\nendmodule\n`timescale 1ps / 1ns\n`default_nettype none\nmodule m20;\nbuf (\nn20, n21);\nendmodule\n",
        top: Some("t"), broken: Some(BrokenLine { rule: 19, line: 4 }),
    },
];

/// The rows.
pub(crate) fn rows() -> &'static [NetlistRow] {
    &ROWS
}
