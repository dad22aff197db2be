//! Netlists that break one rule or two.

use crate::rows::{BrokenLine, NetlistRow};

#[rattlefmt::skip]
static ROWS: [NetlistRow; 50] = [
    NetlistRow {
        shows: "the rule 1 alone",
        text: "module t;\nendmodule\nmodule d1;\nendmodule\nmodule\nd1;\nendmodule\n",
        top: Some("t"), broken: Some(BrokenLine { rule: 1, line: 6 }),
    },
    NetlistRow {
        shows: "the rule 3 alone",
        text: "module t;\nnix u3(a3);\nendmodule\n",
        top: Some("t"), broken: Some(BrokenLine { rule: 3, line: 2 }),
    },
    NetlistRow {
        shows: "the rule 4 alone",
        text: "module t;\nt u4();\nendmodule\n",
        top: Some("t"), broken: Some(BrokenLine { rule: 4, line: 2 }),
    },
    NetlistRow {
        shows: "the rule 5 alone",
        text: "module t;\ninput\nz5;\nendmodule\n",
        top: Some("t"), broken: Some(BrokenLine { rule: 5, line: 3 }),
    },
    NetlistRow {
        shows: "the rule 6 alone",
        text: "module t;\nwire w6;\nwire\nw6;\nendmodule\n",
        top: Some("t"), broken: Some(BrokenLine { rule: 6, line: 4 }),
    },
    NetlistRow {
        shows: "the rule 7 alone",
        text: "module t;\nwire y7;\nassign y7 =\nu7;\nendmodule\n",
        top: Some("t"), broken: Some(BrokenLine { rule: 7, line: 4 }),
    },
    NetlistRow {
        shows: "the rule 8 alone",
        text: "module t;\nwire s8;\nwire [0:0] o8;\nbuf (o8[0],\ns8[1]);\nendmodule\n",
        top: Some("t"), broken: Some(BrokenLine { rule: 8, line: 5 }),
    },
    NetlistRow {
        shows: "the rule 9 alone",
        text: "module t;\nwire [1:0] v9;\nwire o9;\nbuf (o9,\nv9);\nendmodule\n",
        top: Some("t"), broken: Some(BrokenLine { rule: 9, line: 5 }),
    },
    NetlistRow {
        shows: "the rule 10 alone",
        text: "module t;\nwire o10;\nand\n(o10);\nendmodule\n",
        top: Some("t"), broken: Some(BrokenLine { rule: 10, line: 4 }),
    },
    NetlistRow {
        shows: "the rule 11 alone",
        text: "module t;\nwire o11, a11;\nnand\n#(1, 2, 3) (o11, a11);\nendmodule\n",
        top: Some("t"), broken: Some(BrokenLine { rule: 11, line: 4 }),
    },
    NetlistRow {
        shows: "the rule 12 alone",
        text: "module t;\nwire o12, a12;\nbuf\n(strong0, weak0) (o12, a12);\nendmodule\n",
        top: Some("t"), broken: Some(BrokenLine { rule: 12, line: 4 }),
    },
    NetlistRow {
        shows: "the rule 13 alone",
        text: "module t;\nwire a13;\nm13 u13(\n.zz(a13));\nendmodule\nmodule m13(p);\ninput p;\nendmodule\n",
        top: Some("t"), broken: Some(BrokenLine { rule: 13, line: 4 }),
    },
    NetlistRow {
        shows: "the rule 14 alone",
        text: "module t;\nwire a14;\nbuf (\n1'b0, a14);\nendmodule\n",
        top: Some("t"), broken: Some(BrokenLine { rule: 14, line: 4 }),
    },
    NetlistRow {
        shows: "the rule 16 alone",
        text: "module t;\nwire o16, a16;\np16 (o16, a16);\nendmodule\nprimitive p16(o, a);\noutput o;\ninput a;\ntable\n- : 0;\nendtable\nendprimitive\n",
        top: Some("t"), broken: Some(BrokenLine { rule: 16, line: 9 }),
    },
    NetlistRow {
        shows: "the rule 17 alone",
        text: "module t;\nwire o17, a17;\np17 (o17, a17);\nendmodule\nprimitive\np17(o, a);\noutput a;\noutput o;\ntable\n0 : 0;\nendtable\nendprimitive\n",
        top: Some("t"), broken: Some(BrokenLine { rule: 17, line: 6 }),
    },
    NetlistRow {
        shows: "the rule 18 alone",
        text: "module t;\nm18 u18();\nendmodule\nmodule m18(r);\noutput [1:0] r;\nwire [2:0]\nr;\nendmodule\n",
        top: Some("t"), broken: Some(BrokenLine { rule: 18, line: 7 }),
    },
    NetlistRow {
        shows: "the rule 19 alone",
        text: "module t;\nendmodule\n`timescale 1ps / 1ns\n",
        top: Some("t"), broken: Some(BrokenLine { rule: 19, line: 3 }),
    },
    NetlistRow {
        shows: "the rule 20 alone",
        text: "module t;\nm20 u20();\nendmodule\n`default_nettype none\nmodule m20;\nbuf (\nn20, n21);\nendmodule\n",
        top: Some("t"), broken: Some(BrokenLine { rule: 20, line: 7 }),
    },
    NetlistRow {
        shows: "the rules 1 and 3",
        text: "module t;\nnix u3(a3);\nendmodule\nmodule d1;\nendmodule\nmodule\nd1;\nendmodule\n",
        top: Some("t"), broken: Some(BrokenLine { rule: 1, line: 7 }),
    },
    NetlistRow {
        shows: "the rules 1 and 4",
        text: "module t;\nt u4();\nendmodule\nmodule d1;\nendmodule\nmodule\nd1;\nendmodule\n",
        top: Some("t"), broken: Some(BrokenLine { rule: 1, line: 7 }),
    },
    NetlistRow {
        shows: "the rules 1 and 5",
        text: "module t;\ninput\nz5;\nendmodule\nmodule d1;\nendmodule\nmodule\nd1;\nendmodule\n",
        top: Some("t"), broken: Some(BrokenLine { rule: 1, line: 8 }),
    },
    NetlistRow {
        shows: "the rules 1 and 6",
        text: "module t;\nwire w6;\nwire\nw6;\nendmodule\nmodule d1;\nendmodule\nmodule\nd1;\nendmodule\n",
        top: Some("t"), broken: Some(BrokenLine { rule: 1, line: 9 }),
    },
    NetlistRow {
        shows: "the rules 1 and 7",
        text: "module t;\nwire y7;\nassign y7 =\nu7;\nendmodule\nmodule d1;\nendmodule\nmodule\nd1;\nendmodule\n",
        top: Some("t"), broken: Some(BrokenLine { rule: 1, line: 9 }),
    },
    NetlistRow {
        shows: "the rules 1 and 12",
        text: "module t;\nwire o12, a12;\nbuf\n(strong0, weak0) (o12, a12);\nendmodule\nmodule d1;\nendmodule\nmodule\nd1;\nendmodule\n",
        top: Some("t"), broken: Some(BrokenLine { rule: 1, line: 9 }),
    },
    NetlistRow {
        shows: "the rules 1 and 18",
        text: "module t;\nm18 u18();\nendmodule\nmodule m18(r);\noutput [1:0] r;\nwire [2:0]\nr;\nendmodule\nmodule d1;\nendmodule\nmodule\nd1;\nendmodule\n",
        top: Some("t"), broken: Some(BrokenLine { rule: 1, line: 12 }),
    },
    NetlistRow {
        shows: "the rules 3 and 4",
        text: "module t;\nt u4();\nnix u3(a3);\nendmodule\n",
        top: Some("t"), broken: Some(BrokenLine { rule: 3, line: 3 }),
    },
    NetlistRow {
        shows: "the rules 3 and 5",
        text: "module t;\ninput\nz5;\nnix u3(a3);\nendmodule\n",
        top: Some("t"), broken: Some(BrokenLine { rule: 3, line: 4 }),
    },
    NetlistRow {
        shows: "the rules 3 and 6",
        text: "module t;\nwire w6;\nwire\nw6;\nnix u3(a3);\nendmodule\n",
        top: Some("t"), broken: Some(BrokenLine { rule: 3, line: 5 }),
    },
    NetlistRow {
        shows: "the rules 3 and 7",
        text: "module t;\nwire y7;\nassign y7 =\nu7;\nnix u3(a3);\nendmodule\n",
        top: Some("t"), broken: Some(BrokenLine { rule: 3, line: 5 }),
    },
    NetlistRow {
        shows: "the rules 3 and 11",
        text: "module t;\nwire o11, a11;\nnand\n#(1, 2, 3) (o11, a11);\nnix u3(a3);\nendmodule\n",
        top: Some("t"), broken: Some(BrokenLine { rule: 3, line: 5 }),
    },
    NetlistRow {
        shows: "the rules 3 and 17",
        text: "module t;\nwire o17, a17;\np17 (o17, a17);\nnix u3(a3);\nendmodule\nprimitive\np17(o, a);\noutput a;\noutput o;\ntable\n0 : 0;\nendtable\nendprimitive\n",
        top: Some("t"), broken: Some(BrokenLine { rule: 3, line: 4 }),
    },
    NetlistRow {
        shows: "the rules 4 and 5",
        text: "module t;\ninput\nz5;\nt u4();\nendmodule\n",
        top: Some("t"), broken: Some(BrokenLine { rule: 4, line: 4 }),
    },
    NetlistRow {
        shows: "the rules 4 and 6",
        text: "module t;\nwire w6;\nwire\nw6;\nt u4();\nendmodule\n",
        top: Some("t"), broken: Some(BrokenLine { rule: 4, line: 5 }),
    },
    NetlistRow {
        shows: "the rules 4 and 7",
        text: "module t;\nwire y7;\nassign y7 =\nu7;\nt u4();\nendmodule\n",
        top: Some("t"), broken: Some(BrokenLine { rule: 4, line: 5 }),
    },
    NetlistRow {
        shows: "the rules 4 and 8",
        text: "module t;\nwire s8;\nwire [0:0] o8;\nbuf (o8[0],\ns8[1]);\nt u4();\nendmodule\n",
        top: Some("t"), broken: Some(BrokenLine { rule: 4, line: 6 }),
    },
    NetlistRow {
        shows: "the rules 4 and 10",
        text: "module t;\nwire o10;\nand\n(o10);\nt u4();\nendmodule\n",
        top: Some("t"), broken: Some(BrokenLine { rule: 4, line: 5 }),
    },
    NetlistRow {
        shows: "the rules 4 and 16",
        text: "module t;\nwire o16, a16;\np16 (o16, a16);\nt u4();\nendmodule\nprimitive p16(o, a);\noutput o;\ninput a;\ntable\n- : 0;\nendtable\nendprimitive\n",
        top: Some("t"), broken: Some(BrokenLine { rule: 4, line: 4 }),
    },
    NetlistRow {
        shows: "the rules 5 and 6",
        text: "module t;\nwire w6;\nwire\nw6;\ninput\nz5;\nendmodule\n",
        top: Some("t"), broken: Some(BrokenLine { rule: 5, line: 6 }),
    },
    NetlistRow {
        shows: "the rules 5 and 7",
        text: "module t;\nwire y7;\nassign y7 =\nu7;\ninput\nz5;\nendmodule\n",
        top: Some("t"), broken: Some(BrokenLine { rule: 5, line: 6 }),
    },
    NetlistRow {
        shows: "the rules 5 and 8",
        text: "module t;\nwire s8;\nwire [0:0] o8;\nbuf (o8[0],\ns8[1]);\ninput\nz5;\nendmodule\n",
        top: Some("t"), broken: Some(BrokenLine { rule: 5, line: 7 }),
    },
    NetlistRow {
        shows: "the rules 5 and 9",
        text: "module t;\nwire [1:0] v9;\nwire o9;\nbuf (o9,\nv9);\ninput\nz5;\nendmodule\n",
        top: Some("t"), broken: Some(BrokenLine { rule: 5, line: 7 }),
    },
    NetlistRow {
        shows: "the rules 5 and 14",
        text: "module t;\nwire a14;\nbuf (\n1'b0, a14);\ninput\nz5;\nendmodule\n",
        top: Some("t"), broken: Some(BrokenLine { rule: 5, line: 6 }),
    },
    NetlistRow {
        shows: "the rules 5 and 20",
        text: "module t;\nm20 u20();\ninput\nz5;\nendmodule\n`default_nettype none\nmodule m20;\nbuf (\nn20, n21);\nendmodule\n",
        top: Some("t"), broken: Some(BrokenLine { rule: 5, line: 4 }),
    },
    NetlistRow {
        shows: "the rules 6 and 7",
        text: "module t;\nwire y7;\nassign y7 =\nu7;\nwire w6;\nwire\nw6;\nendmodule\n",
        top: Some("t"), broken: Some(BrokenLine { rule: 6, line: 7 }),
    },
    NetlistRow {
        shows: "the rules 6 and 8",
        text: "module t;\nwire s8;\nwire [0:0] o8;\nbuf (o8[0],\ns8[1]);\nwire w6;\nwire\nw6;\nendmodule\n",
        top: Some("t"), broken: Some(BrokenLine { rule: 6, line: 8 }),
    },
    NetlistRow {
        shows: "the rules 6 and 9",
        text: "module t;\nwire [1:0] v9;\nwire o9;\nbuf (o9,\nv9);\nwire w6;\nwire\nw6;\nendmodule\n",
        top: Some("t"), broken: Some(BrokenLine { rule: 6, line: 8 }),
    },
    NetlistRow {
        shows: "the rules 6 and 10",
        text: "module t;\nwire o10;\nand\n(o10);\nwire w6;\nwire\nw6;\nendmodule\n",
        top: Some("t"), broken: Some(BrokenLine { rule: 6, line: 7 }),
    },
    NetlistRow {
        shows: "the rules 6 and 13",
        text: "module t;\nwire a13;\nm13 u13(\n.zz(a13));\nwire w6;\nwire\nw6;\nendmodule\nmodule m13(p);\ninput p;\nendmodule\n",
        top: Some("t"), broken: Some(BrokenLine { rule: 6, line: 7 }),
    },
    NetlistRow {
        shows: "the rules 6 and 19",
        text: "module t;\nwire w6;\nwire\nw6;\nendmodule\n`timescale 1ps / 1ns\n",
        top: Some("t"), broken: Some(BrokenLine { rule: 6, line: 4 }),
    },
    NetlistRow {
        shows: "the rules 7 and 8",
        text: "module t;\nwire s8;\nwire [0:0] o8;\nbuf (o8[0],\ns8[1]);\nwire y7;\nassign y7 =\nu7;\nendmodule\n",
        top: Some("t"), broken: Some(BrokenLine { rule: 7, line: 8 }),
    },
];

/// The rows.
pub(crate) fn rows() -> &'static [NetlistRow] {
    &ROWS
}
