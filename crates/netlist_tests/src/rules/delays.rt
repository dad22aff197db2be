//! Numbers of delays.

use crate::rows::{BrokenLine, NetlistRow};

#[rattlefmt::skip]
static ROWS: [NetlistRow; 34] = [
    NetlistRow {
        shows: "and with a delay too many",
        text: "module t;\nand #(1, 2) (x0, x1);\nand\n#(1, 2, 3) (y0, y1);\nendmodule\n",
        top: None, broken: Some(BrokenLine { rule: 11, line: 4 }),
    },
    NetlistRow {
        shows: "nand with a delay too many",
        text: "module t;\nnand #(1, 2) (x0, x1);\nnand\n#(1, 2, 3) (y0, y1);\nendmodule\n",
        top: None, broken: Some(BrokenLine { rule: 11, line: 4 }),
    },
    NetlistRow {
        shows: "or with a delay too many",
        text: "module t;\nor #(1, 2) (x0, x1);\nor\n#(1, 2, 3) (y0, y1);\nendmodule\n",
        top: None, broken: Some(BrokenLine { rule: 11, line: 4 }),
    },
    NetlistRow {
        shows: "nor with a delay too many",
        text: "module t;\nnor #(1, 2) (x0, x1);\nnor\n#(1, 2, 3) (y0, y1);\nendmodule\n",
        top: None, broken: Some(BrokenLine { rule: 11, line: 4 }),
    },
    NetlistRow {
        shows: "xor with a delay too many",
        text: "module t;\nxor #(1, 2) (x0, x1);\nxor\n#(1, 2, 3) (y0, y1);\nendmodule\n",
        top: None, broken: Some(BrokenLine { rule: 11, line: 4 }),
    },
    NetlistRow {
        shows: "xnor with a delay too many",
        text: "module t;\nxnor #(1, 2) (x0, x1);\nxnor\n#(1, 2, 3) (y0, y1);\nendmodule\n",
        top: None, broken: Some(BrokenLine { rule: 11, line: 4 }),
    },
    NetlistRow {
        shows: "buf with a delay too many",
        text: "module t;\nbuf #(1, 2) (x0, x1);\nbuf\n#(1, 2, 3) (y0, y1);\nendmodule\n",
        top: None, broken: Some(BrokenLine { rule: 11, line: 4 }),
    },
    NetlistRow {
        shows: "not with a delay too many",
        text: "module t;\nnot #(1, 2) (x0, x1);\nnot\n#(1, 2, 3) (y0, y1);\nendmodule\n",
        top: None, broken: Some(BrokenLine { rule: 11, line: 4 }),
    },
    NetlistRow {
        shows: "bufif0 with a delay too many",
        text: "module t;\nbufif0 #(1, 2, 3) (x0, x1, x2);\nbufif0\n#(1, 2, 3, 4) (y0, y1, y2);\nendmodule\n",
        top: None, broken: Some(BrokenLine { rule: 11, line: 4 }),
    },
    NetlistRow {
        shows: "bufif1 with a delay too many",
        text: "module t;\nbufif1 #(1, 2, 3) (x0, x1, x2);\nbufif1\n#(1, 2, 3, 4) (y0, y1, y2);\nendmodule\n",
        top: None, broken: Some(BrokenLine { rule: 11, line: 4 }),
    },
    NetlistRow {
        shows: "notif0 with a delay too many",
        text: "module t;\nnotif0 #(1, 2, 3) (x0, x1, x2);\nnotif0\n#(1, 2, 3, 4) (y0, y1, y2);\nendmodule\n",
        top: None, broken: Some(BrokenLine { rule: 11, line: 4 }),
    },
    NetlistRow {
        shows: "notif1 with a delay too many",
        text: "module t;\nnotif1 #(1, 2, 3) (x0, x1, x2);\nnotif1\n#(1, 2, 3, 4) (y0, y1, y2);\nendmodule\n",
        top: None, broken: Some(BrokenLine { rule: 11, line: 4 }),
    },
    NetlistRow {
        shows: "nmos with a delay too many",
        text: "module t;\nnmos #(1, 2, 3) (x0, x1, x2);\nnmos\n#(1, 2, 3, 4) (y0, y1, y2);\nendmodule\n",
        top: None, broken: Some(BrokenLine { rule: 11, line: 4 }),
    },
    NetlistRow {
        shows: "pmos with a delay too many",
        text: "module t;\npmos #(1, 2, 3) (x0, x1, x2);\npmos\n#(1, 2, 3, 4) (y0, y1, y2);\nendmodule\n",
        top: None, broken: Some(BrokenLine { rule: 11, line: 4 }),
    },
    NetlistRow {
        shows: "rnmos with a delay too many",
        text: "module t;\nrnmos #(1, 2, 3) (x0, x1, x2);\nrnmos\n#(1, 2, 3, 4) (y0, y1, y2);\nendmodule\n",
        top: None, broken: Some(BrokenLine { rule: 11, line: 4 }),
    },
    NetlistRow {
        shows: "rpmos with a delay too many",
        text: "module t;\nrpmos #(1, 2, 3) (x0, x1, x2);\nrpmos\n#(1, 2, 3, 4) (y0, y1, y2);\nendmodule\n",
        top: None, broken: Some(BrokenLine { rule: 11, line: 4 }),
    },
    NetlistRow {
        shows: "cmos with a delay too many",
        text: "module t;\ncmos #(1, 2, 3) (x0, x1, x2, x3);\ncmos\n#(1, 2, 3, 4) (y0, y1, y2, y3);\nendmodule\n",
        top: None, broken: Some(BrokenLine { rule: 11, line: 4 }),
    },
    NetlistRow {
        shows: "rcmos with a delay too many",
        text: "module t;\nrcmos #(1, 2, 3) (x0, x1, x2, x3);\nrcmos\n#(1, 2, 3, 4) (y0, y1, y2, y3);\nendmodule\n",
        top: None, broken: Some(BrokenLine { rule: 11, line: 4 }),
    },
    NetlistRow {
        shows: "tranif0 with a delay too many",
        text: "module t;\ntranif0 #(1, 2) (x0, x1, x2);\ntranif0\n#(1, 2, 3) (y0, y1, y2);\nendmodule\n",
        top: None, broken: Some(BrokenLine { rule: 11, line: 4 }),
    },
    NetlistRow {
        shows: "tranif1 with a delay too many",
        text: "module t;\ntranif1 #(1, 2) (x0, x1, x2);\ntranif1\n#(1, 2, 3) (y0, y1, y2);\nendmodule\n",
        top: None, broken: Some(BrokenLine { rule: 11, line: 4 }),
    },
    NetlistRow {
        shows: "rtranif0 with a delay too many",
        text: "module t;\nrtranif0 #(1, 2) (x0, x1, x2);\nrtranif0\n#(1, 2, 3) (y0, y1, y2);\nendmodule\n",
        top: None, broken: Some(BrokenLine { rule: 11, line: 4 }),
    },
    NetlistRow {
        shows: "rtranif1 with a delay too many",
        text: "module t;\nrtranif1 #(1, 2) (x0, x1, x2);\nrtranif1\n#(1, 2, 3) (y0, y1, y2);\nendmodule\n",
        top: None, broken: Some(BrokenLine { rule: 11, line: 4 }),
    },
    NetlistRow {
        shows: "three delays of an assignment",
        text: "module t;\nassign #(1, 2, 3) a = b;\nwire b;\nendmodule\n",
        top: None, broken: None,
    },
    NetlistRow {
        shows: "four delays of an assignment",
        text: "module t;\nwire b;\nassign\n#(1, 2, 3, 4) a = b;\nendmodule\n",
        top: None, broken: Some(BrokenLine { rule: 11, line: 4 }),
    },
    NetlistRow {
        shows: "three delays of a net",
        text: "module t;\nwire #(1, 2, 3) a;\ntrireg #(1, 2, 3) c;\nendmodule\n",
        top: None, broken: None,
    },
    NetlistRow {
        shows: "four delays of a net",
        text: "module t;\nwire #(1, 2, 3, 4) a;\nendmodule\n",
        top: None, broken: Some(BrokenLine { rule: 11, line: 2 }),
    },
    NetlistRow {
        shows: "four delays of a net with a value",
        text: "module t;\nwire b;\nwire\n#(1, 2, 3, 4) a = b;\nendmodule\n",
        top: None, broken: Some(BrokenLine { rule: 11, line: 4 }),
    },
    NetlistRow {
        shows: "four delays of a trireg",
        text: "module t;\ntrireg\n\n#(1, 2, 3, 4) a;\nendmodule\n",
        top: None, broken: Some(BrokenLine { rule: 11, line: 4 }),
    },
    NetlistRow {
        shows: "two delays of a primitive",
        text: "module t;\nu #(1, 2) (o, a, b);\nendmodule\nprimitive u(o, a, b);\noutput o;\ninput a, b;\ntable\n0 ? : 0;\n1 1 : 1;\nendtable\nendprimitive\n",
        top: None, broken: None,
    },
    NetlistRow {
        shows: "three delays of a primitive",
        text: "module t;\nu\n#(1, 2, 3) (o, a, b);\nendmodule\nprimitive u(o, a, b);\noutput o;\ninput a, b;\ntable\n0 ? : 0;\n1 1 : 1;\nendtable\nendprimitive\n",
        top: None, broken: Some(BrokenLine { rule: 11, line: 3 }),
    },
    NetlistRow {
        shows: "a delay of a module",
        text: "module t;\ns\n#1 i(x, y);\nwire [1:0] x;\nendmodule\nmodule s(p, q);\noutput [1:0] p;\ninput q;\nendmodule\n",
        top: None, broken: Some(BrokenLine { rule: 11, line: 3 }),
    },
    NetlistRow {
        shows: "a drive of a module",
        text: "module t;\nwire [1:0] x;\ns\n(strong0, strong1) i(x, y);\nendmodule\nmodule s(p, q);\noutput [1:0] p;\ninput q;\nendmodule\n",
        top: None, broken: Some(BrokenLine { rule: 11, line: 4 }),
    },
    NetlistRow {
        shows: "a drive and a delay of a module",
        text: "module t;\nwire [1:0] x;\ns\n(strong0, strong1)\n#1 i(x, y);\nendmodule\nmodule s(p, q);\noutput [1:0] p;\ninput q;\nendmodule\n",
        top: None, broken: Some(BrokenLine { rule: 11, line: 4 }),
    },
    NetlistRow {
        shows: "a minimum, a typical and a maximum are one delay",
        text: "module t;\nbuf #(1:2:3, 4:5:6) (a, b);\nendmodule\n",
        top: None, broken: None,
    },
];

/// The rows.
pub(crate) fn rows() -> &'static [NetlistRow] {
    &ROWS
}
