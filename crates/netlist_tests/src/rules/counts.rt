//! Gates with a wrong number of terminals.

use crate::rows::{BrokenLine, NetlistRow};

#[rattlefmt::skip]
static ROWS: [NetlistRow; 42] = [
    NetlistRow {
        shows: "and with a terminal too few",
        text: "module t;\nand (x0, x1);\nand\n(y0);\nendmodule\n",
        top: None, broken: Some(BrokenLine { rule: 10, line: 4 }),
    },
    NetlistRow {
        shows: "nand with a terminal too few",
        text: "module t;\nnand (x0, x1);\nnand\n(y0);\nendmodule\n",
        top: None, broken: Some(BrokenLine { rule: 10, line: 4 }),
    },
    NetlistRow {
        shows: "or with a terminal too few",
        text: "module t;\nor (x0, x1);\nor\n(y0);\nendmodule\n",
        top: None, broken: Some(BrokenLine { rule: 10, line: 4 }),
    },
    NetlistRow {
        shows: "nor with a terminal too few",
        text: "module t;\nnor (x0, x1);\nnor\n(y0);\nendmodule\n",
        top: None, broken: Some(BrokenLine { rule: 10, line: 4 }),
    },
    NetlistRow {
        shows: "xor with a terminal too few",
        text: "module t;\nxor (x0, x1);\nxor\n(y0);\nendmodule\n",
        top: None, broken: Some(BrokenLine { rule: 10, line: 4 }),
    },
    NetlistRow {
        shows: "xnor with a terminal too few",
        text: "module t;\nxnor (x0, x1);\nxnor\n(y0);\nendmodule\n",
        top: None, broken: Some(BrokenLine { rule: 10, line: 4 }),
    },
    NetlistRow {
        shows: "buf with a terminal too few",
        text: "module t;\nbuf (x0, x1);\nbuf\n(y0);\nendmodule\n",
        top: None, broken: Some(BrokenLine { rule: 10, line: 4 }),
    },
    NetlistRow {
        shows: "not with a terminal too few",
        text: "module t;\nnot (x0, x1);\nnot\n(y0);\nendmodule\n",
        top: None, broken: Some(BrokenLine { rule: 10, line: 4 }),
    },
    NetlistRow {
        shows: "bufif0 with a terminal too few",
        text: "module t;\nbufif0 (x0, x1, x2);\nbufif0\n(y0, y1);\nendmodule\n",
        top: None, broken: Some(BrokenLine { rule: 10, line: 4 }),
    },
    NetlistRow {
        shows: "bufif0 with a terminal too many",
        text: "module t;\nbufif0 (x0, x1, x2),\ng (y0, y1, y2, y3);\nendmodule\n",
        top: None, broken: Some(BrokenLine { rule: 10, line: 3 }),
    },
    NetlistRow {
        shows: "bufif1 with a terminal too few",
        text: "module t;\nbufif1 (x0, x1, x2);\nbufif1\n(y0, y1);\nendmodule\n",
        top: None, broken: Some(BrokenLine { rule: 10, line: 4 }),
    },
    NetlistRow {
        shows: "bufif1 with a terminal too many",
        text: "module t;\nbufif1 (x0, x1, x2),\ng (y0, y1, y2, y3);\nendmodule\n",
        top: None, broken: Some(BrokenLine { rule: 10, line: 3 }),
    },
    NetlistRow {
        shows: "notif0 with a terminal too few",
        text: "module t;\nnotif0 (x0, x1, x2);\nnotif0\n(y0, y1);\nendmodule\n",
        top: None, broken: Some(BrokenLine { rule: 10, line: 4 }),
    },
    NetlistRow {
        shows: "notif0 with a terminal too many",
        text: "module t;\nnotif0 (x0, x1, x2),\ng (y0, y1, y2, y3);\nendmodule\n",
        top: None, broken: Some(BrokenLine { rule: 10, line: 3 }),
    },
    NetlistRow {
        shows: "notif1 with a terminal too few",
        text: "module t;\nnotif1 (x0, x1, x2);\nnotif1\n(y0, y1);\nendmodule\n",
        top: None, broken: Some(BrokenLine { rule: 10, line: 4 }),
    },
    NetlistRow {
        shows: "notif1 with a terminal too many",
        text: "module t;\nnotif1 (x0, x1, x2),\ng (y0, y1, y2, y3);\nendmodule\n",
        top: None, broken: Some(BrokenLine { rule: 10, line: 3 }),
    },
    NetlistRow {
        shows: "nmos with a terminal too few",
        text: "module t;\nnmos (x0, x1, x2);\nnmos\n(y0, y1);\nendmodule\n",
        top: None, broken: Some(BrokenLine { rule: 10, line: 4 }),
    },
    NetlistRow {
        shows: "nmos with a terminal too many",
        text: "module t;\nnmos (x0, x1, x2),\ng (y0, y1, y2, y3);\nendmodule\n",
        top: None, broken: Some(BrokenLine { rule: 10, line: 3 }),
    },
    NetlistRow {
        shows: "pmos with a terminal too few",
        text: "module t;\npmos (x0, x1, x2);\npmos\n(y0, y1);\nendmodule\n",
        top: None, broken: Some(BrokenLine { rule: 10, line: 4 }),
    },
    NetlistRow {
        shows: "pmos with a terminal too many",
        text: "module t;\npmos (x0, x1, x2),\ng (y0, y1, y2, y3);\nendmodule\n",
        top: None, broken: Some(BrokenLine { rule: 10, line: 3 }),
    },
    NetlistRow {
        shows: "rnmos with a terminal too few",
        text: "module t;\nrnmos (x0, x1, x2);\nrnmos\n(y0, y1);\nendmodule\n",
        top: None, broken: Some(BrokenLine { rule: 10, line: 4 }),
    },
    NetlistRow {
        shows: "rnmos with a terminal too many",
        text: "module t;\nrnmos (x0, x1, x2),\ng (y0, y1, y2, y3);\nendmodule\n",
        top: None, broken: Some(BrokenLine { rule: 10, line: 3 }),
    },
    NetlistRow {
        shows: "rpmos with a terminal too few",
        text: "module t;\nrpmos (x0, x1, x2);\nrpmos\n(y0, y1);\nendmodule\n",
        top: None, broken: Some(BrokenLine { rule: 10, line: 4 }),
    },
    NetlistRow {
        shows: "rpmos with a terminal too many",
        text: "module t;\nrpmos (x0, x1, x2),\ng (y0, y1, y2, y3);\nendmodule\n",
        top: None, broken: Some(BrokenLine { rule: 10, line: 3 }),
    },
    NetlistRow {
        shows: "cmos with a terminal too few",
        text: "module t;\ncmos (x0, x1, x2, x3);\ncmos\n(y0, y1, y2);\nendmodule\n",
        top: None, broken: Some(BrokenLine { rule: 10, line: 4 }),
    },
    NetlistRow {
        shows: "cmos with a terminal too many",
        text: "module t;\ncmos (x0, x1, x2, x3),\ng (y0, y1, y2, y3, y4);\nendmodule\n",
        top: None, broken: Some(BrokenLine { rule: 10, line: 3 }),
    },
    NetlistRow {
        shows: "rcmos with a terminal too few",
        text: "module t;\nrcmos (x0, x1, x2, x3);\nrcmos\n(y0, y1, y2);\nendmodule\n",
        top: None, broken: Some(BrokenLine { rule: 10, line: 4 }),
    },
    NetlistRow {
        shows: "rcmos with a terminal too many",
        text: "module t;\nrcmos (x0, x1, x2, x3),\ng (y0, y1, y2, y3, y4);\nendmodule\n",
        top: None, broken: Some(BrokenLine { rule: 10, line: 3 }),
    },
    NetlistRow {
        shows: "tran with a terminal too few",
        text: "module t;\ntran (x0, x1);\ntran\n(y0);\nendmodule\n",
        top: None, broken: Some(BrokenLine { rule: 10, line: 4 }),
    },
    NetlistRow {
        shows: "tran with a terminal too many",
        text: "module t;\ntran (x0, x1),\ng (y0, y1, y2);\nendmodule\n",
        top: None, broken: Some(BrokenLine { rule: 10, line: 3 }),
    },
    NetlistRow {
        shows: "rtran with a terminal too few",
        text: "module t;\nrtran (x0, x1);\nrtran\n(y0);\nendmodule\n",
        top: None, broken: Some(BrokenLine { rule: 10, line: 4 }),
    },
    NetlistRow {
        shows: "rtran with a terminal too many",
        text: "module t;\nrtran (x0, x1),\ng (y0, y1, y2);\nendmodule\n",
        top: None, broken: Some(BrokenLine { rule: 10, line: 3 }),
    },
    NetlistRow {
        shows: "tranif0 with a terminal too few",
        text: "module t;\ntranif0 (x0, x1, x2);\ntranif0\n(y0, y1);\nendmodule\n",
        top: None, broken: Some(BrokenLine { rule: 10, line: 4 }),
    },
    NetlistRow {
        shows: "tranif0 with a terminal too many",
        text: "module t;\ntranif0 (x0, x1, x2),\ng (y0, y1, y2, y3);\nendmodule\n",
        top: None, broken: Some(BrokenLine { rule: 10, line: 3 }),
    },
    NetlistRow {
        shows: "tranif1 with a terminal too few",
        text: "module t;\ntranif1 (x0, x1, x2);\ntranif1\n(y0, y1);\nendmodule\n",
        top: None, broken: Some(BrokenLine { rule: 10, line: 4 }),
    },
    NetlistRow {
        shows: "tranif1 with a terminal too many",
        text: "module t;\ntranif1 (x0, x1, x2),\ng (y0, y1, y2, y3);\nendmodule\n",
        top: None, broken: Some(BrokenLine { rule: 10, line: 3 }),
    },
    NetlistRow {
        shows: "rtranif0 with a terminal too few",
        text: "module t;\nrtranif0 (x0, x1, x2);\nrtranif0\n(y0, y1);\nendmodule\n",
        top: None, broken: Some(BrokenLine { rule: 10, line: 4 }),
    },
    NetlistRow {
        shows: "rtranif0 with a terminal too many",
        text: "module t;\nrtranif0 (x0, x1, x2),\ng (y0, y1, y2, y3);\nendmodule\n",
        top: None, broken: Some(BrokenLine { rule: 10, line: 3 }),
    },
    NetlistRow {
        shows: "rtranif1 with a terminal too few",
        text: "module t;\nrtranif1 (x0, x1, x2);\nrtranif1\n(y0, y1);\nendmodule\n",
        top: None, broken: Some(BrokenLine { rule: 10, line: 4 }),
    },
    NetlistRow {
        shows: "rtranif1 with a terminal too many",
        text: "module t;\nrtranif1 (x0, x1, x2),\ng (y0, y1, y2, y3);\nendmodule\n",
        top: None, broken: Some(BrokenLine { rule: 10, line: 3 }),
    },
    NetlistRow {
        shows: "pullup with a terminal too many",
        text: "module t;\npullup (x0),\ng (y0, y1);\nendmodule\n",
        top: None, broken: Some(BrokenLine { rule: 10, line: 3 }),
    },
    NetlistRow {
        shows: "pulldown with a terminal too many",
        text: "module t;\npulldown (x0),\ng (y0, y1);\nendmodule\n",
        top: None, broken: Some(BrokenLine { rule: 10, line: 3 }),
    },
];

/// The rows.
pub(crate) fn rows() -> &'static [NetlistRow] {
    &ROWS
}
