//! Gates with as many terminals and delays as they may have.

use crate::rows::NetlistRow;

#[rattlefmt::skip]
static ROWS: [NetlistRow; 26] = [
    NetlistRow {
        shows: "and with the least and the most terminals and delays",
        text: "module t;\nand (x0, x1);\nand g (y0, y1, y2, y3, y4, y5, y6);\nand #(1, 2) (z0, z1);\nand #5 (v0, v1);\nendmodule\n",
        top: None, broken: None,
    },
    NetlistRow {
        shows: "nand with the least and the most terminals and delays",
        text: "module t;\nnand (x0, x1);\nnand g (y0, y1, y2, y3, y4, y5, y6);\nnand #(1, 2) (z0, z1);\nnand #5 (v0, v1);\nendmodule\n",
        top: None, broken: None,
    },
    NetlistRow {
        shows: "or with the least and the most terminals and delays",
        text: "module t;\nor (x0, x1);\nor g (y0, y1, y2, y3, y4, y5, y6);\nor #(1, 2) (z0, z1);\nor #5 (v0, v1);\nendmodule\n",
        top: None, broken: None,
    },
    NetlistRow {
        shows: "nor with the least and the most terminals and delays",
        text: "module t;\nnor (x0, x1);\nnor g (y0, y1, y2, y3, y4, y5, y6);\nnor #(1, 2) (z0, z1);\nnor #5 (v0, v1);\nendmodule\n",
        top: None, broken: None,
    },
    NetlistRow {
        shows: "xor with the least and the most terminals and delays",
        text: "module t;\nxor (x0, x1);\nxor g (y0, y1, y2, y3, y4, y5, y6);\nxor #(1, 2) (z0, z1);\nxor #5 (v0, v1);\nendmodule\n",
        top: None, broken: None,
    },
    NetlistRow {
        shows: "xnor with the least and the most terminals and delays",
        text: "module t;\nxnor (x0, x1);\nxnor g (y0, y1, y2, y3, y4, y5, y6);\nxnor #(1, 2) (z0, z1);\nxnor #5 (v0, v1);\nendmodule\n",
        top: None, broken: None,
    },
    NetlistRow {
        shows: "buf with the least and the most terminals and delays",
        text: "module t;\nbuf (x0, x1);\nbuf g (y0, y1, y2, y3, y4, y5, y6);\nbuf #(1, 2) (z0, z1);\nbuf #5 (v0, v1);\nendmodule\n",
        top: None, broken: None,
    },
    NetlistRow {
        shows: "not with the least and the most terminals and delays",
        text: "module t;\nnot (x0, x1);\nnot g (y0, y1, y2, y3, y4, y5, y6);\nnot #(1, 2) (z0, z1);\nnot #5 (v0, v1);\nendmodule\n",
        top: None, broken: None,
    },
    NetlistRow {
        shows: "bufif0 with the least and the most terminals and delays",
        text: "module t;\nbufif0 (x0, x1, x2);\nbufif0 g (y0, y1, y2);\nbufif0 #(1, 2, 3) (z0, z1, z2);\nbufif0 #5 (v0, v1, v2);\nendmodule\n",
        top: None, broken: None,
    },
    NetlistRow {
        shows: "bufif1 with the least and the most terminals and delays",
        text: "module t;\nbufif1 (x0, x1, x2);\nbufif1 g (y0, y1, y2);\nbufif1 #(1, 2, 3) (z0, z1, z2);\nbufif1 #5 (v0, v1, v2);\nendmodule\n",
        top: None, broken: None,
    },
    NetlistRow {
        shows: "notif0 with the least and the most terminals and delays",
        text: "module t;\nnotif0 (x0, x1, x2);\nnotif0 g (y0, y1, y2);\nnotif0 #(1, 2, 3) (z0, z1, z2);\nnotif0 #5 (v0, v1, v2);\nendmodule\n",
        top: None, broken: None,
    },
    NetlistRow {
        shows: "notif1 with the least and the most terminals and delays",
        text: "module t;\nnotif1 (x0, x1, x2);\nnotif1 g (y0, y1, y2);\nnotif1 #(1, 2, 3) (z0, z1, z2);\nnotif1 #5 (v0, v1, v2);\nendmodule\n",
        top: None, broken: None,
    },
    NetlistRow {
        shows: "nmos with the least and the most terminals and delays",
        text: "module t;\nnmos (x0, x1, x2);\nnmos g (y0, y1, y2);\nnmos #(1, 2, 3) (z0, z1, z2);\nnmos #5 (v0, v1, v2);\nendmodule\n",
        top: None, broken: None,
    },
    NetlistRow {
        shows: "pmos with the least and the most terminals and delays",
        text: "module t;\npmos (x0, x1, x2);\npmos g (y0, y1, y2);\npmos #(1, 2, 3) (z0, z1, z2);\npmos #5 (v0, v1, v2);\nendmodule\n",
        top: None, broken: None,
    },
    NetlistRow {
        shows: "rnmos with the least and the most terminals and delays",
        text: "module t;\nrnmos (x0, x1, x2);\nrnmos g (y0, y1, y2);\nrnmos #(1, 2, 3) (z0, z1, z2);\nrnmos #5 (v0, v1, v2);\nendmodule\n",
        top: None, broken: None,
    },
    NetlistRow {
        shows: "rpmos with the least and the most terminals and delays",
        text: "module t;\nrpmos (x0, x1, x2);\nrpmos g (y0, y1, y2);\nrpmos #(1, 2, 3) (z0, z1, z2);\nrpmos #5 (v0, v1, v2);\nendmodule\n",
        top: None, broken: None,
    },
    NetlistRow {
        shows: "cmos with the least and the most terminals and delays",
        text: "module t;\ncmos (x0, x1, x2, x3);\ncmos g (y0, y1, y2, y3);\ncmos #(1, 2, 3) (z0, z1, z2, z3);\ncmos #5 (v0, v1, v2, v3);\nendmodule\n",
        top: None, broken: None,
    },
    NetlistRow {
        shows: "rcmos with the least and the most terminals and delays",
        text: "module t;\nrcmos (x0, x1, x2, x3);\nrcmos g (y0, y1, y2, y3);\nrcmos #(1, 2, 3) (z0, z1, z2, z3);\nrcmos #5 (v0, v1, v2, v3);\nendmodule\n",
        top: None, broken: None,
    },
    NetlistRow {
        shows: "tran with the least and the most terminals and delays",
        text: "module t;\ntran (x0, x1);\ntran g (y0, y1);\nendmodule\n",
        top: None, broken: None,
    },
    NetlistRow {
        shows: "rtran with the least and the most terminals and delays",
        text: "module t;\nrtran (x0, x1);\nrtran g (y0, y1);\nendmodule\n",
        top: None, broken: None,
    },
    NetlistRow {
        shows: "tranif0 with the least and the most terminals and delays",
        text: "module t;\ntranif0 (x0, x1, x2);\ntranif0 g (y0, y1, y2);\ntranif0 #(1, 2) (z0, z1, z2);\ntranif0 #5 (v0, v1, v2);\nendmodule\n",
        top: None, broken: None,
    },
    NetlistRow {
        shows: "tranif1 with the least and the most terminals and delays",
        text: "module t;\ntranif1 (x0, x1, x2);\ntranif1 g (y0, y1, y2);\ntranif1 #(1, 2) (z0, z1, z2);\ntranif1 #5 (v0, v1, v2);\nendmodule\n",
        top: None, broken: None,
    },
    NetlistRow {
        shows: "rtranif0 with the least and the most terminals and delays",
        text: "module t;\nrtranif0 (x0, x1, x2);\nrtranif0 g (y0, y1, y2);\nrtranif0 #(1, 2) (z0, z1, z2);\nrtranif0 #5 (v0, v1, v2);\nendmodule\n",
        top: None, broken: None,
    },
    NetlistRow {
        shows: "rtranif1 with the least and the most terminals and delays",
        text: "module t;\nrtranif1 (x0, x1, x2);\nrtranif1 g (y0, y1, y2);\nrtranif1 #(1, 2) (z0, z1, z2);\nrtranif1 #5 (v0, v1, v2);\nendmodule\n",
        top: None, broken: None,
    },
    NetlistRow {
        shows: "pullup with the least and the most terminals and delays",
        text: "module t;\npullup (x0);\npullup g (y0);\nendmodule\n",
        top: None, broken: None,
    },
    NetlistRow {
        shows: "pulldown with the least and the most terminals and delays",
        text: "module t;\npulldown (x0);\npulldown g (y0);\nendmodule\n",
        top: None, broken: None,
    },
];

/// The rows.
pub(crate) fn rows() -> &'static [NetlistRow] {
    &ROWS
}
