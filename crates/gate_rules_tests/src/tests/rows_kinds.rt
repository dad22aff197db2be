//! Gates of each kind with the least and the greatest numbers of terminals and delays.

use super::PlaceRow;

#[rattlefmt::skip]
static ROWS: [PlaceRow; 42] = [
    PlaceRow {
        shows: "and with one terminal less, and with one delay more",
        text: "module m;\nand #(1, 2) (a, b);\nand #1 (a, b);\nand g(a, b, c, d, e), h(a, b, c);\nand #(1, 2, 3) (a, b);\nand (a);\nendmodule\n",
        widths: 0, counts: 6, delays: 5, drives: 0, literals: 0,
    },
    PlaceRow {
        shows: "nand with one terminal less, and with one delay more",
        text: "module m;\nnand #(1, 2) (a, b);\nnand #1 (a, b);\nnand g(a, b, c, d, e), h(a, b, c);\nnand #(1, 2, 3) (a, b);\nnand (a);\nendmodule\n",
        widths: 0, counts: 6, delays: 5, drives: 0, literals: 0,
    },
    PlaceRow {
        shows: "or with one terminal less, and with one delay more",
        text: "module m;\nor #(1, 2) (a, b);\nor #1 (a, b);\nor g(a, b, c, d, e), h(a, b, c);\nor #(1, 2, 3) (a, b);\nor (a);\nendmodule\n",
        widths: 0, counts: 6, delays: 5, drives: 0, literals: 0,
    },
    PlaceRow {
        shows: "nor with one terminal less, and with one delay more",
        text: "module m;\nnor #(1, 2) (a, b);\nnor #1 (a, b);\nnor g(a, b, c, d, e), h(a, b, c);\nnor #(1, 2, 3) (a, b);\nnor (a);\nendmodule\n",
        widths: 0, counts: 6, delays: 5, drives: 0, literals: 0,
    },
    PlaceRow {
        shows: "xor with one terminal less, and with one delay more",
        text: "module m;\nxor #(1, 2) (a, b);\nxor #1 (a, b);\nxor g(a, b, c, d, e), h(a, b, c);\nxor #(1, 2, 3) (a, b);\nxor (a);\nendmodule\n",
        widths: 0, counts: 6, delays: 5, drives: 0, literals: 0,
    },
    PlaceRow {
        shows: "xnor with one terminal less, and with one delay more",
        text: "module m;\nxnor #(1, 2) (a, b);\nxnor #1 (a, b);\nxnor g(a, b, c, d, e), h(a, b, c);\nxnor #(1, 2, 3) (a, b);\nxnor (a);\nendmodule\n",
        widths: 0, counts: 6, delays: 5, drives: 0, literals: 0,
    },
    PlaceRow {
        shows: "buf with one terminal less, and with one delay more",
        text: "module m;\nbuf #(1, 2) (a, b);\nbuf #1 (a, b);\nbuf g(a, b, c, d, e), h(a, b, c);\nbuf #(1, 2, 3) (a, b);\nbuf (a);\nendmodule\n",
        widths: 0, counts: 6, delays: 5, drives: 0, literals: 0,
    },
    PlaceRow {
        shows: "not with one terminal less, and with one delay more",
        text: "module m;\nnot #(1, 2) (a, b);\nnot #1 (a, b);\nnot g(a, b, c, d, e), h(a, b, c);\nnot #(1, 2, 3) (a, b);\nnot (a);\nendmodule\n",
        widths: 0, counts: 6, delays: 5, drives: 0, literals: 0,
    },
    PlaceRow {
        shows: "bufif0 with one terminal less, and with one delay more",
        text: "module m;\nbufif0 #(1, 2, 3) (a, b, c);\nbufif0 #1 (a, b, c);\nbufif0 #(1, 2, 3, 4) (a, b, c);\nbufif0 (a, b);\nendmodule\n",
        widths: 0, counts: 5, delays: 4, drives: 0, literals: 0,
    },
    PlaceRow {
        shows: "bufif0 with one terminal more, at its name",
        text: "module m;\nbufif0 (a, b, c);\nbufif0\nu (a, b, c, d);\nendmodule\n",
        widths: 0, counts: 4, delays: 0, drives: 0, literals: 0,
    },
    PlaceRow {
        shows: "bufif1 with one terminal less, and with one delay more",
        text: "module m;\nbufif1 #(1, 2, 3) (a, b, c);\nbufif1 #1 (a, b, c);\nbufif1 #(1, 2, 3, 4) (a, b, c);\nbufif1 (a, b);\nendmodule\n",
        widths: 0, counts: 5, delays: 4, drives: 0, literals: 0,
    },
    PlaceRow {
        shows: "bufif1 with one terminal more, at its name",
        text: "module m;\nbufif1 (a, b, c);\nbufif1\nu (a, b, c, d);\nendmodule\n",
        widths: 0, counts: 4, delays: 0, drives: 0, literals: 0,
    },
    PlaceRow {
        shows: "notif0 with one terminal less, and with one delay more",
        text: "module m;\nnotif0 #(1, 2, 3) (a, b, c);\nnotif0 #1 (a, b, c);\nnotif0 #(1, 2, 3, 4) (a, b, c);\nnotif0 (a, b);\nendmodule\n",
        widths: 0, counts: 5, delays: 4, drives: 0, literals: 0,
    },
    PlaceRow {
        shows: "notif0 with one terminal more, at its name",
        text: "module m;\nnotif0 (a, b, c);\nnotif0\nu (a, b, c, d);\nendmodule\n",
        widths: 0, counts: 4, delays: 0, drives: 0, literals: 0,
    },
    PlaceRow {
        shows: "notif1 with one terminal less, and with one delay more",
        text: "module m;\nnotif1 #(1, 2, 3) (a, b, c);\nnotif1 #1 (a, b, c);\nnotif1 #(1, 2, 3, 4) (a, b, c);\nnotif1 (a, b);\nendmodule\n",
        widths: 0, counts: 5, delays: 4, drives: 0, literals: 0,
    },
    PlaceRow {
        shows: "notif1 with one terminal more, at its name",
        text: "module m;\nnotif1 (a, b, c);\nnotif1\nu (a, b, c, d);\nendmodule\n",
        widths: 0, counts: 4, delays: 0, drives: 0, literals: 0,
    },
    PlaceRow {
        shows: "nmos with one terminal less, and with one delay more",
        text: "module m;\nnmos #(1, 2, 3) (a, b, c);\nnmos #1 (a, b, c);\nnmos #(1, 2, 3, 4) (a, b, c);\nnmos (a, b);\nendmodule\n",
        widths: 0, counts: 5, delays: 4, drives: 0, literals: 0,
    },
    PlaceRow {
        shows: "nmos with one terminal more, at its name",
        text: "module m;\nnmos (a, b, c);\nnmos\nu (a, b, c, d);\nendmodule\n",
        widths: 0, counts: 4, delays: 0, drives: 0, literals: 0,
    },
    PlaceRow {
        shows: "pmos with one terminal less, and with one delay more",
        text: "module m;\npmos #(1, 2, 3) (a, b, c);\npmos #1 (a, b, c);\npmos #(1, 2, 3, 4) (a, b, c);\npmos (a, b);\nendmodule\n",
        widths: 0, counts: 5, delays: 4, drives: 0, literals: 0,
    },
    PlaceRow {
        shows: "pmos with one terminal more, at its name",
        text: "module m;\npmos (a, b, c);\npmos\nu (a, b, c, d);\nendmodule\n",
        widths: 0, counts: 4, delays: 0, drives: 0, literals: 0,
    },
    PlaceRow {
        shows: "rnmos with one terminal less, and with one delay more",
        text: "module m;\nrnmos #(1, 2, 3) (a, b, c);\nrnmos #1 (a, b, c);\nrnmos #(1, 2, 3, 4) (a, b, c);\nrnmos (a, b);\nendmodule\n",
        widths: 0, counts: 5, delays: 4, drives: 0, literals: 0,
    },
    PlaceRow {
        shows: "rnmos with one terminal more, at its name",
        text: "module m;\nrnmos (a, b, c);\nrnmos\nu (a, b, c, d);\nendmodule\n",
        widths: 0, counts: 4, delays: 0, drives: 0, literals: 0,
    },
    PlaceRow {
        shows: "rpmos with one terminal less, and with one delay more",
        text: "module m;\nrpmos #(1, 2, 3) (a, b, c);\nrpmos #1 (a, b, c);\nrpmos #(1, 2, 3, 4) (a, b, c);\nrpmos (a, b);\nendmodule\n",
        widths: 0, counts: 5, delays: 4, drives: 0, literals: 0,
    },
    PlaceRow {
        shows: "rpmos with one terminal more, at its name",
        text: "module m;\nrpmos (a, b, c);\nrpmos\nu (a, b, c, d);\nendmodule\n",
        widths: 0, counts: 4, delays: 0, drives: 0, literals: 0,
    },
    PlaceRow {
        shows: "cmos with one terminal less, and with one delay more",
        text: "module m;\ncmos #(1, 2, 3) (a, b, c, d);\ncmos #1 (a, b, c, d);\ncmos #(1, 2, 3, 4) (a, b, c, d);\ncmos (a, b, c);\nendmodule\n",
        widths: 0, counts: 5, delays: 4, drives: 0, literals: 0,
    },
    PlaceRow {
        shows: "cmos with one terminal more, at its name",
        text: "module m;\ncmos (a, b, c, d);\ncmos\nu (a, b, c, d, e);\nendmodule\n",
        widths: 0, counts: 4, delays: 0, drives: 0, literals: 0,
    },
    PlaceRow {
        shows: "rcmos with one terminal less, and with one delay more",
        text: "module m;\nrcmos #(1, 2, 3) (a, b, c, d);\nrcmos #1 (a, b, c, d);\nrcmos #(1, 2, 3, 4) (a, b, c, d);\nrcmos (a, b, c);\nendmodule\n",
        widths: 0, counts: 5, delays: 4, drives: 0, literals: 0,
    },
    PlaceRow {
        shows: "rcmos with one terminal more, at its name",
        text: "module m;\nrcmos (a, b, c, d);\nrcmos\nu (a, b, c, d, e);\nendmodule\n",
        widths: 0, counts: 4, delays: 0, drives: 0, literals: 0,
    },
    PlaceRow {
        shows: "tran with one terminal less",
        text: "module m;\ntran (a, b);\ntran (a);\nendmodule\n",
        widths: 0, counts: 3, delays: 0, drives: 0, literals: 0,
    },
    PlaceRow {
        shows: "tran with one terminal more, at its name",
        text: "module m;\ntran (a, b);\ntran\nu (a, b, c);\nendmodule\n",
        widths: 0, counts: 4, delays: 0, drives: 0, literals: 0,
    },
    PlaceRow {
        shows: "rtran with one terminal less",
        text: "module m;\nrtran (a, b);\nrtran (a);\nendmodule\n",
        widths: 0, counts: 3, delays: 0, drives: 0, literals: 0,
    },
    PlaceRow {
        shows: "rtran with one terminal more, at its name",
        text: "module m;\nrtran (a, b);\nrtran\nu (a, b, c);\nendmodule\n",
        widths: 0, counts: 4, delays: 0, drives: 0, literals: 0,
    },
    PlaceRow {
        shows: "tranif0 with one terminal less, and with one delay more",
        text: "module m;\ntranif0 #(1, 2) (a, b, c);\ntranif0 #1 (a, b, c);\ntranif0 #(1, 2, 3) (a, b, c);\ntranif0 (a, b);\nendmodule\n",
        widths: 0, counts: 5, delays: 4, drives: 0, literals: 0,
    },
    PlaceRow {
        shows: "tranif0 with one terminal more, at its name",
        text: "module m;\ntranif0 (a, b, c);\ntranif0\nu (a, b, c, d);\nendmodule\n",
        widths: 0, counts: 4, delays: 0, drives: 0, literals: 0,
    },
    PlaceRow {
        shows: "tranif1 with one terminal less, and with one delay more",
        text: "module m;\ntranif1 #(1, 2) (a, b, c);\ntranif1 #1 (a, b, c);\ntranif1 #(1, 2, 3) (a, b, c);\ntranif1 (a, b);\nendmodule\n",
        widths: 0, counts: 5, delays: 4, drives: 0, literals: 0,
    },
    PlaceRow {
        shows: "tranif1 with one terminal more, at its name",
        text: "module m;\ntranif1 (a, b, c);\ntranif1\nu (a, b, c, d);\nendmodule\n",
        widths: 0, counts: 4, delays: 0, drives: 0, literals: 0,
    },
    PlaceRow {
        shows: "rtranif0 with one terminal less, and with one delay more",
        text: "module m;\nrtranif0 #(1, 2) (a, b, c);\nrtranif0 #1 (a, b, c);\nrtranif0 #(1, 2, 3) (a, b, c);\nrtranif0 (a, b);\nendmodule\n",
        widths: 0, counts: 5, delays: 4, drives: 0, literals: 0,
    },
    PlaceRow {
        shows: "rtranif0 with one terminal more, at its name",
        text: "module m;\nrtranif0 (a, b, c);\nrtranif0\nu (a, b, c, d);\nendmodule\n",
        widths: 0, counts: 4, delays: 0, drives: 0, literals: 0,
    },
    PlaceRow {
        shows: "rtranif1 with one terminal less, and with one delay more",
        text: "module m;\nrtranif1 #(1, 2) (a, b, c);\nrtranif1 #1 (a, b, c);\nrtranif1 #(1, 2, 3) (a, b, c);\nrtranif1 (a, b);\nendmodule\n",
        widths: 0, counts: 5, delays: 4, drives: 0, literals: 0,
    },
    PlaceRow {
        shows: "rtranif1 with one terminal more, at its name",
        text: "module m;\nrtranif1 (a, b, c);\nrtranif1\nu (a, b, c, d);\nendmodule\n",
        widths: 0, counts: 4, delays: 0, drives: 0, literals: 0,
    },
    PlaceRow {
        shows: "pullup with one terminal more, at its name",
        text: "module m;\npullup (a);\npullup\nu (a, b);\nendmodule\n",
        widths: 0, counts: 4, delays: 0, drives: 0, literals: 0,
    },
    PlaceRow {
        shows: "pulldown with one terminal more, at its name",
        text: "module m;\npulldown (a);\npulldown\nu (a, b);\nendmodule\n",
        widths: 0, counts: 4, delays: 0, drives: 0, literals: 0,
    },
];

pub(crate) fn rows() -> &'static [PlaceRow] {
    &ROWS
}
