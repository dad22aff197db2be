//! Drives and delays.

use super::PlaceRow;

#[rattlefmt::skip]
static ROWS: [PlaceRow; 26] = [
    PlaceRow {
        shows: "drives that are right",
        text: "module m;\nwire (strong0, pull1) a = b;\nassign (weak1, supply0) c = b, d = b;\nand (highz0, strong1) (a, b);\nnot (strong1, highz0) (a, b);\nbufif0 (strong0, highz1) (a, b, c);\nendmodule\n",
        widths: 0, counts: 0, delays: 0, drives: 0, literals: 0,
    },
    PlaceRow {
        shows: "a gate with both highz",
        text: "module m;\nand (strong0, strong1) (a, b);\nand\n(highz0, highz1) (a, b);\nendmodule\n",
        widths: 0, counts: 0, delays: 0, drives: 4, literals: 0,
    },
    PlaceRow {
        shows: "a gate with both highz, 1 first",
        text: "module m;\nxnor\n(highz1, highz0) #2 (a, b);\nendmodule\n",
        widths: 0, counts: 0, delays: 0, drives: 3, literals: 0,
    },
    PlaceRow {
        shows: "a gate with two levels of 0",
        text: "module m;\nbufif1\n(strong0, weak0) (a, b, c);\nendmodule\n",
        widths: 0, counts: 0, delays: 0, drives: 3, literals: 0,
    },
    PlaceRow {
        shows: "a gate with two levels of 1",
        text: "module m;\nbuf\n(strong1, strong1) (a, b);\nendmodule\n",
        widths: 0, counts: 0, delays: 0, drives: 3, literals: 0,
    },
    PlaceRow {
        shows: "an assignment with both highz",
        text: "module m;\nassign\n(highz0, highz1) a = b;\nendmodule\n",
        widths: 0, counts: 0, delays: 0, drives: 3, literals: 0,
    },
    PlaceRow {
        shows: "an assignment with two levels of 1",
        text: "module m;\nassign\n(pull1, weak1) #(1,2,3) a = b;\nendmodule\n",
        widths: 0, counts: 0, delays: 0, drives: 3, literals: 0,
    },
    PlaceRow {
        shows: "a declaration with two levels of 0",
        text: "module m;\nwire\n(strong0, strong0) a = b;\nendmodule\n",
        widths: 0, counts: 0, delays: 0, drives: 3, literals: 0,
    },
    PlaceRow {
        shows: "a declaration without values",
        text: "module m;\nwire (strong0, strong1) a = b;\nwire\n(strong0, strong1) c;\nendmodule\n",
        widths: 0, counts: 0, delays: 0, drives: 4, literals: 0,
    },
    PlaceRow {
        shows: "a declaration without values, with both highz",
        text: "module m;\ntri\n(highz0, highz1) c, d;\nendmodule\n",
        widths: 0, counts: 0, delays: 0, drives: 3, literals: 0,
    },
    PlaceRow {
        shows: "a charge is no drive",
        text: "module m;\ntrireg (small) a;\nwire b;\nendmodule\n",
        widths: 0, counts: 0, delays: 0, drives: 0, literals: 0,
    },
    PlaceRow {
        shows: "a pullup with one level",
        text: "module m;\npullup (strong1) (a);\npullup (a), (b);\nendmodule\n",
        widths: 0, counts: 0, delays: 0, drives: 0, literals: 0,
    },
    PlaceRow {
        shows: "a pullup with the level of 0",
        text: "module m;\npullup\n(strong0) (a);\nendmodule\n",
        widths: 0, counts: 0, delays: 0, drives: 3, literals: 0,
    },
    PlaceRow {
        shows: "a pulldown with the level of 1",
        text: "module m;\npulldown (weak0) (a);\npulldown\n(weak1) (b);\nendmodule\n",
        widths: 0, counts: 0, delays: 0, drives: 4, literals: 0,
    },
    PlaceRow {
        shows: "a pullup with highz1",
        text: "module m;\npullup (highz0, strong1) (a);\npullup (strong1, highz0) (a);\npullup\n(highz1, strong0) (a);\nendmodule\n",
        widths: 0, counts: 0, delays: 0, drives: 5, literals: 0,
    },
    PlaceRow {
        shows: "a pulldown with highz0",
        text: "module m;\npulldown (strong0, highz1) (a);\npulldown\n(strong1, highz0) (a);\nendmodule\n",
        widths: 0, counts: 0, delays: 0, drives: 4, literals: 0,
    },
    PlaceRow {
        shows: "the first of several",
        text: "module m;\nand (a, b);\nnot\n(highz0, highz1) (a, b);\nassign (highz0, highz1) c = b;\nendmodule\n",
        widths: 0, counts: 0, delays: 0, drives: 4, literals: 0,
    },
    PlaceRow {
        shows: "three delays of nets and assignments",
        text: "module m;\nwire #(1, 2, 3) a;\nwire #(1, 2, 3) b = a;\ntrireg #(0, 0, 50) c;\nassign #(1:2:3, 4:5:6, 7:8:9) d = a;\nendmodule\n",
        widths: 0, counts: 0, delays: 0, drives: 0, literals: 0,
    },
    PlaceRow {
        shows: "four delays of a net",
        text: "module m;\nwire\n#(1, 2, 3, 4) a;\nendmodule\n",
        widths: 0, counts: 0, delays: 3, drives: 0, literals: 0,
    },
    PlaceRow {
        shows: "four delays of a net that is assigned",
        text: "module m;\nwand\n#(1, 2, 3, 4) a = b;\nendmodule\n",
        widths: 0, counts: 0, delays: 3, drives: 0, literals: 0,
    },
    PlaceRow {
        shows: "four delays of a trireg",
        text: "module m;\ntrireg\n#(1, 2, 3, 4) a;\nendmodule\n",
        widths: 0, counts: 0, delays: 3, drives: 0, literals: 0,
    },
    PlaceRow {
        shows: "four delays of an assignment",
        text: "module m;\nassign\n#(1, 2, 3, 4) a = b;\nendmodule\n",
        widths: 0, counts: 0, delays: 3, drives: 0, literals: 0,
    },
    PlaceRow {
        shows: "a value of three amounts is one delay",
        text: "module m;\nand #(1:2:3, 4:5:6) (a, b);\nendmodule\n",
        widths: 0, counts: 0, delays: 0, drives: 0, literals: 0,
    },
    PlaceRow {
        shows: "an amount without parentheses is one delay",
        text: "module m;\nand #7 (a, b);\ntranif0 #7 (a, b, c);\nwire #7 d;\nendmodule\n",
        widths: 0, counts: 0, delays: 0, drives: 0, literals: 0,
    },
    PlaceRow {
        shows: "the first of several delays",
        text: "module m;\nnand\n#(1, 2, 3) (a, b);\nwire #(1, 2, 3, 4) c;\nendmodule\n",
        widths: 0, counts: 0, delays: 3, drives: 0, literals: 0,
    },
    PlaceRow {
        shows: "an instance isn't judged",
        text: "module m;\nsub #(1, 2, 3, 4) u1(a, 1);\nsub (highz0, highz1) (a);\nendmodule\n",
        widths: 0, counts: 0, delays: 0, drives: 0, literals: 0,
    },
];

pub(crate) fn rows() -> &'static [PlaceRow] {
    &ROWS
}
