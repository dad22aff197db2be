//! Literals at outputs, and places.

use super::PlaceRow;

#[rattlefmt::skip]
static ROWS: [PlaceRow; 29] = [
    PlaceRow {
        shows: "literals at inputs",
        text: "module m;\nand (a, 1'b0, 1'b1);\nbuf (a, b, 1'b1);\nnot (a, 1);\nbufif0 (a, 1'b0, 1'b1);\nnmos (a, 1'b1, 1'b0);\ncmos (a, 1'b0, 1'b1, 1'b0);\nendmodule\n",
        widths: 0, counts: 0, delays: 0, drives: 0, literals: 0,
    },
    PlaceRow {
        shows: "at the output of an and",
        text: "module m;\nand (a, b),\n(1'b0, b);\nendmodule\n",
        widths: 0, counts: 0, delays: 0, drives: 0, literals: 3,
    },
    PlaceRow {
        shows: "at the output of a xnor, in a concatenation",
        text: "module m;\nxnor (a, b), (\n{\n1'b0}, b);\nendmodule\n",
        widths: 0, counts: 0, delays: 0, drives: 0, literals: 3,
    },
    PlaceRow {
        shows: "deep in a concatenation",
        text: "module m;\nxnor (a, b), (\n{{{\n1'b0}}}, b);\nendmodule\n",
        widths: 0, counts: 0, delays: 0, drives: 0, literals: 3,
    },
    PlaceRow {
        shows: "at the first output of a buf",
        text: "module m;\nbuf (a, b, c), (\n1'b0, a, b);\nendmodule\n",
        widths: 0, counts: 0, delays: 0, drives: 0, literals: 3,
    },
    PlaceRow {
        shows: "at the last output of a buf",
        text: "module m;\nbuf (a, b, c), (a,\n1'b0, b);\nendmodule\n",
        widths: 0, counts: 0, delays: 0, drives: 0, literals: 3,
    },
    PlaceRow {
        shows: "at the middle output of a not",
        text: "module m;\nnot (a, b, c,\n1, d, e, f);\nendmodule\n",
        widths: 0, counts: 0, delays: 0, drives: 0, literals: 3,
    },
    PlaceRow {
        shows: "at the input of a not",
        text: "module m;\nnot (a, b, c,\n1);\nendmodule\n",
        widths: 0, counts: 0, delays: 0, drives: 0, literals: 0,
    },
    PlaceRow {
        shows: "a buf with one terminal has no output",
        text: "module m;\nbuf\n(1'b1);\nendmodule\n",
        widths: 0, counts: 3, delays: 0, drives: 0, literals: 0,
    },
    PlaceRow {
        shows: "a gate with one terminal has an output",
        text: "module m;\nand\n(\n1'b1);\nendmodule\n",
        widths: 0, counts: 3, delays: 0, drives: 0, literals: 4,
    },
    PlaceRow {
        shows: "at the output of a bufif",
        text: "module m;\nnotif1 (a, 1, 1), (\n1, a, b);\nendmodule\n",
        widths: 0, counts: 0, delays: 0, drives: 0, literals: 3,
    },
    PlaceRow {
        shows: "at the output of a switch",
        text: "module m;\nrpmos (a, 1, 1), (\n1, a, b);\nendmodule\n",
        widths: 0, counts: 0, delays: 0, drives: 0, literals: 3,
    },
    PlaceRow {
        shows: "at the output of a cmos",
        text: "module m;\nrcmos (a, 1, 1, 1), (\n1, a, b, c);\nendmodule\n",
        widths: 0, counts: 0, delays: 0, drives: 0, literals: 3,
    },
    PlaceRow {
        shows: "at the first end of a tran",
        text: "module m;\ntran (a, b), (\n1'b1, a);\nendmodule\n",
        widths: 0, counts: 0, delays: 0, drives: 0, literals: 3,
    },
    PlaceRow {
        shows: "at the second end of a tran",
        text: "module m;\nrtran (a, b), (a,\n1'b1);\nendmodule\n",
        widths: 0, counts: 0, delays: 0, drives: 0, literals: 3,
    },
    PlaceRow {
        shows: "a third terminal of a tran is no end",
        text: "module m;\ntran (a, b,\n1'b1);\nendmodule\n",
        widths: 0, counts: 2, delays: 0, drives: 0, literals: 0,
    },
    PlaceRow {
        shows: "at the first end of a tranif",
        text: "module m;\ntranif0 (a, b, c), (\n1'b1, a, b);\nendmodule\n",
        widths: 0, counts: 0, delays: 0, drives: 0, literals: 3,
    },
    PlaceRow {
        shows: "at the second end of a tranif",
        text: "module m;\ntranif1 (a, b, c), (a,\n{1'b1}, b);\nendmodule\n",
        widths: 0, counts: 0, delays: 0, drives: 0, literals: 3,
    },
    PlaceRow {
        shows: "at the control of a tranif",
        text: "module m;\nrtranif0 (a, b, 1'b1);\nrtranif1 (a, b, {1'b0});\nendmodule\n",
        widths: 0, counts: 0, delays: 0, drives: 0, literals: 0,
    },
    PlaceRow {
        shows: "a tranif without a control has two ends",
        text: "module m;\ntranif1\n(a,\n1'b0);\nendmodule\n",
        widths: 0, counts: 3, delays: 0, drives: 0, literals: 4,
    },
    PlaceRow {
        shows: "at a pull gate",
        text: "module m;\npullup (a);\npulldown (\n1'b0);\nendmodule\n",
        widths: 0, counts: 0, delays: 0, drives: 0, literals: 4,
    },
    PlaceRow {
        shows: "a second terminal of a pull gate is no output",
        text: "module m;\npullup\n(a, 1'b1);\nendmodule\n",
        widths: 0, counts: 3, delays: 0, drives: 0, literals: 0,
    },
    PlaceRow {
        shows: "superfluous terminals of a bufif are no outputs",
        text: "module m;\nbufif0\n(a, b, c, 1'b1);\nendmodule\n",
        widths: 0, counts: 3, delays: 0, drives: 0, literals: 0,
    },
    PlaceRow {
        shows: "a selected bit is no literal",
        text: "module m;\nwire [1:0] v;\nand (v[1], v[0]);\nendmodule\n",
        widths: 0, counts: 0, delays: 0, drives: 0, literals: 0,
    },
    PlaceRow {
        shows: "a number without size in a concatenation at an output",
        text: "module m;\nand (\n{b,\n1}, a);\nendmodule\n",
        widths: 4, counts: 0, delays: 0, drives: 0, literals: 3,
    },
    PlaceRow {
        shows: "the first of several",
        text: "module m;\nand (a, b);\nor (\n1, b);\ntran (1, 1);\nendmodule\n",
        widths: 0, counts: 0, delays: 0, drives: 0, literals: 4,
    },
    PlaceRow {
        shows: "a name before the parenthesis",
        text: "module m;\nand\ng\n(a);\nendmodule\n",
        widths: 0, counts: 3, delays: 0, drives: 0, literals: 0,
    },
    PlaceRow {
        shows: "no name: the parenthesis",
        text: "module m;\nand g(a, b),\n(a);\nendmodule\n",
        widths: 0, counts: 3, delays: 0, drives: 0, literals: 0,
    },
    PlaceRow {
        shows: "all five at once",
        text: "module m;\nand\n(highz0, highz1)\n#(1, 2, 3)\ng\n(\n1'b0), h(a, 2'b00);\nendmodule\n",
        widths: 7, counts: 5, delays: 4, drives: 3, literals: 7,
    },
];

pub(crate) fn rows() -> &'static [PlaceRow] {
    &ROWS
}
