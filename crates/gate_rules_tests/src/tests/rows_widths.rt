//! Widths of terminals and values.

use super::PlaceRow;

#[rattlefmt::skip]
static ROWS: [PlaceRow; 35] = [
    PlaceRow {
        shows: "scalars, selects of one bit and a vector of one bit",
        text: "module m;\nwire [7:0] d; wire [0:7] u; wire [3:3] o; wire [1:0] t; wire s;\nand (s, d[7], u[0], o, d[3:3], t[1]);\nbuf (s, x);\nendmodule\n",
        widths: 0, counts: 0, delays: 0, drives: 0, literals: 0,
    },
    PlaceRow {
        shows: "a descending vector",
        text: "module m;\nwire [7:0] d; wire [0:7] u; wire [3:3] o; wire [1:0] t; wire s;\nand (s, s);\nand (s,\nd);\nendmodule\n",
        widths: 5, counts: 0, delays: 0, drives: 0, literals: 0,
    },
    PlaceRow {
        shows: "an ascending vector",
        text: "module m;\nwire [7:0] d; wire [0:7] u; wire [3:3] o; wire [1:0] t; wire s;\nand (s,\nu, d);\nendmodule\n",
        widths: 4, counts: 0, delays: 0, drives: 0, literals: 0,
    },
    PlaceRow {
        shows: "a select of two bits, descending",
        text: "module m;\nwire [7:0] d; wire [0:7] u; wire [3:3] o; wire [1:0] t; wire s;\nand (s,\nd[1:0]);\nendmodule\n",
        widths: 4, counts: 0, delays: 0, drives: 0, literals: 0,
    },
    PlaceRow {
        shows: "a select of two bits, ascending",
        text: "module m;\nwire [7:0] d; wire [0:7] u; wire [3:3] o; wire [1:0] t; wire s;\nand (s,\nu[0:1]);\nendmodule\n",
        widths: 4, counts: 0, delays: 0, drives: 0, literals: 0,
    },
    PlaceRow {
        shows: "a vector of two bits at an output",
        text: "module m;\nwire [7:0] d; wire [0:7] u; wire [3:3] o; wire [1:0] t; wire s;\nand (\nt, s);\nendmodule\n",
        widths: 4, counts: 0, delays: 0, drives: 0, literals: 0,
    },
    PlaceRow {
        shows: "an implicit net is a scalar",
        text: "module m;\nwire [7:0] d; wire [0:7] u; wire [3:3] o; wire [1:0] t; wire s;\nand (s, p, q);\nendmodule\n",
        widths: 0, counts: 0, delays: 0, drives: 0, literals: 0,
    },
    PlaceRow {
        shows: "a number takes the width of its place",
        text: "module m;\nwire [7:0] d; wire [0:7] u; wire [3:3] o; wire [1:0] t; wire s;\nand (s, 5, 'b101, 'hz);\nendmodule\n",
        widths: 0, counts: 0, delays: 0, drives: 0, literals: 0,
    },
    PlaceRow {
        shows: "a literal of one bit",
        text: "module m;\nwire [7:0] d; wire [0:7] u; wire [3:3] o; wire [1:0] t; wire s;\nand (s, 1'b1);\nendmodule\n",
        widths: 0, counts: 0, delays: 0, drives: 0, literals: 0,
    },
    PlaceRow {
        shows: "a literal of two bits",
        text: "module m;\nwire [7:0] d; wire [0:7] u; wire [3:3] o; wire [1:0] t; wire s;\nand (s, 1'b1,\n2'b01);\nendmodule\n",
        widths: 4, counts: 0, delays: 0, drives: 0, literals: 0,
    },
    PlaceRow {
        shows: "a concatenation of one bit",
        text: "module m;\nwire [7:0] d; wire [0:7] u; wire [3:3] o; wire [1:0] t; wire s;\nand (s, {s}, {{d[0]}}, {1'b0});\nendmodule\n",
        widths: 0, counts: 0, delays: 0, drives: 0, literals: 0,
    },
    PlaceRow {
        shows: "a concatenation of two bits",
        text: "module m;\nwire [7:0] d; wire [0:7] u; wire [3:3] o; wire [1:0] t; wire s;\nand (s,\n{s, o});\nendmodule\n",
        widths: 4, counts: 0, delays: 0, drives: 0, literals: 0,
    },
    PlaceRow {
        shows: "a concatenation of two bits inside another",
        text: "module m;\nwire [7:0] d; wire [0:7] u; wire [3:3] o; wire [1:0] t; wire s;\nand (s,\n{\n{s, o}});\nendmodule\n",
        widths: 4, counts: 0, delays: 0, drives: 0, literals: 0,
    },
    PlaceRow {
        shows: "a concatenation of no size stands at its literal",
        text: "module m;\nwire [7:0] d; wire [0:7] u; wire [3:3] o; wire [1:0] t; wire s;\nand (s,\n{\ns,\n3});\nendmodule\n",
        widths: 6, counts: 0, delays: 0, drives: 0, literals: 0,
    },
    PlaceRow {
        shows: "the literal alone, also where the width is wrong besides",
        text: "module m;\nwire [7:0] d; wire [0:7] u; wire [3:3] o; wire [1:0] t; wire s;\nand (s,\n{d,\n{s,\n'b1}});\nendmodule\n",
        widths: 6, counts: 0, delays: 0, drives: 0, literals: 0,
    },
    PlaceRow {
        shows: "the first of two literals",
        text: "module m;\nwire [7:0] d; wire [0:7] u; wire [3:3] o; wire [1:0] t; wire s;\nand (s,\n{\ns, 'o7,\n3});\nendmodule\n",
        widths: 5, counts: 0, delays: 0, drives: 0, literals: 0,
    },
    PlaceRow {
        shows: "a literal extended by x in a concatenation",
        text: "module m;\nwire [7:0] d; wire [0:7] u; wire [3:3] o; wire [1:0] t; wire s;\nand (s,\n{\n'bx});\nendmodule\n",
        widths: 5, counts: 0, delays: 0, drives: 0, literals: 0,
    },
    PlaceRow {
        shows: "a literal extended by z in a concatenation",
        text: "module m;\nwire [7:0] d; wire [0:7] u; wire [3:3] o; wire [1:0] t; wire s;\nand (s,\n{\n'hz});\nendmodule\n",
        widths: 5, counts: 0, delays: 0, drives: 0, literals: 0,
    },
    PlaceRow {
        shows: "a signed literal without size in a concatenation",
        text: "module m;\nwire [7:0] d; wire [0:7] u; wire [3:3] o; wire [1:0] t; wire s;\nand (s,\n{\n'sb1});\nendmodule\n",
        widths: 5, counts: 0, delays: 0, drives: 0, literals: 0,
    },
    PlaceRow {
        shows: "a number in a concatenation of one bit",
        text: "module m;\nwire [7:0] d; wire [0:7] u; wire [3:3] o; wire [1:0] t; wire s;\nand (s, {s,\n0});\nendmodule\n",
        widths: 4, counts: 0, delays: 0, drives: 0, literals: 0,
    },
    PlaceRow {
        shows: "a literal without size four deep",
        text: "module m;\nwire [7:0] d; wire [0:7] u; wire [3:3] o; wire [1:0] t; wire s;\nand (s, {{{{\n1}}}});\nendmodule\n",
        widths: 4, counts: 0, delays: 0, drives: 0, literals: 0,
    },
    PlaceRow {
        shows: "superfluous terminals have one bit too",
        text: "module m;\nwire [7:0] d; wire [0:7] u; wire [3:3] o; wire [1:0] t; wire s;\nbufif0 e(s, s, s,\nd);\nendmodule\n",
        widths: 4, counts: 3, delays: 0, drives: 0, literals: 0,
    },
    PlaceRow {
        shows: "superfluous terminals of one bit",
        text: "module m;\nwire [7:0] d; wire [0:7] u; wire [3:3] o; wire [1:0] t; wire s;\nbufif0 e(s, s, s, s);\nendmodule\n",
        widths: 0, counts: 3, delays: 0, drives: 0, literals: 0,
    },
    PlaceRow {
        shows: "the right side of an assignment",
        text: "module m;\nwire [7:0] d; wire [0:7] u; wire [3:3] o; wire [1:0] t; wire s;\nassign d = {s,\n7};\nendmodule\n",
        widths: 4, counts: 0, delays: 0, drives: 0, literals: 0,
    },
    PlaceRow {
        shows: "the right side of an assignment, deep",
        text: "module m;\nwire [7:0] d; wire [0:7] u; wire [3:3] o; wire [1:0] t; wire s;\nassign s = 1, d = {u, {s,\n'b0}};\nendmodule\n",
        widths: 4, counts: 0, delays: 0, drives: 0, literals: 0,
    },
    PlaceRow {
        shows: "an assignment has no width to keep",
        text: "module m;\nwire [7:0] d; wire [0:7] u; wire [3:3] o; wire [1:0] t; wire s;\nassign d = s, s = d, u = 20'h5, t = 9, d = {u, d}, s = {2'b11};\nendmodule\n",
        widths: 0, counts: 0, delays: 0, drives: 0, literals: 0,
    },
    PlaceRow {
        shows: "the value of a declaration",
        text: "module m;\nwire [7:0] d; wire [0:7] u; wire [3:3] o; wire [1:0] t; wire s;\nwire [7:0] v = s, w = {s,\n7};\nendmodule\n",
        widths: 4, counts: 0, delays: 0, drives: 0, literals: 0,
    },
    PlaceRow {
        shows: "a declaration has no width to keep",
        text: "module m;\nwire [7:0] d; wire [0:7] u; wire [3:3] o; wire [1:0] t; wire s;\nwire [7:0] v = s, w = 9'h1, y = 7, z = {d, d};\nendmodule\n",
        widths: 0, counts: 0, delays: 0, drives: 0, literals: 0,
    },
    PlaceRow {
        shows: "the second gate of an item",
        text: "module m;\nwire [7:0] d; wire [0:7] u; wire [3:3] o; wire [1:0] t; wire s;\nand (s, s), (s, s),\n(s, d);\nendmodule\n",
        widths: 4, counts: 0, delays: 0, drives: 0, literals: 0,
    },
    PlaceRow {
        shows: "the first of several items",
        text: "module m;\nwire [7:0] d; wire [0:7] u; wire [3:3] o; wire [1:0] t; wire s;\nassign s = {\n1};\nand (s, d);\nwire v = {2};\nendmodule\n",
        widths: 4, counts: 0, delays: 0, drives: 0, literals: 0,
    },
    PlaceRow {
        shows: "a number is no concatenation",
        text: "module m;\nwire [7:0] d; wire [0:7] u; wire [3:3] o; wire [1:0] t; wire s;\nand (s, 9), (s, 8'h1);\nendmodule\n",
        widths: 3, counts: 0, delays: 0, drives: 0, literals: 0,
    },
    PlaceRow {
        shows: "no gates",
        text: "module m;\nwire [7:0] d; wire [0:7] u; wire [3:3] o; wire [1:0] t; wire s;\nendmodule\n",
        widths: 0, counts: 0, delays: 0, drives: 0, literals: 0,
    },
    PlaceRow {
        shows: "a pull gate with a vector",
        text: "module m;\nwire [7:0] d; wire [0:7] u; wire [3:3] o; wire [1:0] t; wire s;\npullup (s),\n(d);\nendmodule\n",
        widths: 4, counts: 0, delays: 0, drives: 0, literals: 0,
    },
    PlaceRow {
        shows: "a switch with a vector at its control",
        text: "module m;\nwire [7:0] d; wire [0:7] u; wire [3:3] o; wire [1:0] t; wire s;\ntranif1 (s, s,\nd);\nendmodule\n",
        widths: 4, counts: 0, delays: 0, drives: 0, literals: 0,
    },
    PlaceRow {
        shows: "an instance isn't judged",
        text: "module m;\nwire [7:0] d; wire [0:7] u; wire [3:3] o; wire [1:0] t; wire s;\nsub u1(d, {s, 1});\nendmodule\n",
        widths: 0, counts: 0, delays: 0, drives: 0, literals: 0,
    },
];

pub(crate) fn rows() -> &'static [PlaceRow] {
    &ROWS
}
