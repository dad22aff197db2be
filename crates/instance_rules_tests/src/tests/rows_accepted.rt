//! Instances that break none of the rules.

use super::InstanceRow;

#[rattlefmt::skip]
static ROWS: [InstanceRow; 19] = [
    InstanceRow {
        shows: "connections by place",
        text: "module t; wire w, x; wire [1:0] v; wire [3:0] q; wire [7:0] r;\nm u(w, v, x);\nendmodule\n",
        lines: [0, 0, 0, 0, 0, 0],
    },
    InstanceRow {
        shows: "connections by name in another order",
        text: "module t; wire w, x; wire [1:0] v; wire [3:0] q; wire [7:0] r;\nm u(.b(v), .c(x), .a(w));\nendmodule\n",
        lines: [0, 0, 0, 0, 0, 0],
    },
    InstanceRow {
        shows: "fewer connections than ports",
        text: "module t; wire w, x; wire [1:0] v; wire [3:0] q; wire [7:0] r;\nm u(w); m s(w, v);\nendmodule\n",
        lines: [0, 0, 0, 0, 0, 0],
    },
    InstanceRow {
        shows: "empty places",
        text: "module t; wire w, x; wire [1:0] v; wire [3:0] q; wire [7:0] r;\nm u(, v, ), s(w, , x);\nendmodule\n",
        lines: [0, 0, 0, 0, 0, 0],
    },
    InstanceRow {
        shows: "nothing in the parentheses",
        text: "module t; wire w, x; wire [1:0] v; wire [3:0] q; wire [7:0] r;\nm u(); none s(); empty k();\nendmodule\n",
        lines: [0, 0, 0, 0, 0, 0],
    },
    InstanceRow {
        shows: "named ports without an expression",
        text: "module t; wire w, x; wire [1:0] v; wire [3:0] q; wire [7:0] r;\nm u(.a(), .b(v), .c());\nendmodule\n",
        lines: [0, 0, 0, 0, 0, 0],
    },
    InstanceRow {
        shows: "literals at inputs",
        text: "module t; wire w, x; wire [1:0] v; wire [3:0] q; wire [7:0] r;\nm u(1'b0, v); m s(.a(1'bz)); twice k(2'b01); ansi l(, 'hf, 3);\nendmodule\n",
        lines: [0, 0, 0, 0, 0, 0],
    },
    InstanceRow {
        shows: "a number has the width of its port",
        text: "module t; wire w, x; wire [1:0] v; wire [3:0] q; wire [7:0] r;\nm u(1); twice s('b10);\nendmodule\n",
        lines: [0, 0, 0, 0, 0, 0],
    },
    InstanceRow {
        shows: "concatenations of the width of their ports",
        text: "module t; wire w, x; wire [1:0] v; wire [3:0] q; wire [7:0] r;\nm u({w}, {w, x}); twice s({v[1], 1'b1}); ansi k(q, {v, w, {x}}, {2'b00, v});\nendmodule\n",
        lines: [0, 0, 0, 0, 0, 0],
    },
    InstanceRow {
        shows: "parts of vectors",
        text: "module t; wire w, x; wire [1:0] v; wire [3:0] q; wire [7:0] r;\nm u(q[3], r[6:5], v[0]); ansi s(r[7:4], r[3:0], q, w);\nendmodule\n",
        lines: [0, 0, 0, 0, 0, 0],
    },
    InstanceRow {
        shows: "a port without a net is a scalar",
        text: "module t; wire w, x; wire [1:0] v; wire [3:0] q; wire [7:0] r;\nbare u(w, {v, x});\nendmodule\n",
        lines: [0, 0, 0, 0, 0, 0],
    },
    InstanceRow {
        shows: "a name that stands twice in a header",
        text: "module t; wire w, x; wire [1:0] v; wire [3:0] q; wire [7:0] r;\ntwice u(v, v, w), s(.a(v), .b(x));\nendmodule\n",
        lines: [0, 0, 0, 0, 0, 0],
    },
    InstanceRow {
        shows: "ports that continue a range",
        text: "module t; wire w, x; wire [1:0] v; wire [3:0] q; wire [7:0] r;\nansi u(.y(q), .d(q), .e(r[3:0]), .f(x));\nendmodule\n",
        lines: [0, 0, 0, 0, 0, 0],
    },
    InstanceRow {
        shows: "implicit nets are scalars",
        text: "module t; wire w, x; wire [1:0] v; wire [3:0] q; wire [7:0] r;\nm u(i, , j); inv (k, i);\nendmodule\n",
        lines: [0, 0, 0, 0, 0, 0],
    },
    InstanceRow {
        shows: "primitives with and without names",
        text: "module t; wire w, x; wire [1:0] v; wire [3:0] q; wire [7:0] r;\ninv (w, x), u(x, v[1]); both s(w, 1'b1, {x}); both (w, 0, 'b1);\nendmodule\n",
        lines: [0, 0, 0, 0, 0, 0],
    },
    InstanceRow {
        shows: "primitives with drives and delays",
        text: "module t; wire w, x; wire [1:0] v; wire [3:0] q; wire [7:0] r;\ninv (strong0, pull1) (w, x); inv #1 u(w, x); both (highz0, weak1) #(1, 2) (w, w, x); inv #(1:2:3, 4) (x, w);\nendmodule\n",
        lines: [0, 0, 0, 0, 0, 0],
    },
    InstanceRow {
        shows: "the same ports of several instances",
        text: "module t; wire w, x; wire [1:0] v; wire [3:0] q; wire [7:0] r;\nm u(.a(w), .b(v)), s(.a(x), .b(v)); m k(.b(v), .a(w));\nendmodule\n",
        lines: [0, 0, 0, 0, 0, 0],
    },
    InstanceRow {
        shows: "an unknown master",
        text: "module t; wire w, x; wire [1:0] v; wire [3:0] q; wire [7:0] r;\nabsent u(v, {w, 1'b0}, , 3); absent #1 (.a(1'b1), .a(r)); absent (weak0, weak1) ();\nendmodule\n",
        lines: [0, 0, 0, 0, 0, 0],
    },
    InstanceRow {
        shows: "gates and assignments between instances",
        text: "module t; wire w, x; wire [1:0] v; wire [3:0] q; wire [7:0] r;\nand (w, x); m u(w, v); assign x = 1; inv (w, x); buf (x, w, w); both (w, x, x); wire y; twice s(v, v, y);\nendmodule\n",
        lines: [0, 0, 0, 0, 0, 0],
    },
];

pub(crate) fn rows() -> &'static [InstanceRow] {
    &ROWS
}
