//! The rule on literals at outputs.

use super::InstanceRow;

#[rattlefmt::skip]
static ROWS: [InstanceRow; 20] = [
    InstanceRow {
        shows: "at an output",
        text: "module t; wire w, x; wire [1:0] v; wire [3:0] q; wire [7:0] r;\nm u(w,\n2'b01);\nendmodule\n",
        lines: [0, 0, 0, 0, 0, 4],
    },
    InstanceRow {
        shows: "a number at an output",
        text: "module t; wire w, x; wire [1:0] v; wire [3:0] q; wire [7:0] r;\nm u(w,\n3);\nendmodule\n",
        lines: [0, 0, 0, 0, 0, 4],
    },
    InstanceRow {
        shows: "at an inout",
        text: "module t; wire w, x; wire [1:0] v; wire [3:0] q; wire [7:0] r;\nm u(1'b0, v,\n1'b1);\nendmodule\n",
        lines: [0, 0, 0, 0, 0, 4],
    },
    InstanceRow {
        shows: "named, at its dot",
        text: "module t; wire w, x; wire [1:0] v; wire [3:0] q; wire [7:0] r;\nm u(\n.c(\n1'bz));\nendmodule\n",
        lines: [0, 0, 0, 0, 0, 4],
    },
    InstanceRow {
        shows: "in a concatenation in a concatenation",
        text: "module t; wire w, x; wire [1:0] v; wire [3:0] q; wire [7:0] r;\nm u(w,\n{\nw, {\n1'b1}});\nendmodule\n",
        lines: [0, 0, 0, 0, 0, 4],
    },
    InstanceRow {
        shows: "in a named concatenation",
        text: "module t; wire w, x; wire [1:0] v; wire [3:0] q; wire [7:0] r;\nm u(.a(1'b1),\n.b({w,\n1'b0}));\nendmodule\n",
        lines: [0, 0, 0, 0, 0, 4],
    },
    InstanceRow {
        shows: "a literal without size at an output",
        text: "module t; wire w, x; wire [1:0] v; wire [3:0] q; wire [7:0] r;\nm u(w,\n{w,\n'b1});\nendmodule\n",
        lines: [5, 0, 0, 0, 0, 4],
    },
    InstanceRow {
        shows: "at an output of a wrong width",
        text: "module t; wire w, x; wire [1:0] v; wire [3:0] q; wire [7:0] r;\nm u(,\n{\n1'b1});\nendmodule\n",
        lines: [4, 0, 0, 0, 0, 4],
    },
    InstanceRow {
        shows: "at an output that is declared in the header",
        text: "module t; wire w, x; wire [1:0] v; wire [3:0] q; wire [7:0] r;\nansi u(\n4'hx);\nendmodule\n",
        lines: [0, 0, 0, 0, 0, 4],
    },
    InstanceRow {
        shows: "at the output of a name",
        text: "module t; wire w, x; wire [1:0] v; wire [3:0] q; wire [7:0] r;\ntwice u(.a(2'b00),\n.b(1'b0));\nendmodule\n",
        lines: [0, 0, 0, 0, 0, 4],
    },
    InstanceRow {
        shows: "behind names that stand twice",
        text: "module t; wire w, x; wire [1:0] v; wire [3:0] q; wire [7:0] r;\ntwice u(2'b00, 2'b11,\n0);\nendmodule\n",
        lines: [0, 0, 0, 0, 0, 4],
    },
    InstanceRow {
        shows: "the first of a primitive",
        text: "module t; wire w, x; wire [1:0] v; wire [3:0] q; wire [7:0] r;\ninv (\n1'b0, w);\nendmodule\n",
        lines: [0, 0, 0, 0, 0, 4],
    },
    InstanceRow {
        shows: "the first of a primitive, in a concatenation",
        text: "module t; wire w, x; wire [1:0] v; wire [3:0] q; wire [7:0] r;\nboth u(\n{\n1'b0}, 1'b1, 1'b0);\nendmodule\n",
        lines: [0, 0, 0, 0, 0, 4],
    },
    InstanceRow {
        shows: "the first named of a primitive",
        text: "module t; wire w, x; wire [1:0] v; wire [3:0] q; wire [7:0] r;\ninv\nu(\n.i(\n1'b0), .q(w));\nendmodule\n",
        lines: [0, 4, 0, 0, 0, 5],
    },
    InstanceRow {
        shows: "the second of a primitive with an empty first",
        text: "module t; wire w, x; wire [1:0] v; wire [3:0] q; wire [7:0] r;\ninv\nu(, 1'b0);\nendmodule\n",
        lines: [0, 4, 0, 0, 0, 0],
    },
    InstanceRow {
        shows: "a superfluous literal",
        text: "module t; wire w, x; wire [1:0] v; wire [3:0] q; wire [7:0] r;\nnone u\n(1'b0);\nendmodule\n",
        lines: [0, 0, 0, 0, 4, 0],
    },
    InstanceRow {
        shows: "at no port",
        text: "module t; wire w, x; wire [1:0] v; wire [3:0] q; wire [7:0] r;\nm u(\n.x(1'b0));\nendmodule\n",
        lines: [0, 0, 0, 0, 4, 0],
    },
    InstanceRow {
        shows: "at a port without a direction",
        text: "module t; wire w, x; wire [1:0] v; wire [3:0] q; wire [7:0] r;\nbare u(1'b0);\nendmodule\n",
        lines: [0, 0, 0, 0, 0, 0],
    },
    InstanceRow {
        shows: "at a port that is connected twice",
        text: "module t; wire w, x; wire [1:0] v; wire [3:0] q; wire [7:0] r;\nm u(.c(w),\n.c(\n0));\nendmodule\n",
        lines: [0, 0, 0, 0, 4, 4],
    },
    InstanceRow {
        shows: "the first of two",
        text: "module t; wire w, x; wire [1:0] v; wire [3:0] q; wire [7:0] r;\nm u(w,\n0); m s(, ,\n1);\nendmodule\n",
        lines: [0, 0, 0, 0, 0, 4],
    },
];

pub(crate) fn rows() -> &'static [InstanceRow] {
    &ROWS
}
