//! The rule on widths.

use super::InstanceRow;

#[rattlefmt::skip]
static ROWS: [InstanceRow; 31] = [
    InstanceRow {
        shows: "one bit at two",
        text: "module t; wire w, x; wire [1:0] v; wire [3:0] q; wire [7:0] r;\nm u(w,\n{\nw});\nendmodule\n",
        lines: [4, 0, 0, 0, 0, 0],
    },
    InstanceRow {
        shows: "two bits at one",
        text: "module t; wire w, x; wire [1:0] v; wire [3:0] q; wire [7:0] r;\nm u(\nv);\nendmodule\n",
        lines: [4, 0, 0, 0, 0, 0],
    },
    InstanceRow {
        shows: "the first token is that of the expression",
        text: "module t; wire w, x; wire [1:0] v; wire [3:0] q; wire [7:0] r;\nm u(.a(w)); m s(\n{w,\nx});\nendmodule\n",
        lines: [4, 0, 0, 0, 0, 0],
    },
    InstanceRow {
        shows: "a named connection at its dot",
        text: "module t; wire w, x; wire [1:0] v; wire [3:0] q; wire [7:0] r;\nm u(\n.a(\nv));\nendmodule\n",
        lines: [4, 0, 0, 0, 0, 0],
    },
    InstanceRow {
        shows: "a select of another width",
        text: "module t; wire w, x; wire [1:0] v; wire [3:0] q; wire [7:0] r;\nm u(,\nr[2:0]);\nendmodule\n",
        lines: [4, 0, 0, 0, 0, 0],
    },
    InstanceRow {
        shows: "an ascending range",
        text: "module t; wire w, x; wire [1:0] v; wire [3:0] q; wire [7:0] r;\ntwice u(\nq[2:0]);\nendmodule\n",
        lines: [4, 0, 0, 0, 0, 0],
    },
    InstanceRow {
        shows: "the second of two entries of a name",
        text: "module t; wire w, x; wire [1:0] v; wire [3:0] q; wire [7:0] r;\ntwice u(v,\nw);\nendmodule\n",
        lines: [4, 0, 0, 0, 0, 0],
    },
    InstanceRow {
        shows: "a range that is continued",
        text: "module t; wire w, x; wire [1:0] v; wire [3:0] q; wire [7:0] r;\nansi u(q, q,\nv);\nendmodule\n",
        lines: [4, 0, 0, 0, 0, 0],
    },
    InstanceRow {
        shows: "a scalar behind ranges",
        text: "module t; wire w, x; wire [1:0] v; wire [3:0] q; wire [7:0] r;\nansi u(q, q, q,\nv);\nendmodule\n",
        lines: [4, 0, 0, 0, 0, 0],
    },
    InstanceRow {
        shows: "a port without a net",
        text: "module t; wire w, x; wire [1:0] v; wire [3:0] q; wire [7:0] r;\nbare u(\nv);\nendmodule\n",
        lines: [4, 0, 0, 0, 0, 0],
    },
    InstanceRow {
        shows: "a literal with a size",
        text: "module t; wire w, x; wire [1:0] v; wire [3:0] q; wire [7:0] r;\ntwice u(\n3'b101);\nendmodule\n",
        lines: [4, 0, 0, 0, 0, 0],
    },
    InstanceRow {
        shows: "an implicit net at a vector",
        text: "module t; wire w, x; wire [1:0] v; wire [3:0] q; wire [7:0] r;\nm u(w,\ni);\nendmodule\n",
        lines: [4, 0, 0, 0, 0, 0],
    },
    InstanceRow {
        shows: "a number in a concatenation",
        text: "module t; wire w, x; wire [1:0] v; wire [3:0] q; wire [7:0] r;\ntwice u({w,\n1});\nendmodule\n",
        lines: [4, 0, 0, 0, 0, 0],
    },
    InstanceRow {
        shows: "a based literal without size in a concatenation",
        text: "module t; wire w, x; wire [1:0] v; wire [3:0] q; wire [7:0] r;\ntwice u({\nw, 'b1});\nendmodule\n",
        lines: [4, 0, 0, 0, 0, 0],
    },
    InstanceRow {
        shows: "a literal without size before the width",
        text: "module t; wire w, x; wire [1:0] v; wire [3:0] q; wire [7:0] r;\ntwice u(\n{w, x, x, {v,\n'b1}});\nendmodule\n",
        lines: [5, 0, 0, 0, 0, 0],
    },
    InstanceRow {
        shows: "a literal without size in a named connection",
        text: "module t; wire w, x; wire [1:0] v; wire [3:0] q; wire [7:0] r;\ntwice u(\n.a(\n{w,\n1}));\nendmodule\n",
        lines: [6, 0, 0, 0, 0, 0],
    },
    InstanceRow {
        shows: "the first of two wrong widths",
        text: "module t; wire w, x; wire [1:0] v; wire [3:0] q; wire [7:0] r;\nm u(w, v,\nr); m s(\nr);\nendmodule\n",
        lines: [4, 0, 0, 0, 0, 0],
    },
    InstanceRow {
        shows: "a wrong width in the second item",
        text: "module t; wire w, x; wire [1:0] v; wire [3:0] q; wire [7:0] r;\nm u(w, v);\nm s(w, v),\nk(v);\nendmodule\n",
        lines: [5, 0, 0, 0, 0, 0],
    },
    InstanceRow {
        shows: "the widths of the master of its item",
        text: "module t; wire w, x; wire [1:0] v; wire [3:0] q; wire [7:0] r;\ninv (w, x); m u(w, v); inv (x,\nv);\nendmodule\n",
        lines: [4, 0, 0, 0, 0, 0],
    },
    InstanceRow {
        shows: "a superfluous connection of a module",
        text: "module t; wire w, x; wire [1:0] v; wire [3:0] q; wire [7:0] r;\nempty u\n(\nv);\nendmodule\n",
        lines: [0, 0, 0, 0, 4, 0],
    },
    InstanceRow {
        shows: "a literal without size in a superfluous connection",
        text: "module t; wire w, x; wire [1:0] v; wire [3:0] q; wire [7:0] r;\nempty u\n({w,\n1});\nendmodule\n",
        lines: [5, 0, 0, 0, 4, 0],
    },
    InstanceRow {
        shows: "a literal without size at no port",
        text: "module t; wire w, x; wire [1:0] v; wire [3:0] q; wire [7:0] r;\nm u(\n.x({\n1}));\nendmodule\n",
        lines: [5, 0, 0, 0, 4, 0],
    },
    InstanceRow {
        shows: "no such port",
        text: "module t; wire w, x; wire [1:0] v; wire [3:0] q; wire [7:0] r;\nm u(\n.x(\nv));\nendmodule\n",
        lines: [0, 0, 0, 0, 4, 0],
    },
    InstanceRow {
        shows: "a port that is connected twice",
        text: "module t; wire w, x; wire [1:0] v; wire [3:0] q; wire [7:0] r;\nm u(.a(w),\n.a(\nv));\nendmodule\n",
        lines: [4, 0, 0, 0, 4, 0],
    },
    InstanceRow {
        shows: "two bits at a primitive",
        text: "module t; wire w, x; wire [1:0] v; wire [3:0] q; wire [7:0] r;\ninv (\nv, x);\nendmodule\n",
        lines: [4, 0, 0, 0, 0, 0],
    },
    InstanceRow {
        shows: "two bits at a primitive's input",
        text: "module t; wire w, x; wire [1:0] v; wire [3:0] q; wire [7:0] r;\nboth (w, x,\n{w, x});\nendmodule\n",
        lines: [4, 0, 0, 0, 0, 0],
    },
    InstanceRow {
        shows: "two bits superfluous at a primitive",
        text: "module t; wire w, x; wire [1:0] v; wire [3:0] q; wire [7:0] r;\ninv u(w, x,\nv);\nendmodule\n",
        lines: [4, 3, 0, 0, 0, 0],
    },
    InstanceRow {
        shows: "two bits named at a primitive",
        text: "module t; wire w, x; wire [1:0] v; wire [3:0] q; wire [7:0] r;\ninv\nu(.q(w),\n.i(\nv));\nendmodule\n",
        lines: [5, 4, 0, 0, 0, 0],
    },
    InstanceRow {
        shows: "a literal without size at a primitive",
        text: "module t; wire w, x; wire [1:0] v; wire [3:0] q; wire [7:0] r;\ninv (w,\n{\n1});\nendmodule\n",
        lines: [5, 0, 0, 0, 0, 0],
    },
    InstanceRow {
        shows: "a literal of two bits at a primitive",
        text: "module t; wire w, x; wire [1:0] v; wire [3:0] q; wire [7:0] r;\ninv (w,\n2'b01);\nendmodule\n",
        lines: [4, 0, 0, 0, 0, 0],
    },
    InstanceRow {
        shows: "a literal without size of an unknown master",
        text: "module t; wire w, x; wire [1:0] v; wire [3:0] q; wire [7:0] r;\nabsent u(v,\n{1'b0,\n1});\nendmodule\n",
        lines: [5, 0, 0, 0, 0, 0],
    },
];

pub(crate) fn rows() -> &'static [InstanceRow] {
    &ROWS
}
