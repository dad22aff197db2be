//! The rule on connections.

use super::InstanceRow;

#[rattlefmt::skip]
static ROWS: [InstanceRow; 17] = [
    InstanceRow {
        shows: "no such port",
        text: "module t; wire w, x; wire [1:0] v; wire [3:0] q; wire [7:0] r;\nm u(.a(w),\n.x(w));\nendmodule\n",
        lines: [0, 0, 0, 0, 4, 0],
    },
    InstanceRow {
        shows: "no such port, without an expression",
        text: "module t; wire w, x; wire [1:0] v; wire [3:0] q; wire [7:0] r;\nm u(\n.x());\nendmodule\n",
        lines: [0, 0, 0, 0, 4, 0],
    },
    InstanceRow {
        shows: "a module without ports",
        text: "module t; wire w, x; wire [1:0] v; wire [3:0] q; wire [7:0] r;\nnone u(\n.a(w));\nendmodule\n",
        lines: [0, 0, 0, 0, 4, 0],
    },
    InstanceRow {
        shows: "a port twice, at the later",
        text: "module t; wire w, x; wire [1:0] v; wire [3:0] q; wire [7:0] r;\nm u(\n.a(w),\n.b(v),\n.a(w));\nendmodule\n",
        lines: [0, 0, 0, 0, 6, 0],
    },
    InstanceRow {
        shows: "a port twice, the first without an expression",
        text: "module t; wire w, x; wire [1:0] v; wire [3:0] q; wire [7:0] r;\nm u(.a(),\n.a(w));\nendmodule\n",
        lines: [0, 0, 0, 0, 4, 0],
    },
    InstanceRow {
        shows: "a port twice, both without an expression",
        text: "module t; wire w, x; wire [1:0] v; wire [3:0] q; wire [7:0] r;\nm u(.a(), .b(),\n.b());\nendmodule\n",
        lines: [0, 0, 0, 0, 4, 0],
    },
    InstanceRow {
        shows: "a port three times, at the second",
        text: "module t; wire w, x; wire [1:0] v; wire [3:0] q; wire [7:0] r;\nm u(.c(w),\n.c(w),\n.c(w));\nendmodule\n",
        lines: [0, 0, 0, 0, 4, 0],
    },
    InstanceRow {
        shows: "a name that stands twice in a header, twice",
        text: "module t; wire w, x; wire [1:0] v; wire [3:0] q; wire [7:0] r;\ntwice u(.a(v),\n.a(v));\nendmodule\n",
        lines: [0, 0, 0, 0, 4, 0],
    },
    InstanceRow {
        shows: "a name of this module",
        text: "module t; wire w, x; wire [1:0] v; wire [3:0] q; wire [7:0] r;\nm u(.a(w),\n.w(w));\nendmodule\n",
        lines: [0, 0, 0, 0, 4, 0],
    },
    InstanceRow {
        shows: "no such port twice",
        text: "module t; wire w, x; wire [1:0] v; wire [3:0] q; wire [7:0] r;\nm u(\n.x(w),\n.x(w));\nendmodule\n",
        lines: [0, 0, 0, 0, 4, 0],
    },
    InstanceRow {
        shows: "an escaped name",
        text: "module t; wire w, x; wire [1:0] v; wire [3:0] q; wire [7:0] r;\nm u(.\\a (w),\n.a (w));\nendmodule\n",
        lines: [0, 0, 0, 0, 4, 0],
    },
    InstanceRow {
        shows: "in the second instance",
        text: "module t; wire w, x; wire [1:0] v; wire [3:0] q; wire [7:0] r;\nm u(.a(w)), s(.a(w),\n.a(x));\nendmodule\n",
        lines: [0, 0, 0, 0, 4, 0],
    },
    InstanceRow {
        shows: "too many by place",
        text: "module t; wire w, x; wire [1:0] v; wire [3:0] q; wire [7:0] r;\nm u\n(w,\nv, x, w);\nendmodule\n",
        lines: [0, 0, 0, 0, 4, 0],
    },
    InstanceRow {
        shows: "too many by place, the last empty",
        text: "module t; wire w, x; wire [1:0] v; wire [3:0] q; wire [7:0] r;\nm u\n(w, v, x,\n);\nendmodule\n",
        lines: [0, 0, 0, 0, 4, 0],
    },
    InstanceRow {
        shows: "an empty place of a module without ports",
        text: "module t; wire w, x; wire [1:0] v; wire [3:0] q; wire [7:0] r;\nempty u\n(\n,);\nendmodule\n",
        lines: [0, 0, 0, 0, 4, 0],
    },
    InstanceRow {
        shows: "too many of a header with a name twice",
        text: "module t; wire w, x; wire [1:0] v; wire [3:0] q; wire [7:0] r;\ntwice u(v, v, w);\ntwice s\n(v, v, w, w);\nendmodule\n",
        lines: [0, 0, 0, 0, 5, 0],
    },
    InstanceRow {
        shows: "the ports of the master of its item",
        text: "module t; wire w, x; wire [1:0] v; wire [3:0] q; wire [7:0] r;\ntwice u(v); none s(); inv (w, x);\nnone k\n(w);\nendmodule\n",
        lines: [0, 0, 0, 0, 5, 0],
    },
];

pub(crate) fn rows() -> &'static [InstanceRow] {
    &ROWS
}
