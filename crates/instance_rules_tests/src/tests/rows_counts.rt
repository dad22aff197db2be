//! The rule on the number of connections and on names of instances.

use super::InstanceRow;

#[rattlefmt::skip]
static ROWS: [InstanceRow; 14] = [
    InstanceRow {
        shows: "a primitive with too few",
        text: "module t; wire w, x; wire [1:0] v; wire [3:0] q; wire [7:0] r;\ninv\nu\n(w);\nendmodule\n",
        lines: [0, 4, 0, 0, 0, 0],
    },
    InstanceRow {
        shows: "a primitive with too few and without a name",
        text: "module t; wire w, x; wire [1:0] v; wire [3:0] q; wire [7:0] r;\ninv\n(w);\nendmodule\n",
        lines: [0, 4, 0, 0, 0, 0],
    },
    InstanceRow {
        shows: "a primitive with too many",
        text: "module t; wire w, x; wire [1:0] v; wire [3:0] q; wire [7:0] r;\nboth u(w, x, x), \ns(w, w, x, x);\nendmodule\n",
        lines: [0, 4, 0, 0, 0, 0],
    },
    InstanceRow {
        shows: "a primitive with none",
        text: "module t; wire w, x; wire [1:0] v; wire [3:0] q; wire [7:0] r;\ninv\nu\n();\nendmodule\n",
        lines: [0, 4, 0, 0, 0, 0],
    },
    InstanceRow {
        shows: "a primitive with an empty place",
        text: "module t; wire w, x; wire [1:0] v; wire [3:0] q; wire [7:0] r;\nboth\n(w, , x);\nendmodule\n",
        lines: [0, 4, 0, 0, 0, 0],
    },
    InstanceRow {
        shows: "a primitive with an empty last place",
        text: "module t; wire w, x; wire [1:0] v; wire [3:0] q; wire [7:0] r;\ninv (w, x);\nboth u(w, x,\n);\nendmodule\n",
        lines: [0, 4, 0, 0, 0, 0],
    },
    InstanceRow {
        shows: "a primitive with an empty place for the last port",
        text: "module t; wire w, x; wire [1:0] v; wire [3:0] q; wire [7:0] r;\ninv\nu(w,);\nendmodule\n",
        lines: [0, 4, 0, 0, 0, 0],
    },
    InstanceRow {
        shows: "a primitive with named connections",
        text: "module t; wire w, x; wire [1:0] v; wire [3:0] q; wire [7:0] r;\ninv\nu\n(.q(w), .i(x));\nendmodule\n",
        lines: [0, 4, 0, 0, 0, 0],
    },
    InstanceRow {
        shows: "a primitive with a named connection and without a name",
        text: "module t; wire w, x; wire [1:0] v; wire [3:0] q; wire [7:0] r;\ninv\n(.q(w));\nendmodule\n",
        lines: [0, 4, 0, 0, 0, 0],
    },
    InstanceRow {
        shows: "each primitive has its own number",
        text: "module t; wire w, x; wire [1:0] v; wire [3:0] q; wire [7:0] r;\nboth (w, x, x); inv (w, x);\ninv (w, x, x);\nendmodule\n",
        lines: [0, 4, 0, 0, 0, 0],
    },
    InstanceRow {
        shows: "a module without a name",
        text: "module t; wire w, x; wire [1:0] v; wire [3:0] q; wire [7:0] r;\nm\n(w, v);\nendmodule\n",
        lines: [0, 4, 0, 0, 0, 0],
    },
    InstanceRow {
        shows: "a module without ports and without a name",
        text: "module t; wire w, x; wire [1:0] v; wire [3:0] q; wire [7:0] r;\nnone u();\nnone\n();\nendmodule\n",
        lines: [0, 5, 0, 0, 0, 0],
    },
    InstanceRow {
        shows: "the second instance of an item",
        text: "module t; wire w, x; wire [1:0] v; wire [3:0] q; wire [7:0] r;\nm u(w),\n(x);\nendmodule\n",
        lines: [0, 4, 0, 0, 0, 0],
    },
    InstanceRow {
        shows: "an unknown master without a name",
        text: "module t; wire w, x; wire [1:0] v; wire [3:0] q; wire [7:0] r;\nabsent (w);\nendmodule\n",
        lines: [0, 0, 0, 0, 0, 0],
    },
];

pub(crate) fn rows() -> &'static [InstanceRow] {
    &ROWS
}
