//! The rules on delays and drives.

use super::InstanceRow;

#[rattlefmt::skip]
static ROWS: [InstanceRow; 12] = [
    InstanceRow {
        shows: "a module with a delay",
        text: "module t; wire w, x; wire [1:0] v; wire [3:0] q; wire [7:0] r;\nm\n#\n1 u(w);\nendmodule\n",
        lines: [0, 0, 4, 0, 0, 0],
    },
    InstanceRow {
        shows: "a module with several delays",
        text: "module t; wire w, x; wire [1:0] v; wire [3:0] q; wire [7:0] r;\nm\n#(1, 2, 3) u(w);\nendmodule\n",
        lines: [0, 0, 4, 0, 0, 0],
    },
    InstanceRow {
        shows: "a module with a drive",
        text: "module t; wire w, x; wire [1:0] v; wire [3:0] q; wire [7:0] r;\nm\n(strong0, weak1) u(w);\nendmodule\n",
        lines: [0, 0, 4, 0, 0, 0],
    },
    InstanceRow {
        shows: "a module with a drive and a delay",
        text: "module t; wire w, x; wire [1:0] v; wire [3:0] q; wire [7:0] r;\nm\n(weak1, strong0)\n#2 u(w);\nendmodule\n",
        lines: [0, 0, 4, 0, 0, 0],
    },
    InstanceRow {
        shows: "a primitive with three delays",
        text: "module t; wire w, x; wire [1:0] v; wire [3:0] q; wire [7:0] r;\ninv #(1, 2) (w, x);\ninv\n#(1, 2, 3) (w, x);\nendmodule\n",
        lines: [0, 0, 5, 0, 0, 0],
    },
    InstanceRow {
        shows: "a primitive with three delays of three values",
        text: "module t; wire w, x; wire [1:0] v; wire [3:0] q; wire [7:0] r;\ninv (strong0, weak1)\n#(1:2:3, 2:3:4, 3:4:5) (w, x);\nendmodule\n",
        lines: [0, 0, 4, 0, 0, 0],
    },
    InstanceRow {
        shows: "three delays of an unknown master",
        text: "module t; wire w, x; wire [1:0] v; wire [3:0] q; wire [7:0] r;\nabsent #(1, 2, 3) (w);\nendmodule\n",
        lines: [0, 0, 0, 0, 0, 0],
    },
    InstanceRow {
        shows: "a primitive with two levels for 0",
        text: "module t; wire w, x; wire [1:0] v; wire [3:0] q; wire [7:0] r;\ninv\n(strong0, pull0) (w, x);\nendmodule\n",
        lines: [0, 0, 0, 4, 0, 0],
    },
    InstanceRow {
        shows: "a primitive with two levels for 1",
        text: "module t; wire w, x; wire [1:0] v; wire [3:0] q; wire [7:0] r;\nboth\n(weak1, weak1) (w, x, x);\nendmodule\n",
        lines: [0, 0, 0, 4, 0, 0],
    },
    InstanceRow {
        shows: "a primitive with both levels highz",
        text: "module t; wire w, x; wire [1:0] v; wire [3:0] q; wire [7:0] r;\ninv #1 (w, x); inv\n(highz1, highz0) (w, x);\nendmodule\n",
        lines: [0, 0, 0, 4, 0, 0],
    },
    InstanceRow {
        shows: "a module with a drive that isn't right",
        text: "module t; wire w, x; wire [1:0] v; wire [3:0] q; wire [7:0] r;\nm\n(highz0, highz1) u(w);\nendmodule\n",
        lines: [0, 0, 4, 4, 0, 0],
    },
    InstanceRow {
        shows: "a wrong drive of an unknown master",
        text: "module t; wire w, x; wire [1:0] v; wire [3:0] q; wire [7:0] r;\nabsent\n(strong1, pull1) u(w);\nendmodule\n",
        lines: [0, 0, 0, 4, 0, 0],
    },
];

pub(crate) fn rows() -> &'static [InstanceRow] {
    &ROWS
}
