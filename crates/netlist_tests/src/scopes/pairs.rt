//! Netlists that break two rules: the one with the lower number is answered.

use crate::rows::{BrokenLine, NetlistRow};

#[rattlefmt::skip]
static ROWS: [NetlistRow; 54] = [
    NetlistRow {
        shows: "names before no top",
        text: "module a; b u(); endmodule\nmodule b; a u(); endmodule\nmodule a; endmodule\n",
        top: Some("zz"), broken: Some(BrokenLine { rule: 1, line: 3 }),
    },
    NetlistRow {
        shows: "names before a master",
        text: "module t;\nx u();\nendmodule\nmodule t;\nendmodule\n",
        top: None, broken: Some(BrokenLine { rule: 1, line: 4 }),
    },
    NetlistRow {
        shows: "names before a circle",
        text: "module t; a u(); endmodule\nmodule a;\na u();\nendmodule\nmodule a; endmodule\n",
        top: None, broken: Some(BrokenLine { rule: 1, line: 5 }),
    },
    NetlistRow {
        shows: "names before ports",
        text: "module t(a, a); endmodule\nprimitive t(o, i); output o; input i; table 0 : 0 ; 1 : 1 ; endtable endprimitive\n",
        top: None, broken: Some(BrokenLine { rule: 1, line: 2 }),
    },
    NetlistRow {
        shows: "names before undeclared names",
        text: "module t; assign y = w; endmodule\nmodule s; endmodule\nmodule s; endmodule\n",
        top: None, broken: Some(BrokenLine { rule: 1, line: 3 }),
    },
    NetlistRow {
        shows: "names before a precision",
        text: "`timescale 1ps/1ns\nmodule a; endmodule\nmodule a; endmodule\n",
        top: None, broken: Some(BrokenLine { rule: 1, line: 3 }),
    },
    NetlistRow {
        shows: "names before implicit nets",
        text: "`default_nettype none\nmodule t; buf (y, w); endmodule\nmodule t; endmodule\n",
        top: None, broken: Some(BrokenLine { rule: 1, line: 3 }),
    },
    NetlistRow {
        shows: "no top before a master",
        text: "\nmodule a;\nx u();\na v();\nendmodule\n",
        top: None, broken: Some(BrokenLine { rule: 2, line: 1 }),
    },
    NetlistRow {
        shows: "no top before a circle and ports",
        text: "\n\nmodule a(b, b); a u(); endmodule\n",
        top: None, broken: Some(BrokenLine { rule: 2, line: 1 }),
    },
    NetlistRow {
        shows: "no chosen module before names of nets",
        text: "\nmodule a;\nwire b;\nwire b;\nendmodule\n",
        top: Some("c"), broken: Some(BrokenLine { rule: 2, line: 1 }),
    },
    NetlistRow {
        shows: "no top before a precision",
        text: "\n\n`timescale 1ps/1ns\n",
        top: None, broken: Some(BrokenLine { rule: 2, line: 1 }),
    },
    NetlistRow {
        shows: "no chosen module before a precision and implicit nets",
        text: "\n`timescale 1ps/1ns\n`default_nettype none\nmodule a; buf (b, c); endmodule\n",
        top: Some("b"), broken: Some(BrokenLine { rule: 2, line: 1 }),
    },
    NetlistRow {
        shows: "a master before a circle",
        text: "module t;\na u();\nendmodule\nmodule a;\na u();\nendmodule\nmodule b; endmodule\nmodule c;\nt u();\nx v();\nendmodule\n",
        top: None, broken: Some(BrokenLine { rule: 3, line: 10 }),
    },
    NetlistRow {
        shows: "a master before ports",
        text: "module t(a, a);\nx u(a);\nendmodule\n",
        top: None, broken: Some(BrokenLine { rule: 3, line: 2 }),
    },
    NetlistRow {
        shows: "a master before names of nets",
        text: "module t;\nwire a;\nwire a;\nx u();\nendmodule\n",
        top: None, broken: Some(BrokenLine { rule: 3, line: 4 }),
    },
    NetlistRow {
        shows: "a master before undeclared names",
        text: "module t;\nassign y = w;\nx u();\nendmodule\n",
        top: None, broken: Some(BrokenLine { rule: 3, line: 3 }),
    },
    NetlistRow {
        shows: "a master before selects",
        text: "module t; wire a;\nassign y = a[0];\nx u();\nendmodule\n",
        top: None, broken: Some(BrokenLine { rule: 3, line: 3 }),
    },
    NetlistRow {
        shows: "a master before ranges",
        text: "module t(a); input a;\nwire [1:0] a;\nx u();\nendmodule\n",
        top: None, broken: Some(BrokenLine { rule: 3, line: 3 }),
    },
    NetlistRow {
        shows: "a master before a precision",
        text: "`timescale 1ps/1ns\nmodule t;\nx u();\nendmodule\n",
        top: None, broken: Some(BrokenLine { rule: 3, line: 3 }),
    },
    NetlistRow {
        shows: "a master before its own connections",
        text: "`default_nettype none\nmodule t;\nx u(w[0], v);\nendmodule\n",
        top: None, broken: Some(BrokenLine { rule: 3, line: 3 }),
    },
    NetlistRow {
        shows: "a circle before ports",
        text: "module t(a);\ns u();\nendmodule\nmodule s;\ns u();\nendmodule\n",
        top: None, broken: Some(BrokenLine { rule: 4, line: 5 }),
    },
    NetlistRow {
        shows: "a circle before names",
        text: "module t;\nwire a, a;\ns u();\nendmodule\nmodule s;\ns u();\nendmodule\n",
        top: None, broken: Some(BrokenLine { rule: 4, line: 6 }),
    },
    NetlistRow {
        shows: "a circle before undeclared names and selects",
        text: "module t; wire a;\nassign y = a[0], y = w;\ns u();\nendmodule\nmodule s;\ns u();\nendmodule\n",
        top: None, broken: Some(BrokenLine { rule: 4, line: 6 }),
    },
    NetlistRow {
        shows: "a circle before a precision and implicit nets",
        text: "`timescale 1ps/1ns\n`default_nettype none\nmodule t;\nbuf (y, w);\ns u();\nendmodule\nmodule s;\ns u();\nendmodule\n",
        top: None, broken: Some(BrokenLine { rule: 4, line: 8 }),
    },
    NetlistRow {
        shows: "ports before names of a module before",
        text: "module s;\nwire a;\nwire a;\nendmodule\nmodule t(\nb);\ns u();\nendmodule\n",
        top: None, broken: Some(BrokenLine { rule: 5, line: 6 }),
    },
    NetlistRow {
        shows: "a direction before names",
        text: "module t;\nwire a;\nwire a;\ninput b;\nendmodule\n",
        top: None, broken: Some(BrokenLine { rule: 5, line: 4 }),
    },
    NetlistRow {
        shows: "two directions before names",
        text: "module t(b,\na);\ninput b;\noutput wire a;\noutput wire a;\nendmodule\n",
        top: None, broken: Some(BrokenLine { rule: 5, line: 2 }),
    },
    NetlistRow {
        shows: "a direction of no port before undeclared names",
        text: "module t;\nassign y = w;\noutput y;\nendmodule\n",
        top: None, broken: Some(BrokenLine { rule: 5, line: 3 }),
    },
    NetlistRow {
        shows: "a direction of no port before selects and ranges",
        text: "module t(a); input a; wire [1:0] a;\nbuf (b, a[1]);\ninput c;\nendmodule\n",
        top: None, broken: Some(BrokenLine { rule: 5, line: 3 }),
    },
    NetlistRow {
        shows: "ports before a precision",
        text: "`timescale 1ps/1ns\nmodule t(\na);\nendmodule\n",
        top: None, broken: Some(BrokenLine { rule: 5, line: 3 }),
    },
    NetlistRow {
        shows: "ports before implicit nets",
        text: "`default_nettype none\nmodule s; buf (y, w); endmodule\nmodule t(\na);\ns u();\nendmodule\n",
        top: None, broken: Some(BrokenLine { rule: 5, line: 4 }),
    },
    NetlistRow {
        shows: "names before an undeclared right side",
        text: "module t;\nassign y = w;\nwire y;\nwire y;\nendmodule\n",
        top: None, broken: Some(BrokenLine { rule: 6, line: 4 }),
    },
    NetlistRow {
        shows: "names before a select of a scalar",
        text: "module t; wire a;\nbuf (y, a[0]);\nwire a;\nendmodule\n",
        top: None, broken: Some(BrokenLine { rule: 6, line: 3 }),
    },
    NetlistRow {
        shows: "names before a select outside the range",
        text: "module t; wire [3:0] a;\nbuf (y, a[4]);\nwire [3:0] b;\nwire [7:0] a;\nendmodule\n",
        top: None, broken: Some(BrokenLine { rule: 6, line: 4 }),
    },
    NetlistRow {
        shows: "names before ranges",
        text: "module t(a);\ninput [3:0] a;\nwire [7:0] a;\nwire a;\nendmodule\n",
        top: None, broken: Some(BrokenLine { rule: 6, line: 4 }),
    },
    NetlistRow {
        shows: "a direction with a type before ranges",
        text: "module t(a);\ninput wire [3:0] a;\nwire [7:0] a;\nendmodule\n",
        top: None, broken: Some(BrokenLine { rule: 6, line: 3 }),
    },
    NetlistRow {
        shows: "names of nets before a precision",
        text: "`timescale 1ps/1ns\nmodule t;\nwire a;\nwire a;\nendmodule\n",
        top: None, broken: Some(BrokenLine { rule: 6, line: 4 }),
    },
    NetlistRow {
        shows: "names of nets before implicit nets",
        text: "`default_nettype none\nmodule t;\nbuf (y, w);\nwire a;\nbuf a(y, w);\nendmodule\n",
        top: None, broken: Some(BrokenLine { rule: 6, line: 5 }),
    },
    NetlistRow {
        shows: "a clash with an implicit net before an undeclared right side",
        text: "module t;\nassign y = w;\nbuf (u, y);\nbuf u(y, y);\nendmodule\n",
        top: None, broken: Some(BrokenLine { rule: 6, line: 4 }),
    },
    NetlistRow {
        shows: "undeclared names before selects",
        text: "module t; wire a;\nbuf (y, a[0]);\nassign y = w;\nendmodule\n",
        top: None, broken: Some(BrokenLine { rule: 7, line: 3 }),
    },
    NetlistRow {
        shows: "an undeclared select before selects of another module",
        text: "module s; wire a;\nbuf (y, a[0]);\nendmodule\nmodule t;\ns u();\nbuf (y, w[0]);\nendmodule\n",
        top: None, broken: Some(BrokenLine { rule: 7, line: 6 }),
    },
    NetlistRow {
        shows: "undeclared names before ranges",
        text: "module t(a); input a;\nwire [1:0] a;\nassign y = w;\nendmodule\n",
        top: None, broken: Some(BrokenLine { rule: 7, line: 3 }),
    },
    NetlistRow {
        shows: "undeclared names before a precision",
        text: "`timescale 1ps/1ns\nmodule t;\nassign y = w;\nendmodule\n",
        top: None, broken: Some(BrokenLine { rule: 7, line: 3 }),
    },
    NetlistRow {
        shows: "undeclared names before implicit nets",
        text: "`default_nettype none\nmodule t;\nbuf (y, w);\nwire v = w;\nendmodule\n",
        top: None, broken: Some(BrokenLine { rule: 7, line: 4 }),
    },
    NetlistRow {
        shows: "an undeclared select before implicit nets",
        text: "`default_nettype none\nmodule t;\nbuf (y,\nw[0], v);\nendmodule\n",
        top: None, broken: Some(BrokenLine { rule: 7, line: 4 }),
    },
    NetlistRow {
        shows: "selects before ranges",
        text: "module t(a, b); input a, b;\nwire [1:0] a;\nbuf (y, b[0]);\nendmodule\n",
        top: None, broken: Some(BrokenLine { rule: 8, line: 3 }),
    },
    NetlistRow {
        shows: "a select outside the first range before ranges",
        text: "module t(a); input [1:0] a;\nwire [3:0] a;\nbuf (y, a[3]);\nendmodule\n",
        top: None, broken: Some(BrokenLine { rule: 8, line: 3 }),
    },
    NetlistRow {
        shows: "selects before a precision",
        text: "`timescale 1ps/1ns\nmodule t; wire a;\nbuf (y, a[0]);\nendmodule\n",
        top: None, broken: Some(BrokenLine { rule: 8, line: 3 }),
    },
    NetlistRow {
        shows: "selects before implicit nets",
        text: "`default_nettype none\nmodule t; wire a;\nbuf (y, b);\nbuf (b, a[0]);\nendmodule\n",
        top: None, broken: Some(BrokenLine { rule: 8, line: 4 }),
    },
    NetlistRow {
        shows: "ranges before a precision",
        text: "`timescale 1ps/1ns\nmodule t(a); input a;\nwire [1:0] a;\nendmodule\n",
        top: None, broken: Some(BrokenLine { rule: 18, line: 3 }),
    },
    NetlistRow {
        shows: "ranges before implicit nets",
        text: "`default_nettype none\nmodule t(a);\nbuf (y, w);\ninput a;\nwire [1:0] a;\nendmodule\n",
        top: None, broken: Some(BrokenLine { rule: 18, line: 5 }),
    },
    NetlistRow {
        shows: "ranges before implicit nets of a module before",
        text: "`default_nettype none\nmodule s;\nbuf (y, w);\nendmodule\nmodule t(a);\ns u();\ninput a;\nwire [1:0] a;\nendmodule\n",
        top: None, broken: Some(BrokenLine { rule: 18, line: 8 }),
    },
    NetlistRow {
        shows: "a precision before implicit nets",
        text: "`default_nettype none\nmodule t;\nbuf (y, w);\nendmodule\n`timescale 1ps/1ns\n",
        top: None, broken: Some(BrokenLine { rule: 19, line: 5 }),
    },
    NetlistRow {
        shows: "a precision of a module that isn't reached before implicit nets",
        text: "module t;\ns u();\nendmodule\n`default_nettype none\nmodule s;\nbuf (y, w);\nendmodule\n`resetall\n`timescale 1ns/1s\nmodule r; endmodule\n",
        top: Some("t"), broken: Some(BrokenLine { rule: 19, line: 9 }),
    },
];

pub(crate) fn rows() -> &'static [NetlistRow] {
    &ROWS
}
