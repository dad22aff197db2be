//! Netlists that break none of the rules.

use crate::rows::NetlistRow;

#[rattlefmt::skip]
static ROWS: [NetlistRow; 26] = [
    NetlistRow {
        shows: "a module with nothing in it",
        text: "module t; endmodule",
        top: None, broken: None,
    },
    NetlistRow {
        shows: "a module with an empty header",
        text: "module t(); endmodule\n",
        top: None, broken: None,
    },
    NetlistRow {
        shows: "a macromodule",
        text: "macromodule t(a); input a; endmodule\n",
        top: None, broken: None,
    },
    NetlistRow {
        shows: "a latch",
        text: "module latch(q, qn, s, r);\noutput q, qn; input s, r;\nnand (q, s, qn);\nnand (qn, r, q);\nendmodule\n",
        top: None, broken: None,
    },
    NetlistRow {
        shows: "an adder of two halves",
        text: "module half(input a, b, output s, c);\nxor (s, a, b);\nand (c, a, b);\nendmodule\nmodule full(input a, b, d, output s, c);\nhalf u(a, b, p, g), v(.a(p), .b(d), .s(s), .c(h));\nor (c, g, h);\nendmodule\n",
        top: None, broken: None,
    },
    NetlistRow {
        shows: "a flip-flop of a primitive",
        text: "primitive ff(q, d, c); output q; reg q; input d, c; initial q = 1'b0;\ntable 0 r : ? : 0 ; 1 r : ? : 1 ; ? f : ? : - ; * ? : ? : - ; endtable endprimitive\nmodule t(q, d, c); output q; input d, c; ff #2 (q, d, c); endmodule\n",
        top: None, broken: None,
    },
    NetlistRow {
        shows: "a memory cell of switches",
        text: "module cell(bit_a, bit_b, word); inout bit_a, bit_b; input word;\ntrireg (small) #(0, 0, 50) c;\ntranif1 (bit_a, c, word);\nrnmos #1 (c, bit_b, word);\nendmodule\n",
        top: None, broken: None,
    },
    NetlistRow {
        shows: "a bus with drivers and keepers",
        text: "module t(d, e, f, g);\ninout [3:0] d; input e, f, g;\nbufif1 (d[0], e, f), (d[1], e, g);\ntri1 [3:0] k;\nassign (pull1, weak0) #3 d[3:2] = {e, f};\npullup (d[0]), (d[1]);\nendmodule\n",
        top: None, broken: None,
    },
    NetlistRow {
        shows: "unconnected ports",
        text: "module s(a, b, c); input a; output b; inout c; endmodule\nmodule t; wire w; s u(w), v(), x(, w), y(.b(w)), z(.a(), .b()); endmodule\n",
        top: None, broken: None,
    },
    NetlistRow {
        shows: "a vector through two modules",
        text: "module leaf(input [1:0] a, output [1:0] b); assign b = a; endmodule\nmodule mid(input [3:0] a, output [3:0] b);\nleaf u(a[3:2], b[3:2]), v(a[1:0], b[1:0]);\nendmodule\nmodule t(input [3:0] x, output [3:0] y); mid m(x, y); endmodule\n",
        top: None, broken: None,
    },
    NetlistRow {
        shows: "nets of all types",
        text: "module t;\nwire a; tri b; wand c; triand d; wor e; trior f; tri0 g; tri1 h; supply0 i; supply1 j; trireg k;\nendmodule\n",
        top: None, broken: None,
    },
    NetlistRow {
        shows: "gates of all kinds",
        text: "module t(y, a, b, c); output y; input a, b, c; wire z;\nand (y, a); nand (y, a, b); or (y, a, b, c); nor (y, a); xor (y, a, b); xnor (y, a);\nbuf (y, z, a); not (y, a); bufif0 (y, a, b); bufif1 (y, a, b); notif0 (y, a, b); notif1 (y, a, b);\nnmos (y, a, b); pmos (y, a, b); rnmos (y, a, b); rpmos (y, a, b); cmos (y, a, b, c); rcmos (y, a, b, c);\ntran (y, z); rtran (y, z); tranif0 (y, z, a); tranif1 (y, z, a); rtranif0 (y, z, a); rtranif1 (y, z, a);\npullup (y); pulldown (z);\nendmodule\n",
        top: None, broken: None,
    },
    NetlistRow {
        shows: "escaped names everywhere",
        text: "module \\s. (\\a[0] , \\b[1] ); input \\a[0] ; output \\b[1] ; buf \\g# (\\b[1] , \\a[0] ); endmodule\nmodule \\t! ; wire \\x\"y ; \\s. \\u/v (\\x\"y , \\9 ); endmodule\n",
        top: None, broken: None,
    },
    NetlistRow {
        shows: "comments and attributes everywhere",
        text: "/* a */ module /* b */ t // c\n(* d = \"e)\" *) (input /* f */ a, (* g *) output y);\n(* h *) buf /* wire a; */ (y, // wire y;\na);\nendmodule // i\n",
        top: None, broken: None,
    },
    NetlistRow {
        shows: "library text",
        text: "`timescale 1ns/10ps\n`celldefine\nmodule inv(y, a);\noutput y; input a;\nnot #(0.25, 0.5) (y, a);\nspecify (a => y) = (1.5, 2); endspecify\nendmodule\n`endcelldefine\n`resetall\n`default_nettype none\nmodule t(input a, output y);\nwire w;\ninv u(.y(w), .a(a)), v(.y(y), .a(w));\nendmodule\n",
        top: None, broken: None,
    },
    NetlistRow {
        shows: "a time scale",
        text: "`timescale 10ns/1ns\nmodule m(y, a);\noutput y; input a;\nbuf #0.25 (y, a);\nendmodule\n",
        top: None, broken: None,
    },
    NetlistRow {
        shows: "a finer time scale behind the module",
        text: "`timescale 10ns/1ns\nmodule m(y, a);\noutput y; input a;\nbuf #0.25 (y, a);\nendmodule\n`timescale 1ns/100ps\n",
        top: None, broken: None,
    },
    NetlistRow {
        shows: "cell directives in a module",
        text: "module t(a);\n`celldefine\ninput a;\n`endcelldefine\nbuf (b, a);\n`celldefine\nendmodule\n",
        top: None, broken: None,
    },
    NetlistRow {
        shows: "rules that only modules beside the top break",
        text: "module a(p, p); input q; endmodule\nmodule b; wire w, w; endmodule\nmodule c; assign y = w; wire v; buf (y, v[0]); endmodule\nmodule d(p); input p; wire [1:0] p; x u(); d v(); endmodule\n`default_nettype none\nmodule e; buf (y, w); endmodule\nmodule t; endmodule\n",
        top: None, broken: None,
    },
    NetlistRow {
        shows: "the chosen module is well, the last is not",
        text: "module t(a); input a; endmodule\nmodule b(a); wire c, c; t u(c); x v(); endmodule\n",
        top: Some("t"), broken: None,
    },
    NetlistRow {
        shows: "a wide concatenation",
        text: "module t(y, a); output [7:0] y; input [3:0] a;\nassign y = {a[3:2], {a[1], a[0]}, 2'b1z, a[3], a[0]};\nassign {y[7], y[6:5], {y[4]}} = a;\nendmodule\n",
        top: None, broken: None,
    },
    NetlistRow {
        shows: "net declarations with values, drives and delays",
        text: "module t(a); input a;\nwire (strong0, weak1) [3:0] #(1, 2, 3) w = {a, a}, v = 4'hx;\ntri #1.5 x = w[3];\nendmodule\n",
        top: None, broken: None,
    },
    NetlistRow {
        shows: "an instance of a primitive without a name beside named ones",
        text: "primitive p(o, i); output o; input i; table 0 : 0 ; 1 : 1 ; endtable endprimitive\nmodule t(y, a); output y; input a;\np (y, a), u(y, a);\np #(1, 2) v(y, a);\nendmodule\n",
        top: None, broken: None,
    },
    NetlistRow {
        shows: "specify words and tokens of no grammar in a block",
        text: "module t(a); input a;\nspecify specparam x = 1; if (a) (a *> a) = 3; $setup(a, posedge a, 2); wire w; wire w; x y(); endspecify\nendmodule\n",
        top: None, broken: None,
    },
    NetlistRow {
        shows: "a name of 30 letters and one longer",
        text: "module t(abcdefghijklmnopqrstuvwxyzabcd, abcdefghijklmnopqrstuvwxyzabcde);\ninput abcdefghijklmnopqrstuvwxyzabcd;\noutput abcdefghijklmnopqrstuvwxyzabcde;\nendmodule\n",
        top: None, broken: None,
    },
    NetlistRow {
        shows: "the top's name is the same as its port's, net's and instance's masters'",
        text: "module a(b); input b; endmodule\nmodule b(a); input a; a u(a); endmodule\n",
        top: None, broken: None,
    },
];

pub(crate) fn rows() -> &'static [NetlistRow] {
    &ROWS
}
