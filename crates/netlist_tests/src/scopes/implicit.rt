//! Undeclared names where there are no implicit nets, and where there are.

use crate::rows::{BrokenLine, NetlistRow};

#[rattlefmt::skip]
static ROWS: [NetlistRow; 37] = [
    NetlistRow {
        shows: "a terminal",
        text: "`default_nettype none\nmodule t(y, a);\noutput y; input a;\nbuf (y, w);\nendmodule\n",
        top: None, broken: Some(BrokenLine { rule: 20, line: 4 }),
    },
    NetlistRow {
        shows: "a name that is no net's on line 4",
        text: "module s; endmodule\n`default_nettype none\nmodule m(y); output y;\nbuf (y, w);\nendmodule\n",
        top: Some("m"), broken: Some(BrokenLine { rule: 20, line: 4 }),
    },
    NetlistRow {
        shows: "an output terminal",
        text: "`default_nettype none\nmodule t(y, a);\noutput y; input a;\nbuf (\nw, a);\nendmodule\n",
        top: None, broken: Some(BrokenLine { rule: 20, line: 5 }),
    },
    NetlistRow {
        shows: "a terminal in a concatenation",
        text: "`default_nettype none\nmodule t(y, a);\noutput y; input a;\nbuf (y, {\nw});\nendmodule\n",
        top: None, broken: Some(BrokenLine { rule: 20, line: 5 }),
    },
    NetlistRow {
        shows: "a terminal of a switch",
        text: "`default_nettype none\nmodule t(y, a);\noutput y; input a;\nnmos (y, a,\nw);\nendmodule\n",
        top: None, broken: Some(BrokenLine { rule: 20, line: 5 }),
    },
    NetlistRow {
        shows: "a terminal of a pulldown",
        text: "`default_nettype none\nmodule t(y, a);\noutput y; input a;\npulldown (strong0) g(w);\nendmodule\n",
        top: None, broken: Some(BrokenLine { rule: 20, line: 4 }),
    },
    NetlistRow {
        shows: "a terminal of a primitive",
        text: "`default_nettype none\nprimitive p(o, i); output o; input i; table 0 : 0 ; 1 : 1 ; endtable endprimitive\nmodule t(y, a);\noutput y; input a;\np (y, w);\nendmodule\n",
        top: None, broken: Some(BrokenLine { rule: 20, line: 5 }),
    },
    NetlistRow {
        shows: "a connection by order",
        text: "`default_nettype none\nmodule s(p); input p; endmodule\nmodule t(y, a);\noutput y; input a;\ns u(w);\nendmodule\n",
        top: None, broken: Some(BrokenLine { rule: 20, line: 5 }),
    },
    NetlistRow {
        shows: "a connection by name",
        text: "`default_nettype none\nmodule s(p, q); input p, q; endmodule\nmodule t(y, a);\noutput y; input a;\ns u(.p(a),\n.q(w));\nendmodule\n",
        top: None, broken: Some(BrokenLine { rule: 20, line: 6 }),
    },
    NetlistRow {
        shows: "a connection in a concatenation",
        text: "`default_nettype none\nmodule s(p); input [1:0] p; endmodule\nmodule t(y, a);\noutput y; input a;\ns u({a,\n{w}});\nendmodule\n",
        top: None, broken: Some(BrokenLine { rule: 20, line: 6 }),
    },
    NetlistRow {
        shows: "a target",
        text: "`default_nettype none\nmodule t(y, a);\noutput y; input a;\nassign w = a;\nendmodule\n",
        top: None, broken: Some(BrokenLine { rule: 20, line: 4 }),
    },
    NetlistRow {
        shows: "a target in a concatenation",
        text: "`default_nettype none\nmodule t(y, a);\noutput y; input a;\nassign {y,\nw} = a;\nendmodule\n",
        top: None, broken: Some(BrokenLine { rule: 20, line: 5 }),
    },
    NetlistRow {
        shows: "a target behind others",
        text: "`default_nettype none\nmodule t(y, a);\noutput y; input a;\nassign y = a,\nw = a;\nendmodule\n",
        top: None, broken: Some(BrokenLine { rule: 20, line: 5 }),
    },
    NetlistRow {
        shows: "two names: the first",
        text: "`default_nettype none\nmodule t(y, a);\noutput y; input a;\nbuf (y, w);\nassign v = a;\nendmodule\n",
        top: None, broken: Some(BrokenLine { rule: 20, line: 4 }),
    },
    NetlistRow {
        shows: "one name twice: the first",
        text: "`default_nettype none\nmodule t(y, a);\noutput y; input a;\nbuf (y, w);\nassign w = a;\nendmodule\n",
        top: None, broken: Some(BrokenLine { rule: 20, line: 4 }),
    },
    NetlistRow {
        shows: "an instance of the name makes no clash",
        text: "`default_nettype none\nmodule t(y, a);\noutput y; input a;\nbuf u(y,\nu);\nendmodule\n",
        top: None, broken: Some(BrokenLine { rule: 20, line: 5 }),
    },
    NetlistRow {
        shows: "an instance of the name before it makes no clash",
        text: "`default_nettype none\nmodule t(y, a);\noutput y; input a;\nbuf u(y, a);\nassign u = a;\nendmodule\n",
        top: None, broken: Some(BrokenLine { rule: 20, line: 5 }),
    },
    NetlistRow {
        shows: "the name of another module's net",
        text: "`default_nettype none\nmodule s; wire w; endmodule\nmodule t(y, a);\noutput y; input a;\ns u();\nbuf (y, w);\nendmodule\n",
        top: None, broken: Some(BrokenLine { rule: 20, line: 6 }),
    },
    NetlistRow {
        shows: "the name in capital letters",
        text: "`default_nettype none\nmodule t(y, a);\noutput y; input a;\nwire W;\nbuf (y, w);\nendmodule\n",
        top: None, broken: Some(BrokenLine { rule: 20, line: 5 }),
    },
    NetlistRow {
        shows: "none behind another type",
        text: "`default_nettype tri\n`default_nettype none\nmodule t(y, a);\noutput y; input a;\nbuf (y, w);\nendmodule\n",
        top: None, broken: Some(BrokenLine { rule: 20, line: 5 }),
    },
    NetlistRow {
        shows: "none behind resetall",
        text: "`resetall\n`default_nettype none\nmodule t(y, a);\noutput y; input a;\nbuf (y, w);\nendmodule\n",
        top: None, broken: Some(BrokenLine { rule: 20, line: 5 }),
    },
    NetlistRow {
        shows: "none for a module that another stands before",
        text: "`default_nettype none\nmodule s; endmodule\nmodule t(y, a);\noutput y; input a;\nbuf (y, w);\ns u();\nendmodule\n",
        top: None, broken: Some(BrokenLine { rule: 20, line: 5 }),
    },
    NetlistRow {
        shows: "none between two modules: the second",
        text: "module s; buf (w, v); endmodule\n`default_nettype none\nmodule t(y, a);\noutput y; input a;\nbuf (y, w);\ns u();\nendmodule\n",
        top: None, broken: Some(BrokenLine { rule: 20, line: 5 }),
    },
    NetlistRow {
        shows: "none for a module before the top",
        text: "`default_nettype none\nmodule s;\nbuf (w, v);\nendmodule\n`default_nettype wire\nmodule t;\ns u();\nbuf (w, v);\nendmodule\n",
        top: None, broken: Some(BrokenLine { rule: 20, line: 3 }),
    },
    NetlistRow {
        shows: "none for a module behind the top",
        text: "module t;\ns u();\nbuf (w, v);\nendmodule\n`default_nettype none\nmodule s;\nbuf (w, v);\nendmodule\n",
        top: None, broken: Some(BrokenLine { rule: 20, line: 7 }),
    },
    NetlistRow {
        shows: "a timescale doesn't take none back",
        text: "`default_nettype none\n`timescale 1ns/1ps\n`celldefine\nmodule t(y, a);\noutput y; input a;\nbuf (y, w);\nendmodule\n",
        top: None, broken: Some(BrokenLine { rule: 20, line: 6 }),
    },
    NetlistRow {
        shows: "none that is written escaped",
        text: "`default_nettype \\none \nmodule t(y, a);\noutput y; input a;\nbuf (y, w);\nendmodule\n",
        top: None, broken: Some(BrokenLine { rule: 20, line: 4 }),
    },
    NetlistRow {
        shows: "a macromodule",
        text: "`default_nettype none\nmacromodule t;\nbuf (w, v);\nendmodule\n",
        top: None, broken: Some(BrokenLine { rule: 20, line: 3 }),
    },
    NetlistRow {
        shows: "none, and resetall before the module",
        text: "`default_nettype none\n`resetall\nmodule t(y, a);\noutput y; input a;\nbuf (y, w);\nendmodule\n",
        top: None, broken: None,
    },
    NetlistRow {
        shows: "none, and another type before the module",
        text: "`default_nettype none\n`default_nettype wand\nmodule t(y, a);\noutput y; input a;\nbuf (y, w);\nendmodule\n",
        top: None, broken: None,
    },
    NetlistRow {
        shows: "none behind the module",
        text: "module t(y, a);\noutput y; input a;\nbuf (y, w);\nendmodule\n`default_nettype none\n",
        top: None, broken: None,
    },
    NetlistRow {
        shows: "none for a module that isn't reached",
        text: "`default_nettype none\nmodule s; buf (w, v); endmodule\n`resetall\nmodule t(y, a);\noutput y; input a;\nbuf (y, w);\nendmodule\n",
        top: None, broken: None,
    },
    NetlistRow {
        shows: "each type of implicit nets",
        text: "`default_nettype wire\nmodule a; buf (w, v); assign x = w; endmodule\n`default_nettype tri\nmodule b; buf (w, v); assign x = w; endmodule\n`default_nettype tri0\nmodule c; buf (w, v); assign x = w; endmodule\n`default_nettype tri1\nmodule d; buf (w, v); assign x = w; endmodule\n`default_nettype wand\nmodule e; buf (w, v); assign x = w; endmodule\n`default_nettype triand\nmodule f; buf (w, v); assign x = w; endmodule\n`default_nettype wor\nmodule g; buf (w, v); assign x = w; endmodule\n`default_nettype trior\nmodule h; buf (w, v); assign x = w; endmodule\n`default_nettype trireg\nmodule i; buf (w, v); assign x = w; endmodule\nmodule t; a a(); b b(); c c(); d d(); e e(); f f(); g g(); h h(); i i(); endmodule\n",
        top: None, broken: None,
    },
    NetlistRow {
        shows: "under none, names that are declared before and behind",
        text: "`default_nettype none\nmodule t(y, a);\noutput y; input a;\nwire w;\nbuf (w, a);\nbuf (v, w);\nassign y = v, {x, w} = a;\ntrireg v;\nwire x = y;\nendmodule\n",
        top: None, broken: None,
    },
    NetlistRow {
        shows: "under none, ports without a type",
        text: "`default_nettype none\nmodule s(p, q); input p; output q; buf (q, p); endmodule\nmodule t(input a, output b);\ns u(a, b), v(.p(b), .q());\nendmodule\n",
        top: None, broken: None,
    },
    NetlistRow {
        shows: "under none, literals and selects of declared nets",
        text: "`default_nettype none\nmodule t(y, a);\noutput y; input a;\nwire [3:0] w;\nbuf (y, w[2]), (w[0], 1'b1);\nassign w[3:1] = {a, w[0]};\nendmodule\n",
        top: None, broken: None,
    },
    NetlistRow {
        shows: "under none, names of connections, of instances and of masters",
        text: "`default_nettype none\nprimitive p(o, i); output o; input i; table 0 : 0 ; 1 : 1 ; endtable endprimitive\nmodule s(w); input w; endmodule\nmodule t(y, a);\noutput y; input a;\ns u(.w(a));\np g(y, a);\nendmodule\n",
        top: None, broken: None,
    },
];

pub(crate) fn rows() -> &'static [NetlistRow] {
    &ROWS
}
