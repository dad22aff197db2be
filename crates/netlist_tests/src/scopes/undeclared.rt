//! Right sides and selects of nets that aren't declared.

use crate::rows::{BrokenLine, NetlistRow};

#[rattlefmt::skip]
static ROWS: [NetlistRow; 52] = [
    NetlistRow {
        shows: "a right side of a name that stands nowhere else",
        text: "module m(y);\noutput y;\nassign y = q;\nendmodule\n",
        top: None, broken: Some(BrokenLine { rule: 7, line: 3 }),
    },
    NetlistRow {
        shows: "a right side",
        text: "module t(y, a);\noutput y; input a;\nassign y = w;\nendmodule\n",
        top: None, broken: Some(BrokenLine { rule: 7, line: 3 }),
    },
    NetlistRow {
        shows: "a right side on the line behind its target",
        text: "module t(y, a);\noutput y; input a;\nassign y\n=\nw;\nendmodule\n",
        top: None, broken: Some(BrokenLine { rule: 7, line: 5 }),
    },
    NetlistRow {
        shows: "the value of a net",
        text: "module t(y, a);\noutput y; input a;\nwire v = w;\nendmodule\n",
        top: None, broken: Some(BrokenLine { rule: 7, line: 3 }),
    },
    NetlistRow {
        shows: "a value behind others",
        text: "module t(y, a);\noutput y; input a;\nwire v = a,\nx = w;\nendmodule\n",
        top: None, broken: Some(BrokenLine { rule: 7, line: 4 }),
    },
    NetlistRow {
        shows: "in a concatenation",
        text: "module t(y, a);\noutput y; input a;\nassign y = {a,\nw};\nendmodule\n",
        top: None, broken: Some(BrokenLine { rule: 7, line: 4 }),
    },
    NetlistRow {
        shows: "in a concatenation in another",
        text: "module t(y, a);\noutput y; input a;\nassign y = {a, {a,\n{w}}};\nendmodule\n",
        top: None, broken: Some(BrokenLine { rule: 7, line: 4 }),
    },
    NetlistRow {
        shows: "two right sides: the first",
        text: "module t(y, a);\noutput y; input a;\nassign y = v;\nassign y = w;\nendmodule\n",
        top: None, broken: Some(BrokenLine { rule: 7, line: 3 }),
    },
    NetlistRow {
        shows: "a right side with a select",
        text: "module t(y, a);\noutput y; input a;\nassign y = w[0];\nendmodule\n",
        top: None, broken: Some(BrokenLine { rule: 7, line: 3 }),
    },
    NetlistRow {
        shows: "a right side with two bounds",
        text: "module t(y, a);\noutput y; input a;\nassign y = w[1:0];\nendmodule\n",
        top: None, broken: Some(BrokenLine { rule: 7, line: 3 }),
    },
    NetlistRow {
        shows: "a terminal with a select",
        text: "module t(y, a);\noutput y; input a;\nbuf (y,\nw[0]);\nendmodule\n",
        top: None, broken: Some(BrokenLine { rule: 7, line: 4 }),
    },
    NetlistRow {
        shows: "a terminal of a primitive with a select",
        text: "primitive p(o, i); output o; input i; table 0 : 0 ; 1 : 1 ; endtable endprimitive\nmodule t(y, a);\noutput y; input a;\np u(y,\nw[0]);\nendmodule\n",
        top: None, broken: Some(BrokenLine { rule: 7, line: 5 }),
    },
    NetlistRow {
        shows: "a terminal of a switch with a select, in a concatenation",
        text: "module t(y, a);\noutput y; input a;\nnmos (y,\n{w[2]}, a);\nendmodule\n",
        top: None, broken: Some(BrokenLine { rule: 7, line: 4 }),
    },
    NetlistRow {
        shows: "a connection by order with a select",
        text: "module s(p); input p; endmodule\nmodule t(y, a);\noutput y; input a;\ns u(\nw[0]);\nendmodule\n",
        top: None, broken: Some(BrokenLine { rule: 7, line: 5 }),
    },
    NetlistRow {
        shows: "a connection by name with a select",
        text: "module s(p); input p; endmodule\nmodule t(y, a);\noutput y; input a;\ns u(.p(\nw[0]));\nendmodule\n",
        top: None, broken: Some(BrokenLine { rule: 7, line: 5 }),
    },
    NetlistRow {
        shows: "a target with a select",
        text: "module t(y, a);\noutput y; input a;\nassign\nw[0] = a;\nendmodule\n",
        top: None, broken: Some(BrokenLine { rule: 7, line: 4 }),
    },
    NetlistRow {
        shows: "a target in a concatenation with a select",
        text: "module t(y, a);\noutput y; input a;\nassign {y,\nw[0]} = a;\nendmodule\n",
        top: None, broken: Some(BrokenLine { rule: 7, line: 4 }),
    },
    NetlistRow {
        shows: "a name that a later terminal makes implicit",
        text: "module t(y, a);\noutput y; input a;\nassign y = w;\nbuf (w, a);\nendmodule\n",
        top: None, broken: Some(BrokenLine { rule: 7, line: 3 }),
    },
    NetlistRow {
        shows: "a name that a later target makes implicit",
        text: "module t(y, a);\noutput y; input a;\nassign y = w,\nw = a;\nendmodule\n",
        top: None, broken: Some(BrokenLine { rule: 7, line: 3 }),
    },
    NetlistRow {
        shows: "a name that a later connection makes implicit",
        text: "module s(p); input p; endmodule\nmodule t(y, a);\noutput y; input a;\nwire v = w;\ns u(w);\nendmodule\n",
        top: None, broken: Some(BrokenLine { rule: 7, line: 4 }),
    },
    NetlistRow {
        shows: "a name that stands later in the same terminals",
        text: "module t(y, a);\noutput y; input a;\nbuf (w[0],\nw);\nendmodule\n",
        top: None, broken: Some(BrokenLine { rule: 7, line: 3 }),
    },
    NetlistRow {
        shows: "a select makes no implicit net",
        text: "module t(y, a);\noutput y; input a;\nbuf (w[0], a);\nassign y = w;\nendmodule\n",
        top: None, broken: Some(BrokenLine { rule: 7, line: 3 }),
    },
    NetlistRow {
        shows: "a right side makes no implicit net",
        text: "module t(y, a);\noutput y; input a;\nassign y = w;\nassign y = w;\nendmodule\n",
        top: None, broken: Some(BrokenLine { rule: 7, line: 3 }),
    },
    NetlistRow {
        shows: "the name of a connection makes no implicit net",
        text: "module s(w); input w; endmodule\nmodule t(y, a);\noutput y; input a;\ns u(.w(a));\nassign y = w;\nendmodule\n",
        top: None, broken: Some(BrokenLine { rule: 7, line: 5 }),
    },
    NetlistRow {
        shows: "an empty connection makes no implicit net",
        text: "module s(w); input w; endmodule\nmodule t(y, a);\noutput y; input a;\ns u(.w());\nassign y = w;\nendmodule\n",
        top: None, broken: Some(BrokenLine { rule: 7, line: 5 }),
    },
    NetlistRow {
        shows: "an instance declares no net",
        text: "module t(y, a);\noutput y; input a;\nbuf u(y, a);\nassign y = u;\nendmodule\n",
        top: None, broken: Some(BrokenLine { rule: 7, line: 4 }),
    },
    NetlistRow {
        shows: "an instance declares no net for a select",
        text: "module t(y, a);\noutput y; input a;\nbuf u(y, a);\nbuf (y, u[0]);\nendmodule\n",
        top: None, broken: Some(BrokenLine { rule: 7, line: 4 }),
    },
    NetlistRow {
        shows: "an instance of a module declares no net",
        text: "module s; endmodule\nmodule t(y, a);\noutput y; input a;\ns u();\nassign y = u;\nendmodule\n",
        top: None, broken: Some(BrokenLine { rule: 7, line: 5 }),
    },
    NetlistRow {
        shows: "a module's name is no net",
        text: "module t(y, a);\noutput y; input a;\nassign y = t;\nendmodule\n",
        top: None, broken: Some(BrokenLine { rule: 7, line: 3 }),
    },
    NetlistRow {
        shows: "a net of another module",
        text: "module s; wire w; endmodule\nmodule t(y, a);\noutput y; input a;\ns u();\nassign y = w;\nendmodule\n",
        top: None, broken: Some(BrokenLine { rule: 7, line: 5 }),
    },
    NetlistRow {
        shows: "a net that another module makes implicit",
        text: "module s(a); input a; buf (w, a); endmodule\nmodule t(y, a);\noutput y; input a;\ns u(a);\nassign y = w;\nendmodule\n",
        top: None, broken: Some(BrokenLine { rule: 7, line: 5 }),
    },
    NetlistRow {
        shows: "a name in a specify block declares nothing",
        text: "module t(y, a);\noutput y; input a;\nspecify wire w; endspecify\nassign y = w;\nendmodule\n",
        top: None, broken: Some(BrokenLine { rule: 7, line: 4 }),
    },
    NetlistRow {
        shows: "the name in capital letters",
        text: "module t(y, a);\noutput y; input a;\nwire W;\nassign y = w;\nendmodule\n",
        top: None, broken: Some(BrokenLine { rule: 7, line: 4 }),
    },
    NetlistRow {
        shows: "under none, a right side of a name that a terminal uses",
        text: "`default_nettype none\nmodule t(y, a);\noutput y; input a;\nbuf (w, a);\nassign y = w;\nendmodule\n",
        top: None, broken: Some(BrokenLine { rule: 7, line: 5 }),
    },
    NetlistRow {
        shows: "under none, a right side of its own target",
        text: "`default_nettype none\nmodule t(y, a);\noutput y; input a;\nassign w =\nw;\nendmodule\n",
        top: None, broken: Some(BrokenLine { rule: 7, line: 5 }),
    },
    NetlistRow {
        shows: "under none, a select",
        text: "`default_nettype none\nmodule t(y, a);\noutput y; input a;\nbuf (y, w[0]);\nendmodule\n",
        top: None, broken: Some(BrokenLine { rule: 7, line: 4 }),
    },
    NetlistRow {
        shows: "in a module before the top",
        text: "module s;\nassign y = w;\nendmodule\nmodule t;\ns u();\nassign y = w;\nendmodule\n",
        top: None, broken: Some(BrokenLine { rule: 7, line: 2 }),
    },
    NetlistRow {
        shows: "in a module behind the top",
        text: "module t;\ns u();\nendmodule\nmodule s;\nassign y = w;\nendmodule\n",
        top: None, broken: Some(BrokenLine { rule: 7, line: 5 }),
    },
    NetlistRow {
        shows: "a name that an earlier terminal made implicit",
        text: "module t(y, a);\noutput y; input a;\nbuf (w, a);\nassign y = w;\nendmodule\n",
        top: None, broken: None,
    },
    NetlistRow {
        shows: "a name that an earlier connection made implicit",
        text: "module s(p); input p; endmodule\nmodule t(y, a);\noutput y; input a;\ns u(.p(w));\nassign y = w;\nendmodule\n",
        top: None, broken: None,
    },
    NetlistRow {
        shows: "a name that an earlier target made implicit",
        text: "module t(y, a);\noutput y; input a;\nassign w = a, y = w;\nendmodule\n",
        top: None, broken: None,
    },
    NetlistRow {
        shows: "a name that its own target makes implicit",
        text: "module t(y, a);\noutput y; input a;\nassign w = w;\nendmodule\n",
        top: None, broken: None,
    },
    NetlistRow {
        shows: "names that targets of a concatenation make implicit",
        text: "module t(y, a);\noutput y; input a;\nassign {w, v} = {v, w};\nendmodule\n",
        top: None, broken: None,
    },
    NetlistRow {
        shows: "a net that is declared behind its use",
        text: "module t(y, a);\noutput y; input a;\nassign y = w;\nwire w;\nendmodule\n",
        top: None, broken: None,
    },
    NetlistRow {
        shows: "a trireg that is declared behind its use",
        text: "module t(y, a);\noutput y; input a;\nassign y = w;\ntrireg w;\nendmodule\n",
        top: None, broken: None,
    },
    NetlistRow {
        shows: "a port that is declared behind its use",
        text: "module t(y, a);\nassign y = a;\noutput y;\ninput a;\nendmodule\n",
        top: None, broken: None,
    },
    NetlistRow {
        shows: "a net with a value that names another of its item",
        text: "module t(y, a);\noutput y; input a;\nwire v = w, w = a;\nendmodule\n",
        top: None, broken: None,
    },
    NetlistRow {
        shows: "a net whose value is its own",
        text: "module t(y, a);\noutput y; input a;\nwire v = v;\nendmodule\n",
        top: None, broken: None,
    },
    NetlistRow {
        shows: "a vector that is declared behind its select",
        text: "module t(y, a);\noutput y; input a;\nbuf (y, w[2]);\nwire [3:0] w;\nendmodule\n",
        top: None, broken: None,
    },
    NetlistRow {
        shows: "a name that is written escaped",
        text: "module t(y, a);\noutput y; input a;\nwire w;\nassign \\y = \\w ;\nendmodule\n",
        top: None, broken: None,
    },
    NetlistRow {
        shows: "a literal",
        text: "module t(y, a);\noutput y; input a;\nassign y = 1'b0;\nassign w = 1, {v, x} = 2'b01;\nendmodule\n",
        top: None, broken: None,
    },
    NetlistRow {
        shows: "a right side in a module that isn't reached",
        text: "module s; assign y = w; endmodule\nmodule t; endmodule\n",
        top: None, broken: None,
    },
];

pub(crate) fn rows() -> &'static [NetlistRow] {
    &ROWS
}
