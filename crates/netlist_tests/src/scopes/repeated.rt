//! Names that are declared twice in a module.

use crate::rows::{BrokenLine, NetlistRow};

#[rattlefmt::skip]
static ROWS: [NetlistRow; 59] = [
    NetlistRow {
        shows: "two nets",
        text: "module t;\nwire a;\nwire a;\nendmodule\n",
        top: None, broken: Some(BrokenLine { rule: 6, line: 3 }),
    },
    NetlistRow {
        shows: "two nets of one item",
        text: "module t;\nwire a,\na;\nendmodule\n",
        top: None, broken: Some(BrokenLine { rule: 6, line: 3 }),
    },
    NetlistRow {
        shows: "nets of two types",
        text: "module t;\nwire a;\ntri0 b;\nwand a;\nendmodule\n",
        top: None, broken: Some(BrokenLine { rule: 6, line: 4 }),
    },
    NetlistRow {
        shows: "a net and a trireg",
        text: "module t;\nwire a;\ntrireg a;\nendmodule\n",
        top: None, broken: Some(BrokenLine { rule: 6, line: 3 }),
    },
    NetlistRow {
        shows: "a trireg and a net",
        text: "module t;\ntrireg (small) a;\nwire a;\nendmodule\n",
        top: None, broken: Some(BrokenLine { rule: 6, line: 3 }),
    },
    NetlistRow {
        shows: "two triregs of one item",
        text: "module t;\ntrireg b, a,\na;\nendmodule\n",
        top: None, broken: Some(BrokenLine { rule: 6, line: 3 }),
    },
    NetlistRow {
        shows: "two nets with values",
        text: "module t;\nwire b;\nwire a = b,\na = b;\nendmodule\n",
        top: None, broken: Some(BrokenLine { rule: 6, line: 4 }),
    },
    NetlistRow {
        shows: "a net and a net with a value",
        text: "module t;\nwire a, b;\nwire\na = b;\nendmodule\n",
        top: None, broken: Some(BrokenLine { rule: 6, line: 4 }),
    },
    NetlistRow {
        shows: "three nets: the second",
        text: "module t;\nwire a;\nwire a;\nwire a;\nendmodule\n",
        top: None, broken: Some(BrokenLine { rule: 6, line: 3 }),
    },
    NetlistRow {
        shows: "two names: the least later one",
        text: "module t;\nwire a, b;\nwire b;\nwire a;\nendmodule\n",
        top: None, broken: Some(BrokenLine { rule: 6, line: 3 }),
    },
    NetlistRow {
        shows: "an escaped name",
        text: "module t;\nwire \\a ;\nwire a;\nendmodule\n",
        top: None, broken: Some(BrokenLine { rule: 6, line: 3 }),
    },
    NetlistRow {
        shows: "a direction with a type and a net",
        text: "module t(a);\noutput wire a;\nwire a;\nendmodule\n",
        top: None, broken: Some(BrokenLine { rule: 6, line: 3 }),
    },
    NetlistRow {
        shows: "a net and a direction with a type",
        text: "module t(a);\nwire a;\noutput wire a;\nendmodule\n",
        top: None, broken: Some(BrokenLine { rule: 6, line: 3 }),
    },
    NetlistRow {
        shows: "a direction without a type and two nets: the third",
        text: "module t(a);\ninput a;\nwire a;\nwire a;\nendmodule\n",
        top: None, broken: Some(BrokenLine { rule: 6, line: 4 }),
    },
    NetlistRow {
        shows: "a net, a direction without a type and a net: the third",
        text: "module t(a);\nwire a;\ninput a;\nwire a;\nendmodule\n",
        top: None, broken: Some(BrokenLine { rule: 6, line: 4 }),
    },
    NetlistRow {
        shows: "two nets and a direction without a type: the second",
        text: "module t(a);\nwire a;\nwire a;\ninput a;\nendmodule\n",
        top: None, broken: Some(BrokenLine { rule: 6, line: 3 }),
    },
    NetlistRow {
        shows: "a direction without a type and three nets: the third",
        text: "module t(a);\ninput a;\nwire a;\ntri a;\nwire a;\nendmodule\n",
        top: None, broken: Some(BrokenLine { rule: 6, line: 4 }),
    },
    NetlistRow {
        shows: "a direction without a type, a net and a trireg",
        text: "module t(a);\ninout a;\nwire a;\ntrireg a;\nendmodule\n",
        top: None, broken: Some(BrokenLine { rule: 6, line: 4 }),
    },
    NetlistRow {
        shows: "a header's direction with a type and a net",
        text: "module t(output wire a);\nwire a;\nendmodule\n",
        top: None, broken: Some(BrokenLine { rule: 6, line: 2 }),
    },
    NetlistRow {
        shows: "a header's direction without a type and two nets",
        text: "module t(output a);\nwire a;\nwire a;\nendmodule\n",
        top: None, broken: Some(BrokenLine { rule: 6, line: 3 }),
    },
    NetlistRow {
        shows: "a header's name alone has the type before it",
        text: "module t(output wire a, b);\nwire b;\nendmodule\n",
        top: None, broken: Some(BrokenLine { rule: 6, line: 2 }),
    },
    NetlistRow {
        shows: "a header's name alone has the last type before it",
        text: "module t(input a, output tri b, c);\nwire a;\nwire c;\nendmodule\n",
        top: None, broken: Some(BrokenLine { rule: 6, line: 3 }),
    },
    NetlistRow {
        shows: "a net and an instance of a gate",
        text: "module t(y, a);\noutput y;\ninput a;\nwire u;\nbuf u(y, a);\nendmodule\n",
        top: None, broken: Some(BrokenLine { rule: 6, line: 5 }),
    },
    NetlistRow {
        shows: "an instance of a gate and a net",
        text: "module t(y, a);\noutput y;\ninput a;\nbuf u(y, a);\nwire u;\nendmodule\n",
        top: None, broken: Some(BrokenLine { rule: 6, line: 5 }),
    },
    NetlistRow {
        shows: "a port and an instance",
        text: "module t(y, a);\noutput y;\ninput a;\nbuf a(y, a);\nendmodule\n",
        top: None, broken: Some(BrokenLine { rule: 6, line: 4 }),
    },
    NetlistRow {
        shows: "a port with a net and an instance",
        text: "module t(y, a);\noutput y;\ninput a;\nwire a;\nbuf a(y, a);\nendmodule\n",
        top: None, broken: Some(BrokenLine { rule: 6, line: 5 }),
    },
    NetlistRow {
        shows: "an instance, then a port and its net",
        text: "module t(y, a);\ninput a;\nbuf y(w, a);\noutput y;\nwire y;\nendmodule\n",
        top: None, broken: Some(BrokenLine { rule: 6, line: 4 }),
    },
    NetlistRow {
        shows: "a port, an instance, then a net",
        text: "module t(y, a);\noutput y; input a;\nbuf y(w, a);\nwire y;\nendmodule\n",
        top: None, broken: Some(BrokenLine { rule: 6, line: 3 }),
    },
    NetlistRow {
        shows: "two instances of gates",
        text: "module t(y, z, a);\noutput y, z; input a;\nbuf u(y, a);\nnot u(z, a);\nendmodule\n",
        top: None, broken: Some(BrokenLine { rule: 6, line: 4 }),
    },
    NetlistRow {
        shows: "two instances of one item",
        text: "module t(y, z, a);\noutput y, z; input a;\nbuf u(y, a),\nu(z, a);\nendmodule\n",
        top: None, broken: Some(BrokenLine { rule: 6, line: 4 }),
    },
    NetlistRow {
        shows: "two instances of modules",
        text: "module s; endmodule\nmodule t;\ns u();\ns v(),\nu();\nendmodule\n",
        top: None, broken: Some(BrokenLine { rule: 6, line: 5 }),
    },
    NetlistRow {
        shows: "an instance of a gate and one of a module",
        text: "module s; endmodule\nmodule t;\nwire y, a;\ntran u(y, a);\ns u();\nendmodule\n",
        top: None, broken: Some(BrokenLine { rule: 6, line: 5 }),
    },
    NetlistRow {
        shows: "instances of a primitive and of a pullup",
        text: "primitive p(o, i); output o; input i; table 0 : 0 ; 1 : 1 ; endtable endprimitive\nmodule t;\nwire y, a;\np u(y, a);\npullup u(y);\nendmodule\n",
        top: None, broken: Some(BrokenLine { rule: 6, line: 5 }),
    },
    NetlistRow {
        shows: "a net and an instance of a module of one name",
        text: "module s; endmodule\nmodule t;\ns u();\ntri u;\nendmodule\n",
        top: None, broken: Some(BrokenLine { rule: 6, line: 4 }),
    },
    NetlistRow {
        shows: "an implicit net and an instance",
        text: "module t(y, a);\noutput y; input a;\nbuf (u, a);\nbuf u(y, a);\nendmodule\n",
        top: None, broken: Some(BrokenLine { rule: 6, line: 4 }),
    },
    NetlistRow {
        shows: "an instance and an implicit net",
        text: "module t(y, a);\noutput y; input a;\nbuf u(y, a);\nbuf (u, a);\nendmodule\n",
        top: None, broken: Some(BrokenLine { rule: 6, line: 4 }),
    },
    NetlistRow {
        shows: "an instance and a terminal of it",
        text: "module t(y);\noutput y;\nbuf u(y,\nu);\nendmodule\n",
        top: None, broken: Some(BrokenLine { rule: 6, line: 4 }),
    },
    NetlistRow {
        shows: "an instance and a target",
        text: "module t(y, a);\noutput y; input a;\nbuf u(y, a);\nassign u = a;\nendmodule\n",
        top: None, broken: Some(BrokenLine { rule: 6, line: 4 }),
    },
    NetlistRow {
        shows: "a target and an instance",
        text: "module t(y, a);\noutput y; input a;\nassign u = a;\nbuf u(y, a);\nendmodule\n",
        top: None, broken: Some(BrokenLine { rule: 6, line: 4 }),
    },
    NetlistRow {
        shows: "an instance and a connection by order",
        text: "module s(p); input p; endmodule\nmodule t;\ns u(\nu);\nendmodule\n",
        top: None, broken: Some(BrokenLine { rule: 6, line: 4 }),
    },
    NetlistRow {
        shows: "an instance and a connection by name",
        text: "module s(p); input p; endmodule\nmodule t;\ns u(.p(w));\ns v(.p(u));\nendmodule\n",
        top: None, broken: Some(BrokenLine { rule: 6, line: 4 }),
    },
    NetlistRow {
        shows: "an implicit net in a concatenation and an instance",
        text: "module t(y, a);\noutput y; input a;\nassign {u, v} = a;\nbuf v(y, a);\nendmodule\n",
        top: None, broken: Some(BrokenLine { rule: 6, line: 4 }),
    },
    NetlistRow {
        shows: "an instance and two terminals: the first",
        text: "module t(y, a);\noutput y; input a;\nbuf u(y, a);\nbuf (u, a);\nbuf (u, y);\nendmodule\n",
        top: None, broken: Some(BrokenLine { rule: 6, line: 4 }),
    },
    NetlistRow {
        shows: "a terminal, an instance, and another terminal",
        text: "module t(y, a);\noutput y; input a;\nbuf (u, a);\nbuf u(y, a);\nbuf (z, u);\nendmodule\n",
        top: None, broken: Some(BrokenLine { rule: 6, line: 4 }),
    },
    NetlistRow {
        shows: "a terminal and two instances",
        text: "module t(y, a);\noutput y; input a;\nbuf (u, a);\nbuf u(y, a);\nbuf u(z, a);\nendmodule\n",
        top: None, broken: Some(BrokenLine { rule: 6, line: 4 }),
    },
    NetlistRow {
        shows: "an implicit net by a later token than a right side of an instance's name: names come first",
        text: "module t(y, a);\noutput y; input a;\nassign y = u;\nbuf u(z, a);\nbuf (u, a);\nendmodule\n",
        top: None, broken: Some(BrokenLine { rule: 6, line: 5 }),
    },
    NetlistRow {
        shows: "in a module before the top",
        text: "module s;\nwire a;\nwire a;\nendmodule\nmodule t; wire b;\ns u();\nwire b;\nendmodule\n",
        top: None, broken: Some(BrokenLine { rule: 6, line: 3 }),
    },
    NetlistRow {
        shows: "in a module behind the top",
        text: "module t; wire b;\ns u();\nendmodule\nmodule s;\nwire a;\nwire a;\nendmodule\n",
        top: None, broken: Some(BrokenLine { rule: 6, line: 6 }),
    },
    NetlistRow {
        shows: "a port's direction and a net",
        text: "module t(a, b);\ninput a;\nwire a;\ntri b;\noutput b;\nendmodule\n",
        top: None, broken: None,
    },
    NetlistRow {
        shows: "a header's direction and a net",
        text: "module t(input a, output b);\nwire a;\nsupply0 b;\nendmodule\n",
        top: None, broken: None,
    },
    NetlistRow {
        shows: "a port's direction and a trireg",
        text: "module t(a);\ninout a;\ntrireg (large) a;\nendmodule\n",
        top: None, broken: None,
    },
    NetlistRow {
        shows: "the type of implicit nets is no type of a direction",
        text: "`default_nettype tri0\nmodule t(a);\ninput a;\nwire a;\nendmodule\n",
        top: None, broken: None,
    },
    NetlistRow {
        shows: "one name in two modules",
        text: "module s; wire a; buf u(a, b); endmodule\nmodule t; wire a; buf v(a, b); s u(); endmodule\n",
        top: None, broken: None,
    },
    NetlistRow {
        shows: "gates and primitives without names",
        text: "primitive p(o, i); output o; input i; table 0 : 0 ; 1 : 1 ; endtable endprimitive\nmodule t(y, a); output y; input a; buf (y, a), (y, a); p (y, a); p (y, a); endmodule\n",
        top: None, broken: None,
    },
    NetlistRow {
        shows: "the name of a connection is no net",
        text: "module s(u); input u; endmodule\nmodule t; wire a; s u(.u(a)); endmodule\n",
        top: None, broken: None,
    },
    NetlistRow {
        shows: "names in a specify block",
        text: "module t(y, a); output y; input a; specify wire a; a u(a); wire a; endspecify buf u(y, a); endmodule\n",
        top: None, broken: None,
    },
    NetlistRow {
        shows: "a name and the same in capital letters are two",
        text: "module t; wire a; wire A; buf U(a, A); buf u(A, a); endmodule\n",
        top: None, broken: None,
    },
    NetlistRow {
        shows: "a name that stands twice, in a module that isn't reached",
        text: "module s; wire a; wire a; endmodule\nmodule t; endmodule\n",
        top: None, broken: None,
    },
    NetlistRow {
        shows: "an implicit net that is used often",
        text: "module t(a); input a; buf (w, a); buf (v, w); buf (x, w); assign {w} = w; endmodule\n",
        top: None, broken: None,
    },
];

pub(crate) fn rows() -> &'static [NetlistRow] {
    &ROWS
}
