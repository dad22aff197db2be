//! Headers and directions.

use crate::rows::{BrokenLine, NetlistRow};

#[rattlefmt::skip]
static ROWS: [NetlistRow; 44] = [
    NetlistRow {
        shows: "no direction",
        text: "module t(a);\nendmodule\n",
        top: None, broken: Some(BrokenLine { rule: 5, line: 1 }),
    },
    NetlistRow {
        shows: "the second of two has no direction",
        text: "module t(a,\nb);\ninput a;\nendmodule\n",
        top: None, broken: Some(BrokenLine { rule: 5, line: 2 }),
    },
    NetlistRow {
        shows: "the first of two has no direction",
        text: "module t(\na,\nb);\ninput b;\nendmodule\n",
        top: None, broken: Some(BrokenLine { rule: 5, line: 2 }),
    },
    NetlistRow {
        shows: "a net declaration is no direction",
        text: "module t(\na);\nwire a;\nendmodule\n",
        top: None, broken: Some(BrokenLine { rule: 5, line: 2 }),
    },
    NetlistRow {
        shows: "a use is no direction",
        text: "module t(\na, b);\ninput b;\nbuf (a, b);\nendmodule\n",
        top: None, broken: Some(BrokenLine { rule: 5, line: 2 }),
    },
    NetlistRow {
        shows: "two directions",
        text: "module t(\na);\ninput a;\noutput a;\nendmodule\n",
        top: None, broken: Some(BrokenLine { rule: 5, line: 2 }),
    },
    NetlistRow {
        shows: "two equal directions",
        text: "module t(\na);\ninput a;\ninput a;\nendmodule\n",
        top: None, broken: Some(BrokenLine { rule: 5, line: 2 }),
    },
    NetlistRow {
        shows: "two directions in one item",
        text: "module t(b,\na);\ninput a, b, a;\nendmodule\n",
        top: None, broken: Some(BrokenLine { rule: 5, line: 2 }),
    },
    NetlistRow {
        shows: "three directions",
        text: "module t(\na);\ninput a;\noutput a;\ninout a;\nendmodule\n",
        top: None, broken: Some(BrokenLine { rule: 5, line: 2 }),
    },
    NetlistRow {
        shows: "two directions with types",
        text: "module t(\na);\ninput wire a;\ninput wire a;\nendmodule\n",
        top: None, broken: Some(BrokenLine { rule: 5, line: 2 }),
    },
    NetlistRow {
        shows: "twice in the header: the second",
        text: "module t(a,\na);\ninput a;\nendmodule\n",
        top: None, broken: Some(BrokenLine { rule: 5, line: 2 }),
    },
    NetlistRow {
        shows: "three times in the header: the second",
        text: "module t(a,\na,\na);\ninput a;\nendmodule\n",
        top: None, broken: Some(BrokenLine { rule: 5, line: 2 }),
    },
    NetlistRow {
        shows: "twice in the header, without a direction",
        text: "module t(\na,\na);\nendmodule\n",
        top: None, broken: Some(BrokenLine { rule: 5, line: 3 }),
    },
    NetlistRow {
        shows: "twice in the header, with two directions",
        text: "module t(\na,\na);\ninput a;\noutput a;\nendmodule\n",
        top: None, broken: Some(BrokenLine { rule: 5, line: 3 }),
    },
    NetlistRow {
        shows: "twice in the header, behind one without a direction",
        text: "module t(\nb,\na,\na);\ninput a;\nendmodule\n",
        top: None, broken: Some(BrokenLine { rule: 5, line: 2 }),
    },
    NetlistRow {
        shows: "twice in the header, around one without a direction",
        text: "module t(a,\nb,\na);\ninput a;\nendmodule\n",
        top: None, broken: Some(BrokenLine { rule: 5, line: 2 }),
    },
    NetlistRow {
        shows: "twice in the header, before one without a direction",
        text: "module t(a,\na,\nb);\ninput a;\nendmodule\n",
        top: None, broken: Some(BrokenLine { rule: 5, line: 2 }),
    },
    NetlistRow {
        shows: "two names stand twice: the least second place",
        text: "module t(a, b,\nb,\na);\ninput a, b;\nendmodule\n",
        top: None, broken: Some(BrokenLine { rule: 5, line: 2 }),
    },
    NetlistRow {
        shows: "a direction of no header port",
        text: "module t(a);\ninput a;\ninput b;\nendmodule\n",
        top: None, broken: Some(BrokenLine { rule: 5, line: 3 }),
    },
    NetlistRow {
        shows: "a direction in a module without a header",
        text: "module t;\ninput\na;\nendmodule\n",
        top: None, broken: Some(BrokenLine { rule: 5, line: 3 }),
    },
    NetlistRow {
        shows: "a direction in a module with an empty header",
        text: "module t();\noutput a;\nendmodule\n",
        top: None, broken: Some(BrokenLine { rule: 5, line: 2 }),
    },
    NetlistRow {
        shows: "a direction of a net",
        text: "module t;\nwire a;\ninput a;\nendmodule\n",
        top: None, broken: Some(BrokenLine { rule: 5, line: 3 }),
    },
    NetlistRow {
        shows: "a direction of an instance",
        text: "module t;\nwire y, a;\nbuf g(y, a);\ninput g;\nendmodule\n",
        top: None, broken: Some(BrokenLine { rule: 5, line: 4 }),
    },
    NetlistRow {
        shows: "a direction of no header port among others",
        text: "module t(a, c);\ninput a,\nb,\nc;\nendmodule\n",
        top: None, broken: Some(BrokenLine { rule: 5, line: 3 }),
    },
    NetlistRow {
        shows: "two directions of no header port: the first",
        text: "module t;\noutput b;\ninput a;\noutput b;\nendmodule\n",
        top: None, broken: Some(BrokenLine { rule: 5, line: 2 }),
    },
    NetlistRow {
        shows: "a header port without a direction and a direction of no header port",
        text: "module t(\na);\ninput b;\nendmodule\n",
        top: None, broken: Some(BrokenLine { rule: 5, line: 2 }),
    },
    NetlistRow {
        shows: "a direction of the name in capital letters",
        text: "module t(\na);\ninput A;\nendmodule\n",
        top: None, broken: Some(BrokenLine { rule: 5, line: 2 }),
    },
    NetlistRow {
        shows: "a header of declarations: twice",
        text: "module t(input a,\noutput b,\ninput a);\nendmodule\n",
        top: None, broken: Some(BrokenLine { rule: 5, line: 3 }),
    },
    NetlistRow {
        shows: "a header of declarations: a name alone stands twice",
        text: "module t(input a,\na);\nendmodule\n",
        top: None, broken: Some(BrokenLine { rule: 5, line: 2 }),
    },
    NetlistRow {
        shows: "a header of declarations: twice with other directions",
        text: "module t(input a,\noutput a);\nendmodule\n",
        top: None, broken: Some(BrokenLine { rule: 5, line: 2 }),
    },
    NetlistRow {
        shows: "a header of declarations and a direction of its port",
        text: "module t(input\na,\noutput b);\ninput a;\nendmodule\n",
        top: None, broken: Some(BrokenLine { rule: 5, line: 2 }),
    },
    NetlistRow {
        shows: "a header of declarations and a direction of its name alone",
        text: "module t(input b,\na);\noutput a;\nendmodule\n",
        top: None, broken: Some(BrokenLine { rule: 5, line: 2 }),
    },
    NetlistRow {
        shows: "a header of declarations and a direction of another name",
        text: "module t(input a);\n\noutput b;\nendmodule\n",
        top: None, broken: Some(BrokenLine { rule: 5, line: 3 }),
    },
    NetlistRow {
        shows: "a header of declarations: twice, and a direction",
        text: "module t(input a,\na);\ninput a;\nendmodule\n",
        top: None, broken: Some(BrokenLine { rule: 5, line: 2 }),
    },
    NetlistRow {
        shows: "in a module that stands before the top",
        text: "module s(\na);\nendmodule\nmodule t(b);\ns u();\nendmodule\n",
        top: None, broken: Some(BrokenLine { rule: 5, line: 2 }),
    },
    NetlistRow {
        shows: "in a module that stands behind the top",
        text: "module t;\ns u();\nendmodule\nmodule s(a);\ninput a;\ninput b;\nendmodule\n",
        top: None, broken: Some(BrokenLine { rule: 5, line: 6 }),
    },
    NetlistRow {
        shows: "in the chosen module",
        text: "module s(\na);\nendmodule\nmodule t; endmodule\n",
        top: Some("s"), broken: Some(BrokenLine { rule: 5, line: 2 }),
    },
    NetlistRow {
        shows: "in a module that the top doesn't reach",
        text: "module s(a, b, a);\ninput c;\nendmodule\nmodule t; endmodule\n",
        top: None, broken: None,
    },
    NetlistRow {
        shows: "an escaped name in the header",
        text: "module t(\\a , b);\ninput a;\ninput \\b ;\nendmodule\n",
        top: None, broken: None,
    },
    NetlistRow {
        shows: "each direction, with and without types",
        text: "module t(a, b, c, d);\ninput a;\noutput wire b;\ninout tri c;\noutput d;\nendmodule\n",
        top: None, broken: None,
    },
    NetlistRow {
        shows: "a direction between and behind other items",
        text: "module t(a, b);\nbuf (b, a);\noutput b;\nwire w;\ninput a;\nendmodule\n",
        top: None, broken: None,
    },
    NetlistRow {
        shows: "a header of declarations and of names alone",
        text: "module t(input a, b, output wire [3:0] c, d, inout e);\nendmodule\n",
        top: None, broken: None,
    },
    NetlistRow {
        shows: "ports of one name in two modules",
        text: "module s(a); input a; endmodule\nmodule t(a); input a; s u(a); endmodule\n",
        top: None, broken: None,
    },
    NetlistRow {
        shows: "a primitive has ports of its own rules",
        text: "primitive q(o, i); output o; input i; table 0 : 0 ; 1 : 1 ; endtable endprimitive\nmodule t(a); input a; wire y; q u(y, a); endmodule\n",
        top: None, broken: None,
    },
];

pub(crate) fn rows() -> &'static [NetlistRow] {
    &ROWS
}
