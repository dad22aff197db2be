//! Selects and the ranges of their nets.

use crate::rows::{BrokenLine, NetlistRow};

#[rattlefmt::skip]
static ROWS: [NetlistRow; 49] = [
    NetlistRow {
        shows: "a bit of a scalar",
        text: "module t(y, a);\noutput y; input a;\nwire w;\nbuf (y, w[0]);\nendmodule\n",
        top: None, broken: Some(BrokenLine { rule: 8, line: 4 }),
    },
    NetlistRow {
        shows: "bits of a scalar",
        text: "module t(y, a);\noutput y; input a;\nwire w;\nassign y = w[0:0];\nendmodule\n",
        top: None, broken: Some(BrokenLine { rule: 8, line: 4 }),
    },
    NetlistRow {
        shows: "a bit of a scalar port",
        text: "module t(y, a);\noutput y; input a;\nbuf (y,\na[0]);\nendmodule\n",
        top: None, broken: Some(BrokenLine { rule: 8, line: 4 }),
    },
    NetlistRow {
        shows: "a bit of a scalar trireg",
        text: "module t(y, a);\noutput y; input a;\ntrireg w;\nbuf (y, w[1]);\nendmodule\n",
        top: None, broken: Some(BrokenLine { rule: 8, line: 4 }),
    },
    NetlistRow {
        shows: "a bit of an implicit net",
        text: "module t(y, a);\noutput y; input a;\nbuf (w, a);\nbuf (y, w[0]);\nendmodule\n",
        top: None, broken: Some(BrokenLine { rule: 8, line: 4 }),
    },
    NetlistRow {
        shows: "a bit of an implicit net in the same terminals",
        text: "module t(y, a);\noutput y; input a;\nbuf (w,\nw[0]);\nendmodule\n",
        top: None, broken: Some(BrokenLine { rule: 8, line: 4 }),
    },
    NetlistRow {
        shows: "a bit of an implicit net at its own target",
        text: "module t(y, a);\noutput y; input a;\nassign w =\nw[0];\nendmodule\n",
        top: None, broken: Some(BrokenLine { rule: 8, line: 4 }),
    },
    NetlistRow {
        shows: "a bit above a falling range",
        text: "module t(y, a);\noutput y; input a;\nwire [3:0] w;\nbuf (y, w[4]);\nendmodule\n",
        top: None, broken: Some(BrokenLine { rule: 8, line: 4 }),
    },
    NetlistRow {
        shows: "a bit below a falling range",
        text: "module t(y, a);\noutput y; input a;\nwire [7:4] w;\nbuf (y, w[3]);\nendmodule\n",
        top: None, broken: Some(BrokenLine { rule: 8, line: 4 }),
    },
    NetlistRow {
        shows: "a bit above a rising range",
        text: "module t(y, a);\noutput y; input a;\nwire [0:3] w;\nbuf (y, w[4]);\nendmodule\n",
        top: None, broken: Some(BrokenLine { rule: 8, line: 4 }),
    },
    NetlistRow {
        shows: "a bit below a rising range",
        text: "module t(y, a);\noutput y; input a;\nwire [2:3] w;\nbuf (y, w[1]);\nendmodule\n",
        top: None, broken: Some(BrokenLine { rule: 8, line: 4 }),
    },
    NetlistRow {
        shows: "a bit beside a range of one bit",
        text: "module t(y, a);\noutput y; input a;\nwire [5:5] w;\nbuf (y, w[4]);\nendmodule\n",
        top: None, broken: Some(BrokenLine { rule: 8, line: 4 }),
    },
    NetlistRow {
        shows: "bits from above a falling range",
        text: "module t(y, a);\noutput y; input a;\nwire [3:0] w;\nassign y = w[4:0];\nendmodule\n",
        top: None, broken: Some(BrokenLine { rule: 8, line: 4 }),
    },
    NetlistRow {
        shows: "bits to below a falling range",
        text: "module t(y, a);\noutput y; input a;\nwire [7:4] w;\nassign y = w[5:3];\nendmodule\n",
        top: None, broken: Some(BrokenLine { rule: 8, line: 4 }),
    },
    NetlistRow {
        shows: "bits to above a rising range",
        text: "module t(y, a);\noutput y; input a;\nwire [0:3] w;\nassign y = w[2:4];\nendmodule\n",
        top: None, broken: Some(BrokenLine { rule: 8, line: 4 }),
    },
    NetlistRow {
        shows: "bits from below a rising range",
        text: "module t(y, a);\noutput y; input a;\nwire [4:7] w;\nassign y = w[3:5];\nendmodule\n",
        top: None, broken: Some(BrokenLine { rule: 8, line: 4 }),
    },
    NetlistRow {
        shows: "bits beyond both ends",
        text: "module t(y, a);\noutput y; input a;\nwire [2:1] w;\nassign y = w[3:0];\nendmodule\n",
        top: None, broken: Some(BrokenLine { rule: 8, line: 4 }),
    },
    NetlistRow {
        shows: "bits wholly outside",
        text: "module t(y, a);\noutput y; input a;\nwire [3:0] w;\nassign y = w[9:8];\nendmodule\n",
        top: None, broken: Some(BrokenLine { rule: 8, line: 4 }),
    },
    NetlistRow {
        shows: "bits against a falling range",
        text: "module t(y, a);\noutput y; input a;\nwire [3:0] w;\nassign y = w[0:3];\nendmodule\n",
        top: None, broken: Some(BrokenLine { rule: 8, line: 4 }),
    },
    NetlistRow {
        shows: "bits against a rising range",
        text: "module t(y, a);\noutput y; input a;\nwire [0:3] w;\nassign y = w[2:1];\nendmodule\n",
        top: None, broken: Some(BrokenLine { rule: 8, line: 4 }),
    },
    NetlistRow {
        shows: "bits against a falling range that doesn't end at 0",
        text: "module t(y, a);\noutput y; input a;\nwire [9:6] w;\nassign y = w[7:8];\nendmodule\n",
        top: None, broken: Some(BrokenLine { rule: 8, line: 4 }),
    },
    NetlistRow {
        shows: "a target",
        text: "module t(y, a);\noutput y; input a;\nwire [3:0] w;\nassign y = a,\nw[4] = a;\nendmodule\n",
        top: None, broken: Some(BrokenLine { rule: 8, line: 5 }),
    },
    NetlistRow {
        shows: "a target in a concatenation",
        text: "module t(y, a);\noutput y; input a;\nwire [3:0] w;\nassign {w[3],\nw[0:1]} = a;\nendmodule\n",
        top: None, broken: Some(BrokenLine { rule: 8, line: 5 }),
    },
    NetlistRow {
        shows: "a right side in a concatenation",
        text: "module t(y, a);\noutput y; input a;\nwire [3:0] w;\nassign y = {w[3:0], w[2:1],\nw[1:2]};\nendmodule\n",
        top: None, broken: Some(BrokenLine { rule: 8, line: 5 }),
    },
    NetlistRow {
        shows: "the value of a net",
        text: "module t(y, a);\noutput y; input a;\nwire [3:0] w;\nwire v = w[7];\nendmodule\n",
        top: None, broken: Some(BrokenLine { rule: 8, line: 4 }),
    },
    NetlistRow {
        shows: "a connection by order",
        text: "module s(p); input p; endmodule\nmodule t(y, a);\noutput y; input a;\nwire [3:0] w;\ns u(\nw[4]);\nendmodule\n",
        top: None, broken: Some(BrokenLine { rule: 8, line: 6 }),
    },
    NetlistRow {
        shows: "a connection by name",
        text: "module s(p); input p; endmodule\nmodule t(y, a);\noutput y; input a;\nwire [3:0] w;\ns u(.p(w[3])), v(.p(\nw[4]));\nendmodule\n",
        top: None, broken: Some(BrokenLine { rule: 8, line: 6 }),
    },
    NetlistRow {
        shows: "a terminal of a primitive",
        text: "primitive p(o, i); output o; input i; table 0 : 0 ; 1 : 1 ; endtable endprimitive\nmodule t(y, a);\noutput y; input a;\np u(y,\na[1]);\nendmodule\n",
        top: None, broken: Some(BrokenLine { rule: 8, line: 5 }),
    },
    NetlistRow {
        shows: "two selects: the first",
        text: "module t(y, a);\noutput y; input a;\nwire [3:0] w;\nbuf (y, w[4]);\nbuf (y, a[0]);\nendmodule\n",
        top: None, broken: Some(BrokenLine { rule: 8, line: 4 }),
    },
    NetlistRow {
        shows: "a range that is declared behind the select",
        text: "module t(y, a);\noutput y; input a;\nbuf (y, w[4]);\nwire [3:0] w;\nendmodule\n",
        top: None, broken: Some(BrokenLine { rule: 8, line: 3 }),
    },
    NetlistRow {
        shows: "a port's range at its direction",
        text: "module t(y, a);\noutput y;\ninput [3:0] a;\nbuf (y, a[4]);\nendmodule\n",
        top: None, broken: Some(BrokenLine { rule: 8, line: 4 }),
    },
    NetlistRow {
        shows: "a header's name alone has the range before it",
        text: "module t(output y, input [3:0] a, b);\nbuf (y, b[3]);\nbuf (y, b[4]);\nendmodule\n",
        top: None, broken: Some(BrokenLine { rule: 8, line: 3 }),
    },
    NetlistRow {
        shows: "a header's new direction has no range before it",
        text: "module t(input [3:0] a, output b);\nbuf (b,\nb[0]);\nendmodule\n",
        top: None, broken: Some(BrokenLine { rule: 8, line: 3 }),
    },
    NetlistRow {
        shows: "a range of a direction and one of a net: the direction is the first",
        text: "module t(y, a);\noutput y;\ninput [3:0] a;\nwire [7:0] a;\nbuf (y, a[5]);\nendmodule\n",
        top: None, broken: Some(BrokenLine { rule: 8, line: 5 }),
    },
    NetlistRow {
        shows: "a range of a net and one of a direction: the net is the first",
        text: "module t(y, a);\noutput y;\nwire [3:0] a;\ninput [7:0] a;\nbuf (y, a[5]);\nendmodule\n",
        top: None, broken: Some(BrokenLine { rule: 8, line: 5 }),
    },
    NetlistRow {
        shows: "a direction without a range and a net with one",
        text: "module t(y, a);\noutput y;\ninput a;\nwire [7:0] a;\nbuf (y, a[5]);\nendmodule\n",
        top: None, broken: Some(BrokenLine { rule: 8, line: 5 }),
    },
    NetlistRow {
        shows: "a net without a range and a direction with one",
        text: "module t(y, a);\noutput y;\nbuf (y, a[1]);\nwire a;\ninput [7:0] a;\nendmodule\n",
        top: None, broken: Some(BrokenLine { rule: 8, line: 3 }),
    },
    NetlistRow {
        shows: "a header's range and a net's: the header is the first",
        text: "module t(output y, input [0:3] a);\nwire [3:0] a;\nassign y = a[2:1];\nendmodule\n",
        top: None, broken: Some(BrokenLine { rule: 8, line: 3 }),
    },
    NetlistRow {
        shows: "in a module before the top",
        text: "module s;\nwire w;\nbuf (y, w[0]);\nendmodule\nmodule t; wire w;\ns u();\nbuf (y, w[0]);\nendmodule\n",
        top: None, broken: Some(BrokenLine { rule: 8, line: 3 }),
    },
    NetlistRow {
        shows: "in a module behind the top",
        text: "module t;\ns u();\nendmodule\nmodule s;\nwire w;\nbuf (y, w[0]);\nendmodule\n",
        top: None, broken: Some(BrokenLine { rule: 8, line: 6 }),
    },
    NetlistRow {
        shows: "each bit and bits along a falling range",
        text: "module t(y, a);\noutput y; input a;\nwire [3:0] w;\nbuf (y, w[0]), (y, w[3]), (y, w[1]);\nassign w[3:0] = w[2:1], y = w[3:0];\nendmodule\n",
        top: None, broken: None,
    },
    NetlistRow {
        shows: "each bit and bits along a rising range",
        text: "module t(y, a);\noutput y; input a;\nwire [0:3] w;\nbuf (y, w[0]), (y, w[3]), (y, w[2]);\nassign w[0:3] = w[1:2], y = w[0:3];\nendmodule\n",
        top: None, broken: None,
    },
    NetlistRow {
        shows: "equal bounds in either range",
        text: "module t(y, a);\noutput y; input a;\nwire [3:0] w;\nwire [0:3] v;\nassign y = w[2:2], y = v[2:2], w[0:0] = a, v[3:3] = a;\nendmodule\n",
        top: None, broken: None,
    },
    NetlistRow {
        shows: "a range of one bit",
        text: "module t(y, a);\noutput y; input a;\nwire [5:5] w;\nbuf (y, w[5]);\nassign w[5:5] = w[5];\nendmodule\n",
        top: None, broken: None,
    },
    NetlistRow {
        shows: "a range that doesn't end at 0",
        text: "module t(y, a);\noutput y; input a;\nwire [12:9] w;\nassign y = w[12], y = w[9], y = w[11:10];\nendmodule\n",
        top: None, broken: None,
    },
    NetlistRow {
        shows: "vectored and scalared nets",
        text: "module t(y, a);\noutput y; input a;\nwire vectored [3:0] w;\ntri scalared [0:3] v;\nbuf (y, w[3]), (y, v[0]);\nendmodule\n",
        top: None, broken: None,
    },
    NetlistRow {
        shows: "ranges of ports, triregs and supplies",
        text: "module t(a, y);\ninput [1:0] a;\noutput y;\ntrireg [4:1] c;\nsupply1 [0:1] s;\nbuf (y, a[1]), (y, c[4]), (y, s[1]);\nendmodule\n",
        top: None, broken: None,
    },
    NetlistRow {
        shows: "a number with low lines and zeros before it",
        text: "module t(y, a);\noutput y; input a;\nwire [1_0:00] w;\nbuf (y, w[010]), (y, w[0_9]);\nendmodule\n",
        top: None, broken: None,
    },
    NetlistRow {
        shows: "selects in a module that isn't reached",
        text: "module s; wire w; buf (y, w[0]); endmodule\nmodule t; endmodule\n",
        top: None, broken: None,
    },
];

pub(crate) fn rows() -> &'static [NetlistRow] {
    &ROWS
}
