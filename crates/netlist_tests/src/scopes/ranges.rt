//! Ranges of a port's direction and of its net.

use crate::rows::{BrokenLine, NetlistRow};

#[rattlefmt::skip]
static ROWS: [NetlistRow; 29] = [
    NetlistRow {
        shows: "a wider net behind the direction",
        text: "module t(a);\ninput [3:0] a;\nwire [7:0] a;\nendmodule\n",
        top: None, broken: Some(BrokenLine { rule: 18, line: 3 }),
    },
    NetlistRow {
        shows: "a wider direction behind the net",
        text: "module t(a);\nwire [3:0] a;\ninput [7:0] a;\nendmodule\n",
        top: None, broken: Some(BrokenLine { rule: 18, line: 3 }),
    },
    NetlistRow {
        shows: "a net without a range",
        text: "module t(a);\ninput [3:0] a;\nwire a;\nendmodule\n",
        top: None, broken: Some(BrokenLine { rule: 18, line: 3 }),
    },
    NetlistRow {
        shows: "a direction without a range",
        text: "module t(a);\ninput a;\nwire [3:0] a;\nendmodule\n",
        top: None, broken: Some(BrokenLine { rule: 18, line: 3 }),
    },
    NetlistRow {
        shows: "a net of one bit with a range, a direction without one",
        text: "module t(a);\ninput a;\nwire [0:0] a;\nendmodule\n",
        top: None, broken: Some(BrokenLine { rule: 18, line: 3 }),
    },
    NetlistRow {
        shows: "a direction of one bit with a range behind a net without one",
        text: "module t(a);\nwire a;\noutput [0:0] a;\nendmodule\n",
        top: None, broken: Some(BrokenLine { rule: 18, line: 3 }),
    },
    NetlistRow {
        shows: "ranges in two directions",
        text: "module t(a);\ninput [3:0] a;\nwire [0:3] a;\nendmodule\n",
        top: None, broken: Some(BrokenLine { rule: 18, line: 3 }),
    },
    NetlistRow {
        shows: "ranges of one width",
        text: "module t(a);\ninput [3:0] a;\nwire [4:1] a;\nendmodule\n",
        top: None, broken: Some(BrokenLine { rule: 18, line: 3 }),
    },
    NetlistRow {
        shows: "the left bound alone differs",
        text: "module t(a);\ninput [3:0] a;\nwire [2:0] a;\nendmodule\n",
        top: None, broken: Some(BrokenLine { rule: 18, line: 3 }),
    },
    NetlistRow {
        shows: "the right bound alone differs",
        text: "module t(a);\ninput [3:0] a;\nwire [3:1] a;\nendmodule\n",
        top: None, broken: Some(BrokenLine { rule: 18, line: 3 }),
    },
    NetlistRow {
        shows: "a trireg",
        text: "module t(a);\ninout [3:0] a;\ntrireg [2:0] a;\nendmodule\n",
        top: None, broken: Some(BrokenLine { rule: 18, line: 3 }),
    },
    NetlistRow {
        shows: "a trireg before the direction",
        text: "module t(a);\ntrireg (small) [2:0] a;\ninout\na;\nendmodule\n",
        top: None, broken: Some(BrokenLine { rule: 18, line: 4 }),
    },
    NetlistRow {
        shows: "a vectored net",
        text: "module t(a);\ninput [3:0] a;\nwire vectored [1:0] a;\nendmodule\n",
        top: None, broken: Some(BrokenLine { rule: 18, line: 3 }),
    },
    NetlistRow {
        shows: "a net with a value",
        text: "module t(y, a);\ninput a;\noutput [3:0] y;\nwire [7:0] y = a;\nendmodule\n",
        top: None, broken: Some(BrokenLine { rule: 18, line: 4 }),
    },
    NetlistRow {
        shows: "the second name of an item",
        text: "module t(a, b);\ninput [3:0] a, b;\nwire [3:0] a;\nwire [1:0] b;\nendmodule\n",
        top: None, broken: Some(BrokenLine { rule: 18, line: 4 }),
    },
    NetlistRow {
        shows: "two names of an item: the first",
        text: "module t(a, b);\ninput [3:0] a, b;\nwire [1:0]\nb,\na;\nendmodule\n",
        top: None, broken: Some(BrokenLine { rule: 18, line: 4 }),
    },
    NetlistRow {
        shows: "a header's range",
        text: "module t(input [3:0] a);\nwire a;\nendmodule\n",
        top: None, broken: Some(BrokenLine { rule: 18, line: 2 }),
    },
    NetlistRow {
        shows: "a header's direction without a range",
        text: "module t(input a);\nwire [3:0] a;\nendmodule\n",
        top: None, broken: Some(BrokenLine { rule: 18, line: 2 }),
    },
    NetlistRow {
        shows: "a header's name alone has the range before it",
        text: "module t(input [3:0] a, b);\nwire b;\nendmodule\n",
        top: None, broken: Some(BrokenLine { rule: 18, line: 2 }),
    },
    NetlistRow {
        shows: "a header's new direction has no range before it",
        text: "module t(input [3:0] a, output b);\nwire [3:0] b;\nendmodule\n",
        top: None, broken: Some(BrokenLine { rule: 18, line: 2 }),
    },
    NetlistRow {
        shows: "selects go by the first range",
        text: "module t(y, a);\noutput y;\ninput [7:0] a;\nwire [3:0] a;\nbuf (y, a[5]);\nendmodule\n",
        top: None, broken: Some(BrokenLine { rule: 18, line: 4 }),
    },
    NetlistRow {
        shows: "in a module before the top",
        text: "module s(a);\ninput [3:0] a;\nwire a;\nendmodule\nmodule t(b);\ninput [3:0] b; wire b;\ns u();\nendmodule\n",
        top: None, broken: Some(BrokenLine { rule: 18, line: 3 }),
    },
    NetlistRow {
        shows: "in a module behind the top",
        text: "module t;\ns u();\nendmodule\nmodule s(a);\ninput [3:0] a;\nwire a;\nendmodule\n",
        top: None, broken: Some(BrokenLine { rule: 18, line: 6 }),
    },
    NetlistRow {
        shows: "equal ranges",
        text: "module t(a, b, c);\ninput [3:0] a;\nwire [3:0] a;\ntri [0:7] b;\noutput [0:7] b;\ninout [5:5] c;\ntrireg [5:5] c;\nendmodule\n",
        top: None, broken: None,
    },
    NetlistRow {
        shows: "equal ranges that are written in two ways",
        text: "module t(a);\ninput [10:0] a;\nwire [1_0:00] a;\nendmodule\n",
        top: None, broken: None,
    },
    NetlistRow {
        shows: "equal ranges with a word before one",
        text: "module t(a, b);\ninput [3:0] a, b;\nwire scalared [3:0] a;\ntri vectored [3:0] b;\nendmodule\n",
        top: None, broken: None,
    },
    NetlistRow {
        shows: "no range at both",
        text: "module t(a, input_b);\ninput a;\noutput input_b;\nwire a, input_b;\nendmodule\n",
        top: None, broken: None,
    },
    NetlistRow {
        shows: "equal ranges of a header and of nets",
        text: "module t(input [3:0] a, b, output c);\nwire [3:0] a, b;\nwire c;\nendmodule\n",
        top: None, broken: None,
    },
    NetlistRow {
        shows: "ranges that differ in a module that isn't reached",
        text: "module s(a);\ninput [3:0] a;\nwire a;\nendmodule\nmodule t; endmodule\n",
        top: None, broken: None,
    },
];

pub(crate) fn rows() -> &'static [NetlistRow] {
    &ROWS
}
