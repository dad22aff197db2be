//! Drives and levels.

use crate::rows::{BrokenLine, NetlistRow};

#[rattlefmt::skip]
static ROWS: [NetlistRow; 27] = [
    NetlistRow {
        shows: "one level for 0 and one for 1",
        text: "module t;\nbuf\n(strong0, pull1) (a, b);\nendmodule\n",
        top: None, broken: None,
    },
    NetlistRow {
        shows: "one level for 1 and one for 0",
        text: "module t;\nbuf\n(weak1, supply0) (a, b);\nendmodule\n",
        top: None, broken: None,
    },
    NetlistRow {
        shows: "highz for 0",
        text: "module t;\nbuf\n(highz0, pull1) (a, b);\nendmodule\n",
        top: None, broken: None,
    },
    NetlistRow {
        shows: "highz for 1",
        text: "module t;\nbuf\n(pull0, highz1) (a, b);\nendmodule\n",
        top: None, broken: None,
    },
    NetlistRow {
        shows: "two levels for 0",
        text: "module t;\nbuf\n(strong0, pull0) (a, b);\nendmodule\n",
        top: None, broken: Some(BrokenLine { rule: 12, line: 3 }),
    },
    NetlistRow {
        shows: "two levels for 1",
        text: "module t;\nbuf\n(strong1, strong1) (a, b);\nendmodule\n",
        top: None, broken: Some(BrokenLine { rule: 12, line: 3 }),
    },
    NetlistRow {
        shows: "both highz",
        text: "module t;\nbuf\n(highz0, highz1) (a, b);\nendmodule\n",
        top: None, broken: Some(BrokenLine { rule: 12, line: 3 }),
    },
    NetlistRow {
        shows: "both highz the other way round",
        text: "module t;\nbuf\n(highz1, highz0) (a, b);\nendmodule\n",
        top: None, broken: Some(BrokenLine { rule: 12, line: 3 }),
    },
    NetlistRow {
        shows: "two levels for 1 of an assignment",
        text: "module t;\nwire b;\nassign\n(strong1, pull1) a = b;\nendmodule\n",
        top: None, broken: Some(BrokenLine { rule: 12, line: 4 }),
    },
    NetlistRow {
        shows: "two levels for 0 of a net with a value",
        text: "module t;\nwire b;\nwire\n(strong0, pull0) a = b;\nendmodule\n",
        top: None, broken: Some(BrokenLine { rule: 12, line: 4 }),
    },
    NetlistRow {
        shows: "a right drive of a net with a value",
        text: "module t;\nwire b;\nwire (strong0, pull1) a = b;\nendmodule\n",
        top: None, broken: None,
    },
    NetlistRow {
        shows: "a drive of a net without value",
        text: "module t;\nwire\n(strong0, pull1) a;\nendmodule\n",
        top: None, broken: Some(BrokenLine { rule: 12, line: 3 }),
    },
    NetlistRow {
        shows: "a wrong drive of a primitive",
        text: "module t;\nu\n(highz0, highz1) (o, a, b);\nendmodule\nprimitive u(o, a, b);\noutput o;\ninput a, b;\ntable\n0 ? : 0;\n1 1 : 1;\nendtable\nendprimitive\n",
        top: None, broken: Some(BrokenLine { rule: 12, line: 3 }),
    },
    NetlistRow {
        shows: "a right drive of a primitive",
        text: "module t;\nu (strong0, highz1) (o, a, b);\nendmodule\nprimitive u(o, a, b);\noutput o;\ninput a, b;\ntable\n0 ? : 0;\n1 1 : 1;\nendtable\nendprimitive\n",
        top: None, broken: None,
    },
    NetlistRow {
        shows: "a pullup without levels",
        text: "module t;\npullup (a);\npulldown (b);\nendmodule\n",
        top: None, broken: None,
    },
    NetlistRow {
        shows: "a pullup with one for 1",
        text: "module t;\npullup (strong1) (a);\npulldown (strong0) (b);\nendmodule\n",
        top: None, broken: None,
    },
    NetlistRow {
        shows: "a pullup with one for each",
        text: "module t;\npullup (strong1, weak0) (a), (c);\npulldown (strong0, weak1) (b);\nendmodule\n",
        top: None, broken: None,
    },
    NetlistRow {
        shows: "a pullup with one for each the other way round",
        text: "module t;\npullup (weak0, strong1) (a);\npulldown (weak1, strong0) (b);\nendmodule\n",
        top: None, broken: None,
    },
    NetlistRow {
        shows: "a pullup with one for 0",
        text: "module t;\npullup\n(strong0) (a);\nendmodule\n",
        top: None, broken: Some(BrokenLine { rule: 12, line: 3 }),
    },
    NetlistRow {
        shows: "a pulldown with one for 1",
        text: "module t;\npulldown\n(strong1) (a);\nendmodule\n",
        top: None, broken: Some(BrokenLine { rule: 12, line: 3 }),
    },
    NetlistRow {
        shows: "a pullup with two for 1",
        text: "module t;\npullup\n(strong1, weak1) (a);\nendmodule\n",
        top: None, broken: Some(BrokenLine { rule: 12, line: 3 }),
    },
    NetlistRow {
        shows: "a pulldown with two for 0",
        text: "module t;\npulldown\n(strong0, weak0) (a);\nendmodule\n",
        top: None, broken: Some(BrokenLine { rule: 12, line: 3 }),
    },
    NetlistRow {
        shows: "a pullup with highz",
        text: "module t;\npullup\n(highz1) (a);\nendmodule\n",
        top: None, broken: Some(BrokenLine { rule: 12, line: 3 }),
    },
    NetlistRow {
        shows: "a pullup with highz and a level for 0",
        text: "module t;\npullup\n(strong0, highz1) (a);\nendmodule\n",
        top: None, broken: Some(BrokenLine { rule: 12, line: 3 }),
    },
    NetlistRow {
        shows: "a pullup with highz for 0",
        text: "module t;\npullup (strong1, highz0) (a);\nendmodule\n",
        top: None, broken: None,
    },
    NetlistRow {
        shows: "a pulldown with highz",
        text: "module t;\npulldown\n(highz0, strong1) (a);\nendmodule\n",
        top: None, broken: Some(BrokenLine { rule: 12, line: 3 }),
    },
    NetlistRow {
        shows: "a pulldown with highz for 1",
        text: "module t;\npulldown (strong0, highz1) (a);\nendmodule\n",
        top: None, broken: None,
    },
];

/// The rows.
pub(crate) fn rows() -> &'static [NetlistRow] {
    &ROWS
}
