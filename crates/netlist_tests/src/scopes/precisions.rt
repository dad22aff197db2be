//! Precisions and units of directives.

use crate::rows::{BrokenLine, NetlistRow};

#[rattlefmt::skip]
static ROWS: [NetlistRow; 21] = [
    NetlistRow {
        shows: "1ps / 1ns",
        text: "`timescale 1ps/1ns\nmodule t;\nendmodule\n",
        top: None, broken: Some(BrokenLine { rule: 19, line: 1 }),
    },
    NetlistRow {
        shows: "1ns / 10ns",
        text: "`timescale 1ns/10ns\nmodule t;\nendmodule\n",
        top: None, broken: Some(BrokenLine { rule: 19, line: 1 }),
    },
    NetlistRow {
        shows: "10ns / 100ns",
        text: "\n`timescale 10ns/100ns\nmodule t;\nendmodule\n",
        top: None, broken: Some(BrokenLine { rule: 19, line: 2 }),
    },
    NetlistRow {
        shows: "100ps / 1ns",
        text: "\n\n`timescale 100ps/1ns\nmodule t;\nendmodule\n",
        top: None, broken: Some(BrokenLine { rule: 19, line: 3 }),
    },
    NetlistRow {
        shows: "100us / 1ms",
        text: "`timescale 100us/1ms\nmodule t;\nendmodule\n",
        top: None, broken: Some(BrokenLine { rule: 19, line: 1 }),
    },
    NetlistRow {
        shows: "10 s / 100 s",
        text: "`timescale 10 s / 100 s\nmodule t;\nendmodule\n",
        top: None, broken: Some(BrokenLine { rule: 19, line: 1 }),
    },
    NetlistRow {
        shows: "1fs / 100s",
        text: "`timescale 1fs/100s\nmodule t;\nendmodule\n",
        top: None, broken: Some(BrokenLine { rule: 19, line: 1 }),
    },
    NetlistRow {
        shows: "the place is the directive",
        text: "\n`timescale\n1\nps\n/\n1\nns\nmodule t;\nendmodule\n",
        top: None, broken: Some(BrokenLine { rule: 19, line: 2 }),
    },
    NetlistRow {
        shows: "behind the last module",
        text: "module t;\nendmodule\n\n`timescale 1ps/1ns\n",
        top: None, broken: Some(BrokenLine { rule: 19, line: 4 }),
    },
    NetlistRow {
        shows: "between two modules that aren't reached",
        text: "module a;\nendmodule\n`timescale 1ps/1ns\nmodule b;\nendmodule\nmodule t;\nendmodule\n",
        top: None, broken: Some(BrokenLine { rule: 19, line: 3 }),
    },
    NetlistRow {
        shows: "two of them: the first",
        text: "module t;\nendmodule\n`timescale 1ps/1ns\n`timescale 1ps/1us\n",
        top: None, broken: Some(BrokenLine { rule: 19, line: 3 }),
    },
    NetlistRow {
        shows: "the second of two directives",
        text: "`timescale 1ns/1ps\nmodule t;\nendmodule\n`timescale 1ns/1us\n",
        top: None, broken: Some(BrokenLine { rule: 19, line: 4 }),
    },
    NetlistRow {
        shows: "the first of two directives",
        text: "`timescale 1ns/1us\n`timescale 1ns/1ps\nmodule t;\nendmodule\n",
        top: None, broken: Some(BrokenLine { rule: 19, line: 1 }),
    },
    NetlistRow {
        shows: "a directive that resetall takes back",
        text: "`timescale 1ps/1ns\n`resetall\nmodule t;\nendmodule\n",
        top: None, broken: Some(BrokenLine { rule: 19, line: 1 }),
    },
    NetlistRow {
        shows: "names of units that are written escaped",
        text: "`timescale 1 \\ps /1 \\ns \nmodule t;\nendmodule\n",
        top: None, broken: Some(BrokenLine { rule: 19, line: 1 }),
    },
    NetlistRow {
        shows: "a directive with a precision that is finer than another's unit",
        text: "`timescale 1fs/1fs\n`timescale 1ps/10ps\nmodule t;\nendmodule\n",
        top: None, broken: Some(BrokenLine { rule: 19, line: 2 }),
    },
    NetlistRow {
        shows: "equal unit and precision",
        text: "`timescale 1ns/1ns\nmodule t; endmodule\n`timescale 100fs/100fs\n`timescale 10 s/10 s\n",
        top: None, broken: None,
    },
    NetlistRow {
        shows: "100s / 1fs",
        text: "`timescale 100s/1fs\nmodule t; endmodule\n",
        top: None, broken: None,
    },
    NetlistRow {
        shows: "one unit, a smaller number",
        text: "`timescale 100ns/10ns\nmodule t; endmodule\n`timescale 10us/1us\nmodule b; endmodule\n",
        top: None, broken: None,
    },
    NetlistRow {
        shows: "a greater number of a smaller unit",
        text: "`timescale 1ns/100ps\nmodule t; endmodule\n`timescale 1ms/100us\n",
        top: None, broken: None,
    },
    NetlistRow {
        shows: "directives around and between modules",
        text: "`celldefine\n`timescale 1ns/1ps\n`default_nettype tri\nmodule s; endmodule\n`endcelldefine\n`resetall\nmodule t; s u(); endmodule\n`resetall\n",
        top: None, broken: None,
    },
];

pub(crate) fn rows() -> &'static [NetlistRow] {
    &ROWS
}
