//! Declarations and the arguments that they give.

use super::ArgumentsRow;
use level_range::Logic;

#[rattlefmt::skip]
static ROWS: [ArgumentsRow; 21] = [
    ArgumentsRow {
        shows: "names",
        text: "primitive p(q, a, b);\noutput q;\ninput a, b;\ntable\n0 ? : 0;\n1 1 : 1;\nendtable\nendprimitive\n",
        inputs: 2, sequential: false, start: Logic::X, is_made: true,
    },
    ArgumentsRow {
        shows: "a header that declares",
        text: "primitive p(output q, input a, b);\ntable\n0 ? : 0;\n1 1 : 1;\nendtable\nendprimitive\n",
        inputs: 2, sequential: false, start: Logic::X, is_made: true,
    },
    ArgumentsRow {
        shows: "one port",
        text: "primitive p(q);\noutput q;\ntable\nendtable\nendprimitive\n",
        inputs: 0, sequential: false, start: Logic::X, is_made: false,
    },
    ArgumentsRow {
        shows: "a reg and no row",
        text: "primitive p(output reg q, input a, b, c);\ntable\nendtable\nendprimitive\n",
        inputs: 3, sequential: true, start: Logic::X, is_made: true,
    },
    ArgumentsRow {
        shows: "a reg and rows without state",
        text: "primitive p(output reg q, input a);\ntable\n0 : 0;\n1 : 1;\nendtable\nendprimitive\n",
        inputs: 1, sequential: false, start: Logic::X, is_made: true,
    },
    ArgumentsRow {
        shows: "rows with state and no reg",
        text: "primitive p(output q, input a);\ntable\nr : ? : 1;\nn : ? : -;\nendtable\nendprimitive\n",
        inputs: 1, sequential: true, start: Logic::X, is_made: true,
    },
    ArgumentsRow {
        shows: "the second row alone has a state",
        text: "primitive p(output q, input a);\ntable\n1 : 1;\n0 : ? : 0;\nendtable\nendprimitive\n",
        inputs: 1, sequential: true, start: Logic::X, is_made: false,
    },
    ArgumentsRow {
        shows: "the first row alone has a state",
        text: "primitive p(output q, input a);\ntable\n0 : ? : 0;\n1 : 1;\nendtable\nendprimitive\n",
        inputs: 1, sequential: true, start: Logic::X, is_made: false,
    },
    ArgumentsRow {
        shows: "an initial of 0",
        text: "primitive p(q, a);\noutput q; reg q; input a; initial q = 1'b0;\ntable\nr : ? : 1;\nn : ? : -;\nendtable\nendprimitive\n",
        inputs: 1, sequential: true, start: Logic::Zero, is_made: true,
    },
    ArgumentsRow {
        shows: "an initial of 1",
        text: "primitive p(q, a);\noutput q; reg q; input a; initial q = 1;\ntable\nr : ? : 1;\nn : ? : -;\nendtable\nendprimitive\n",
        inputs: 1, sequential: true, start: Logic::One, is_made: true,
    },
    ArgumentsRow {
        shows: "an initial of two bits",
        text: "primitive p(q, a);\noutput q; reg q; input a; initial q = 2'b01;\ntable\nr : ? : 1;\nn : ? : -;\nendtable\nendprimitive\n",
        inputs: 1, sequential: true, start: Logic::One, is_made: true,
    },
    ArgumentsRow {
        shows: "an initial of x",
        text: "primitive p(q, a);\noutput q; reg q; input a; initial q = 1'bx;\ntable\nr : ? : 1;\nn : ? : -;\nendtable\nendprimitive\n",
        inputs: 1, sequential: true, start: Logic::X, is_made: true,
    },
    ArgumentsRow {
        shows: "an initial of z",
        text: "primitive p(q, a);\noutput q; reg q; input a; initial q = 1'bz;\ntable\nr : ? : 1;\nn : ? : -;\nendtable\nendprimitive\n",
        inputs: 1, sequential: true, start: Logic::X, is_made: true,
    },
    ArgumentsRow {
        shows: "an initial of 2",
        text: "primitive p(q, a);\noutput q; reg q; input a; initial q = 2;\ntable\nr : ? : 1;\nn : ? : -;\nendtable\nendprimitive\n",
        inputs: 1, sequential: true, start: Logic::X, is_made: true,
    },
    ArgumentsRow {
        shows: "an initial of many bits",
        text: "primitive p(q, a);\noutput q; reg q; input a; initial q = 128'd1;\ntable\nr : ? : 1;\nn : ? : -;\nendtable\nendprimitive\n",
        inputs: 1, sequential: true, start: Logic::One, is_made: true,
    },
    ArgumentsRow {
        shows: "an initial with a high bit",
        text: "primitive p(q, a);\noutput q; reg q; input a; initial q = 2'b11;\ntable\nr : ? : 1;\nn : ? : -;\nendtable\nendprimitive\n",
        inputs: 1, sequential: true, start: Logic::X, is_made: true,
    },
    ArgumentsRow {
        shows: "a value at the output",
        text: "primitive p(q, a);\noutput reg q = 1; input a;\ntable\nr : ? : 1;\nn : ? : -;\nendtable\nendprimitive\n",
        inputs: 1, sequential: true, start: Logic::One, is_made: true,
    },
    ArgumentsRow {
        shows: "a value in the header",
        text: "primitive p(output reg q = 1'b0, input a);\ntable\nr : ? : 1;\nn : ? : -;\nendtable\nendprimitive\n",
        inputs: 1, sequential: true, start: Logic::Zero, is_made: true,
    },
    ArgumentsRow {
        shows: "the value in the header is the first",
        text: "primitive p(output reg q = 1'b1, input a);\ninitial q = 0;\ntable\nr : ? : 1;\nn : ? : -;\nendtable\nendprimitive\n",
        inputs: 1, sequential: true, start: Logic::One, is_made: true,
    },
    ArgumentsRow {
        shows: "the value at the output is the first",
        text: "primitive p(q, a);\noutput reg q = 0; input a; initial q = 1;\ntable\nr : ? : 1;\nn : ? : -;\nendtable\nendprimitive\n",
        inputs: 1, sequential: true, start: Logic::Zero, is_made: true,
    },
    ArgumentsRow {
        shows: "the first value is wrong",
        text: "primitive p(q, a);\noutput reg q = 2; input a; initial q = 1;\ntable\nr : ? : 1;\nn : ? : -;\nendtable\nendprimitive\n",
        inputs: 1, sequential: true, start: Logic::X, is_made: true,
    },
];

/// The rows.
pub(crate) fn rows() -> &'static [ArgumentsRow] {
    &ROWS
}
