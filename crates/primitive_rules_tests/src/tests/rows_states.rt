//! The `reg`, the `initial` and the state fields.

use super::PrimitiveRow;

#[rattlefmt::skip]
static ROWS: [PrimitiveRow; 31] = [
    PrimitiveRow {
        shows: "a reg",
        text: "primitive p(q, a);\noutput q; reg q; input a;\ntable\nr : ? : 1;\nn : ? : -;\nendtable\nendprimitive\n",
        reached: &[true], tables: None, headers: None,
    },
    PrimitiveRow {
        shows: "a reg at the output",
        text: "primitive p(q, a);\noutput reg q; input a;\ntable\nr : ? : 1;\nn : ? : -;\nendtable\nendprimitive\n",
        reached: &[true], tables: None, headers: None,
    },
    PrimitiveRow {
        shows: "a reg in the header",
        text: "primitive p(output reg q, input a);\ntable\nr : ? : 1;\nn : ? : -;\nendtable\nendprimitive\n",
        reached: &[true], tables: None, headers: None,
    },
    PrimitiveRow {
        shows: "a reg before the output",
        text: "primitive p(q, a);\nreg q; output q; input a;\ntable\nr : ? : 1;\nn : ? : -;\nendtable\nendprimitive\n",
        reached: &[true], tables: None, headers: None,
    },
    PrimitiveRow {
        shows: "a reg of an input",
        text: "primitive p(q, a);\noutput q; reg a; input a;\ntable\nr : ? : 1;\nn : ? : -;\nendtable\nendprimitive\n",
        reached: &[true], tables: None, headers: Some(1),
    },
    PrimitiveRow {
        shows: "a reg of no port",
        text: "primitive p(q, a);\noutput q; reg q2; input a;\ntable\nr : ? : 1;\nn : ? : -;\nendtable\nendprimitive\n",
        reached: &[true], tables: None, headers: Some(1),
    },
    PrimitiveRow {
        shows: "a reg of the output and one of an input",
        text: "primitive p(q, a);\noutput q; reg q; reg a; input a;\ntable\nr : ? : 1;\nn : ? : -;\nendtable\nendprimitive\n",
        reached: &[true], tables: None, headers: Some(1),
    },
    PrimitiveRow {
        shows: "a reg twice",
        text: "primitive p(q, a);\noutput q; reg q; reg q; input a;\ntable\nr : ? : 1;\nn : ? : -;\nendtable\nendprimitive\n",
        reached: &[true], tables: None, headers: Some(1),
    },
    PrimitiveRow {
        shows: "a reg at the output and behind it",
        text: "primitive p(q, a);\noutput reg q; reg q; input a;\ntable\nr : ? : 1;\nn : ? : -;\nendtable\nendprimitive\n",
        reached: &[true], tables: None, headers: Some(1),
    },
    PrimitiveRow {
        shows: "a reg in the header and behind it",
        text: "primitive p(output reg q, input a);\nreg q;\ntable\nr : ? : 1;\nn : ? : -;\nendtable\nendprimitive\n",
        reached: &[true], tables: None, headers: Some(1),
    },
    PrimitiveRow {
        shows: "a reg at an output of no port",
        text: "primitive p(q, a);\noutput q; output reg z; input a;\ntable\nr : ? : 1;\nn : ? : -;\nendtable\nendprimitive\n",
        reached: &[true], tables: None, headers: Some(1),
    },
    PrimitiveRow {
        shows: "a reg at an output of no port and at the output",
        text: "primitive p(q, a);\noutput reg q; output reg z; input a;\ntable\nr : ? : 1;\nn : ? : -;\nendtable\nendprimitive\n",
        reached: &[true], tables: None, headers: Some(1),
    },
    PrimitiveRow {
        shows: "an initial",
        text: "primitive p(q, a);\noutput q; reg q; input a; initial q = 0;\ntable\nr : ? : 1;\nn : ? : -;\nendtable\nendprimitive\n",
        reached: &[true], tables: None, headers: None,
    },
    PrimitiveRow {
        shows: "an initial of an input",
        text: "primitive p(q, a);\noutput q; reg q; input a; initial a = 0;\ntable\nr : ? : 1;\nn : ? : -;\nendtable\nendprimitive\n",
        reached: &[true], tables: None, headers: Some(1),
    },
    PrimitiveRow {
        shows: "an initial of no port",
        text: "primitive p(q, a);\noutput q; reg q; input a; initial z = 0;\ntable\nr : ? : 1;\nn : ? : -;\nendtable\nendprimitive\n",
        reached: &[true], tables: None, headers: Some(1),
    },
    PrimitiveRow {
        shows: "a value at the output",
        text: "primitive p(q, a);\noutput reg q = 1; input a;\ntable\nr : ? : 1;\nn : ? : -;\nendtable\nendprimitive\n",
        reached: &[true], tables: None, headers: None,
    },
    PrimitiveRow {
        shows: "a value at the output without reg",
        text: "primitive p(q, a);\noutput q = 1; reg q; input a;\ntable\nr : ? : 1;\nn : ? : -;\nendtable\nendprimitive\n",
        reached: &[true], tables: None, headers: None,
    },
    PrimitiveRow {
        shows: "a value in the header",
        text: "primitive p(output reg q = 1, input a);\ntable\nr : ? : 1;\nn : ? : -;\nendtable\nendprimitive\n",
        reached: &[true], tables: None, headers: None,
    },
    PrimitiveRow {
        shows: "a value at the output and an initial",
        text: "primitive p(q, a);\noutput reg q = 1; input a; initial q = 1;\ntable\nr : ? : 1;\nn : ? : -;\nendtable\nendprimitive\n",
        reached: &[true], tables: None, headers: Some(1),
    },
    PrimitiveRow {
        shows: "a value in the header and an initial",
        text: "primitive p(output reg q = 1, input a);\ninitial q = 1;\ntable\nr : ? : 1;\nn : ? : -;\nendtable\nendprimitive\n",
        reached: &[true], tables: None, headers: Some(1),
    },
    PrimitiveRow {
        shows: "a value at an output of no port",
        text: "primitive p(q, a);\noutput reg q; output z = 1; input a;\ntable\nr : ? : 1;\nn : ? : -;\nendtable\nendprimitive\n",
        reached: &[true], tables: None, headers: Some(1),
    },
    PrimitiveRow {
        shows: "an initial without reg",
        text: "primitive p(q, a);\noutput q; input a; initial q = 0;\ntable\n0 : 0;\n1 : 1;\nendtable\nendprimitive\n",
        reached: &[true], tables: None, headers: None,
    },
    PrimitiveRow {
        shows: "a value at the output without reg and state",
        text: "primitive p(q, a);\noutput q = 1; input a;\ntable\n0 : 0;\n1 : 1;\nendtable\nendprimitive\n",
        reached: &[true], tables: None, headers: None,
    },
    PrimitiveRow {
        shows: "an initial of an input without reg",
        text: "primitive p(q, a);\noutput q; input a; initial a = 0;\ntable\n0 : 0;\n1 : 1;\nendtable\nendprimitive\n",
        reached: &[true], tables: None, headers: Some(1),
    },
    PrimitiveRow {
        shows: "a wrong value without reg",
        text: "primitive p(q, a);\noutput q; input a; initial q = 2;\ntable\n0 : 0;\n1 : 1;\nendtable\nendprimitive\n",
        reached: &[true], tables: None, headers: Some(1),
    },
    PrimitiveRow {
        shows: "a state field and no reg",
        text: "primitive p(q, a);\noutput q; input a;\ntable\nr : ? : 1;\nn : ? : -;\nendtable\nendprimitive\n",
        reached: &[true], tables: None, headers: Some(1),
    },
    PrimitiveRow {
        shows: "a reg and no state field",
        text: "primitive p(q, a);\noutput q; reg q; input a;\ntable\n0 : 0;\n1 : 1;\nendtable\nendprimitive\n",
        reached: &[true], tables: None, headers: Some(1),
    },
    PrimitiveRow {
        shows: "a reg and no row",
        text: "primitive p(q, a);\noutput q; reg q; input a;\ntable\nendtable\nendprimitive\n",
        reached: &[true], tables: None, headers: None,
    },
    PrimitiveRow {
        shows: "no reg and no row",
        text: "primitive p(q, a);\noutput q; input a;\ntable\nendtable\nendprimitive\n",
        reached: &[true], tables: None, headers: None,
    },
    PrimitiveRow {
        shows: "a reg and one row without state field",
        text: "primitive p(q, a);\noutput q; reg q; input a;\ntable\nr : ? : 1;\n0 : 0;\nendtable\nendprimitive\n",
        reached: &[true], tables: Some(5), headers: Some(1),
    },
    PrimitiveRow {
        shows: "no reg and one row with state field",
        text: "primitive p(q, a);\noutput q; input a;\ntable\n1 : 1;\n0 : ? : 0;\nendtable\nendprimitive\n",
        reached: &[true], tables: Some(4), headers: Some(1),
    },
];

/// The rows.
pub(crate) fn rows() -> &'static [PrimitiveRow] {
    &ROWS
}
