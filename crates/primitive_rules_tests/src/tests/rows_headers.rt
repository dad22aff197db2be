//! Headers and directions.

use super::PrimitiveRow;

#[rattlefmt::skip]
static ROWS: [PrimitiveRow; 37] = [
    PrimitiveRow {
        shows: "names and directions that fit",
        text: "primitive p(q, a, b);\noutput q;\ninput a, b;\ntable\n0 ? : 0;\n1 1 : 1;\nendtable\nendprimitive\n",
        reached: &[true], tables: None, headers: None,
    },
    PrimitiveRow {
        shows: "inputs before the output, one by one",
        text: "primitive p(q, a, b);\ninput b;\ninput a;\noutput q;\ntable\n0 ? : 0;\n1 1 : 1;\nendtable\nendprimitive\n",
        reached: &[true], tables: None, headers: None,
    },
    PrimitiveRow {
        shows: "an input without direction",
        text: "primitive p(q, a, b);\noutput q;\ninput a;\ntable\n0 ? : 0;\n1 1 : 1;\nendtable\nendprimitive\n",
        reached: &[true], tables: None, headers: Some(1),
    },
    PrimitiveRow {
        shows: "the output without direction",
        text: "primitive p(q, a, b);\ninput a, b;\ntable\n0 ? : 0;\n1 1 : 1;\nendtable\nendprimitive\n",
        reached: &[true], tables: None, headers: Some(1),
    },
    PrimitiveRow {
        shows: "no directions at all",
        text: "primitive\np(q, a, b);\ntable\n0 ? : 0;\n1 1 : 1;\nendtable\nendprimitive\n",
        reached: &[true], tables: None, headers: Some(2),
    },
    PrimitiveRow {
        shows: "an input twice",
        text: "primitive p(q, a, b);\noutput q;\ninput a, b;\ninput a;\ntable\n0 ? : 0;\n1 1 : 1;\nendtable\nendprimitive\n",
        reached: &[true], tables: None, headers: Some(1),
    },
    PrimitiveRow {
        shows: "an input twice in one declaration",
        text: "primitive p(q, a, b);\noutput q;\ninput a, b, b;\ntable\n0 ? : 0;\n1 1 : 1;\nendtable\nendprimitive\n",
        reached: &[true], tables: None, headers: Some(1),
    },
    PrimitiveRow {
        shows: "the output twice",
        text: "primitive p(q, a, b);\noutput q;\noutput q;\ninput a, b;\ntable\n0 ? : 0;\n1 1 : 1;\nendtable\nendprimitive\n",
        reached: &[true], tables: None, headers: Some(1),
    },
    PrimitiveRow {
        shows: "the output is an input too",
        text: "primitive p(q, a, b);\noutput q;\ninput q, a, b;\ntable\n0 ? : 0;\n1 1 : 1;\nendtable\nendprimitive\n",
        reached: &[true], tables: None, headers: Some(1),
    },
    PrimitiveRow {
        shows: "an input three times",
        text: "primitive p(q, a, b);\noutput q;\ninput a, a, a, b;\ntable\n0 ? : 0;\n1 1 : 1;\nendtable\nendprimitive\n",
        reached: &[true], tables: None, headers: Some(1),
    },
    PrimitiveRow {
        shows: "an input of no port",
        text: "primitive p(q, a, b);\noutput q;\ninput a, b, c;\ntable\n0 ? : 0;\n1 1 : 1;\nendtable\nendprimitive\n",
        reached: &[true], tables: None, headers: None,
    },
    PrimitiveRow {
        shows: "an input of no port twice",
        text: "primitive p(q, a, b);\noutput q;\ninput a, b, c;\ninput c;\ntable\n0 ? : 0;\n1 1 : 1;\nendtable\nendprimitive\n",
        reached: &[true], tables: None, headers: None,
    },
    PrimitiveRow {
        shows: "a port twice in the header with one direction",
        text: "primitive p(q, a, a);\noutput q;\ninput a;\ntable\n0 ? : 0;\n1 1 : 1;\nendtable\nendprimitive\n",
        reached: &[true], tables: None, headers: None,
    },
    PrimitiveRow {
        shows: "a port twice in the header with two directions",
        text: "primitive p(q, a, a);\noutput q;\ninput a, a;\ntable\n0 ? : 0;\n1 1 : 1;\nendtable\nendprimitive\n",
        reached: &[true], tables: None, headers: Some(1),
    },
    PrimitiveRow {
        shows: "the output twice in the header",
        text: "primitive p(q, q, a);\noutput q;\ninput a;\ntable\n0 ? : 0;\n1 1 : 1;\nendtable\nendprimitive\n",
        reached: &[true], tables: None, headers: None,
    },
    PrimitiveRow {
        shows: "a header that declares",
        text: "primitive p(output q, input a, input b);\ntable\n0 ? : 0;\n1 1 : 1;\nendtable\nendprimitive\n",
        reached: &[true], tables: None, headers: None,
    },
    PrimitiveRow {
        shows: "a header that declares with one word",
        text: "primitive p(output q, input a, b);\ntable\n0 ? : 0;\n1 1 : 1;\nendtable\nendprimitive\n",
        reached: &[true], tables: None, headers: None,
    },
    PrimitiveRow {
        shows: "a header that declares without the word",
        text: "primitive p(output q, a, b);\ntable\n0 ? : 0;\n1 1 : 1;\nendtable\nendprimitive\n",
        reached: &[true], tables: None, headers: None,
    },
    PrimitiveRow {
        shows: "a header that declares a name twice",
        text: "primitive p(output q, a, a);\ntable\n0 ? : 0;\n1 1 : 1;\nendtable\nendprimitive\n",
        reached: &[true], tables: None, headers: Some(1),
    },
    PrimitiveRow {
        shows: "a header that declares the output as an input",
        text: "primitive p(output q, input q, a);\ntable\n0 ? : 0;\n1 1 : 1;\nendtable\nendprimitive\n",
        reached: &[true], tables: None, headers: Some(1),
    },
    PrimitiveRow {
        shows: "a declaration behind a header that declares",
        text: "primitive p(output q, input a, b);\ninput a;\ntable\n0 ? : 0;\n1 1 : 1;\nendtable\nendprimitive\n",
        reached: &[true], tables: None, headers: Some(1),
    },
    PrimitiveRow {
        shows: "an output behind a header that declares",
        text: "primitive p(output q, input a, b);\noutput q;\ntable\n0 ? : 0;\n1 1 : 1;\nendtable\nendprimitive\n",
        reached: &[true], tables: None, headers: Some(1),
    },
    PrimitiveRow {
        shows: "an input of no port behind a header that declares",
        text: "primitive p(output q, input a, b);\ninput c;\ntable\n0 ? : 0;\n1 1 : 1;\nendtable\nendprimitive\n",
        reached: &[true], tables: None, headers: None,
    },
    PrimitiveRow {
        shows: "the output is the second port",
        text: "primitive p(a, q);\noutput q;\ninput a;\ntable\n0 : 0;\n1 : 1;\nendtable\nendprimitive\n",
        reached: &[true], tables: None, headers: Some(1),
    },
    PrimitiveRow {
        shows: "the first port is an input and so are all",
        text: "primitive p(q, a);\ninput q, a;\ntable\n0 : 0;\n1 : 1;\nendtable\nendprimitive\n",
        reached: &[true], tables: None, headers: Some(1),
    },
    PrimitiveRow {
        shows: "another output",
        text: "primitive p(q, a, b);\noutput q;\noutput a;\ninput b;\ntable\n0 ? : 0;\n1 1 : 1;\nendtable\nendprimitive\n",
        reached: &[true], tables: None, headers: Some(1),
    },
    PrimitiveRow {
        shows: "only another output",
        text: "primitive p(q, a);\ninput q;\noutput a;\ntable\n0 : 0;\n1 : 1;\nendtable\nendprimitive\n",
        reached: &[true], tables: None, headers: Some(1),
    },
    PrimitiveRow {
        shows: "an output of no port",
        text: "primitive p(q, a);\noutput q;\noutput z;\ninput a;\ntable\n0 : 0;\n1 : 1;\nendtable\nendprimitive\n",
        reached: &[true], tables: None, headers: None,
    },
    PrimitiveRow {
        shows: "names that begin alike",
        text: "primitive p(q, qq);\noutput q;\ninput qq;\ntable\n0 : 0;\n1 : 1;\nendtable\nendprimitive\n",
        reached: &[true], tables: None, headers: None,
    },
    PrimitiveRow {
        shows: "an escaped name is the plain one",
        text: "primitive p(\\q , a);\noutput q;\ninput \\a ;\ntable\n0 : 0;\n1 : 1;\nendtable\nendprimitive\n",
        reached: &[true], tables: None, headers: None,
    },
    PrimitiveRow {
        shows: "capital letters are others",
        text: "primitive p(q, a);\noutput Q;\ninput a;\ntable\n0 : 0;\n1 : 1;\nendtable\nendprimitive\n",
        reached: &[true], tables: None, headers: Some(1),
    },
    PrimitiveRow {
        shows: "the place is the name, not the word",
        text: "primitive\n\np\n(q, a);\noutput q;\ntable\n0 : 0;\n1 : 1;\nendtable\nendprimitive\n",
        reached: &[true], tables: None, headers: Some(3),
    },
    PrimitiveRow {
        shows: "the second of two",
        text: "primitive p(q, a);\noutput q;\ninput a;\ntable\n0 : 0;\n1 : 1;\nendtable\nendprimitive\nprimitive r(q, a);\noutput q;\ntable\n0 : 0;\n1 : 1;\nendtable\nendprimitive\n",
        reached: &[true, true], tables: None, headers: Some(9),
    },
    PrimitiveRow {
        shows: "the first of two",
        text: "primitive p(q, a);\noutput q;\ntable\n0 : 0;\n1 : 1;\nendtable\nendprimitive\nprimitive r(q, a);\noutput q;\ntable\n0 : 0;\n1 : 1;\nendtable\nendprimitive\n",
        reached: &[true, true], tables: None, headers: Some(1),
    },
    PrimitiveRow {
        shows: "the first of two is not reached",
        text: "primitive p(q, a);\noutput q;\ntable\n0 : 0;\n1 : 1;\nendtable\nendprimitive\nprimitive r(q, a);\noutput q;\ntable\n0 : 0;\n1 : 1;\nendtable\nendprimitive\n",
        reached: &[false, true], tables: None, headers: Some(8),
    },
    PrimitiveRow {
        shows: "none is reached",
        text: "primitive p(q, a);\noutput q;\ntable\n0 : 0;\n1 : 1;\nendtable\nendprimitive\nprimitive r(q, a);\noutput q;\ntable\n0 : 0;\n1 : 1;\nendtable\nendprimitive\n",
        reached: &[false, false], tables: None, headers: None,
    },
    PrimitiveRow {
        shows: "fewer are told than there are",
        text: "primitive p(q, a);\noutput q;\ninput a;\ntable\n0 : 0;\n1 : 1;\nendtable\nendprimitive\nprimitive r(q, a);\noutput q;\ntable\n0 : 0;\n1 : 1;\nendtable\nendprimitive\n",
        reached: &[true], tables: None, headers: None,
    },
];

/// The rows.
pub(crate) fn rows() -> &'static [PrimitiveRow] {
    &ROWS
}
