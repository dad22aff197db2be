//! Start values.

use super::PrimitiveRow;

#[rattlefmt::skip]
static ROWS: [PrimitiveRow; 44] = [
    PrimitiveRow {
        shows: "the value 0",
        text: "primitive p(q, a);\noutput q; reg q; input a; initial q = 0;\ntable\nr : ? : 1;\nn : ? : -;\nendtable\nendprimitive\n",
        reached: &[true], tables: None, headers: None,
    },
    PrimitiveRow {
        shows: "the value 1",
        text: "primitive p(q, a);\noutput q; reg q; input a; initial q = 1;\ntable\nr : ? : 1;\nn : ? : -;\nendtable\nendprimitive\n",
        reached: &[true], tables: None, headers: None,
    },
    PrimitiveRow {
        shows: "the value 2",
        text: "primitive p(q, a);\noutput q; reg q; input a; initial q = 2;\ntable\nr : ? : 1;\nn : ? : -;\nendtable\nendprimitive\n",
        reached: &[true], tables: None, headers: Some(1),
    },
    PrimitiveRow {
        shows: "the value 10",
        text: "primitive p(q, a);\noutput q; reg q; input a; initial q = 10;\ntable\nr : ? : 1;\nn : ? : -;\nendtable\nendprimitive\n",
        reached: &[true], tables: None, headers: Some(1),
    },
    PrimitiveRow {
        shows: "the value 00",
        text: "primitive p(q, a);\noutput q; reg q; input a; initial q = 00;\ntable\nr : ? : 1;\nn : ? : -;\nendtable\nendprimitive\n",
        reached: &[true], tables: None, headers: None,
    },
    PrimitiveRow {
        shows: "the value 1'b0",
        text: "primitive p(q, a);\noutput q; reg q; input a; initial q = 1'b0;\ntable\nr : ? : 1;\nn : ? : -;\nendtable\nendprimitive\n",
        reached: &[true], tables: None, headers: None,
    },
    PrimitiveRow {
        shows: "the value 1'b1",
        text: "primitive p(q, a);\noutput q; reg q; input a; initial q = 1'b1;\ntable\nr : ? : 1;\nn : ? : -;\nendtable\nendprimitive\n",
        reached: &[true], tables: None, headers: None,
    },
    PrimitiveRow {
        shows: "the value 1'bx",
        text: "primitive p(q, a);\noutput q; reg q; input a; initial q = 1'bx;\ntable\nr : ? : 1;\nn : ? : -;\nendtable\nendprimitive\n",
        reached: &[true], tables: None, headers: None,
    },
    PrimitiveRow {
        shows: "the value 1'BX",
        text: "primitive p(q, a);\noutput q; reg q; input a; initial q = 1'BX;\ntable\nr : ? : 1;\nn : ? : -;\nendtable\nendprimitive\n",
        reached: &[true], tables: None, headers: None,
    },
    PrimitiveRow {
        shows: "the value 1'bz",
        text: "primitive p(q, a);\noutput q; reg q; input a; initial q = 1'bz;\ntable\nr : ? : 1;\nn : ? : -;\nendtable\nendprimitive\n",
        reached: &[true], tables: None, headers: Some(1),
    },
    PrimitiveRow {
        shows: "the value 1'b?",
        text: "primitive p(q, a);\noutput q; reg q; input a; initial q = 1'b?;\ntable\nr : ? : 1;\nn : ? : -;\nendtable\nendprimitive\n",
        reached: &[true], tables: None, headers: Some(1),
    },
    PrimitiveRow {
        shows: "the value 1'h0",
        text: "primitive p(q, a);\noutput q; reg q; input a; initial q = 1'h0;\ntable\nr : ? : 1;\nn : ? : -;\nendtable\nendprimitive\n",
        reached: &[true], tables: None, headers: None,
    },
    PrimitiveRow {
        shows: "the value 1'd1",
        text: "primitive p(q, a);\noutput q; reg q; input a; initial q = 1'd1;\ntable\nr : ? : 1;\nn : ? : -;\nendtable\nendprimitive\n",
        reached: &[true], tables: None, headers: None,
    },
    PrimitiveRow {
        shows: "the value 1'o1",
        text: "primitive p(q, a);\noutput q; reg q; input a; initial q = 1'o1;\ntable\nr : ? : 1;\nn : ? : -;\nendtable\nendprimitive\n",
        reached: &[true], tables: None, headers: None,
    },
    PrimitiveRow {
        shows: "the value 1'sb1",
        text: "primitive p(q, a);\noutput q; reg q; input a; initial q = 1'sb1;\ntable\nr : ? : 1;\nn : ? : -;\nendtable\nendprimitive\n",
        reached: &[true], tables: None, headers: None,
    },
    PrimitiveRow {
        shows: "the value 2'b01",
        text: "primitive p(q, a);\noutput q; reg q; input a; initial q = 2'b01;\ntable\nr : ? : 1;\nn : ? : -;\nendtable\nendprimitive\n",
        reached: &[true], tables: None, headers: None,
    },
    PrimitiveRow {
        shows: "the value 2'b00",
        text: "primitive p(q, a);\noutput q; reg q; input a; initial q = 2'b00;\ntable\nr : ? : 1;\nn : ? : -;\nendtable\nendprimitive\n",
        reached: &[true], tables: None, headers: None,
    },
    PrimitiveRow {
        shows: "the value 2'b10",
        text: "primitive p(q, a);\noutput q; reg q; input a; initial q = 2'b10;\ntable\nr : ? : 1;\nn : ? : -;\nendtable\nendprimitive\n",
        reached: &[true], tables: None, headers: Some(1),
    },
    PrimitiveRow {
        shows: "the value 2'b11",
        text: "primitive p(q, a);\noutput q; reg q; input a; initial q = 2'b11;\ntable\nr : ? : 1;\nn : ? : -;\nendtable\nendprimitive\n",
        reached: &[true], tables: None, headers: Some(1),
    },
    PrimitiveRow {
        shows: "the value 2'bxx",
        text: "primitive p(q, a);\noutput q; reg q; input a; initial q = 2'bxx;\ntable\nr : ? : 1;\nn : ? : -;\nendtable\nendprimitive\n",
        reached: &[true], tables: None, headers: None,
    },
    PrimitiveRow {
        shows: "the value 2'bx",
        text: "primitive p(q, a);\noutput q; reg q; input a; initial q = 2'bx;\ntable\nr : ? : 1;\nn : ? : -;\nendtable\nendprimitive\n",
        reached: &[true], tables: None, headers: None,
    },
    PrimitiveRow {
        shows: "the value 2'bx1",
        text: "primitive p(q, a);\noutput q; reg q; input a; initial q = 2'bx1;\ntable\nr : ? : 1;\nn : ? : -;\nendtable\nendprimitive\n",
        reached: &[true], tables: None, headers: Some(1),
    },
    PrimitiveRow {
        shows: "the value 2'b0x",
        text: "primitive p(q, a);\noutput q; reg q; input a; initial q = 2'b0x;\ntable\nr : ? : 1;\nn : ? : -;\nendtable\nendprimitive\n",
        reached: &[true], tables: None, headers: Some(1),
    },
    PrimitiveRow {
        shows: "the value 2'bzz",
        text: "primitive p(q, a);\noutput q; reg q; input a; initial q = 2'bzz;\ntable\nr : ? : 1;\nn : ? : -;\nendtable\nendprimitive\n",
        reached: &[true], tables: None, headers: Some(1),
    },
    PrimitiveRow {
        shows: "the value 2'bxz",
        text: "primitive p(q, a);\noutput q; reg q; input a; initial q = 2'bxz;\ntable\nr : ? : 1;\nn : ? : -;\nendtable\nendprimitive\n",
        reached: &[true], tables: None, headers: Some(1),
    },
    PrimitiveRow {
        shows: "the value 'b1",
        text: "primitive p(q, a);\noutput q; reg q; input a; initial q = 'b1;\ntable\nr : ? : 1;\nn : ? : -;\nendtable\nendprimitive\n",
        reached: &[true], tables: None, headers: None,
    },
    PrimitiveRow {
        shows: "the value 'bx",
        text: "primitive p(q, a);\noutput q; reg q; input a; initial q = 'bx;\ntable\nr : ? : 1;\nn : ? : -;\nendtable\nendprimitive\n",
        reached: &[true], tables: None, headers: None,
    },
    PrimitiveRow {
        shows: "the value 'b10",
        text: "primitive p(q, a);\noutput q; reg q; input a; initial q = 'b10;\ntable\nr : ? : 1;\nn : ? : -;\nendtable\nendprimitive\n",
        reached: &[true], tables: None, headers: Some(1),
    },
    PrimitiveRow {
        shows: "the value 'bz",
        text: "primitive p(q, a);\noutput q; reg q; input a; initial q = 'bz;\ntable\nr : ? : 1;\nn : ? : -;\nendtable\nendprimitive\n",
        reached: &[true], tables: None, headers: Some(1),
    },
    PrimitiveRow {
        shows: "the value 'h0",
        text: "primitive p(q, a);\noutput q; reg q; input a; initial q = 'h0;\ntable\nr : ? : 1;\nn : ? : -;\nendtable\nendprimitive\n",
        reached: &[true], tables: None, headers: None,
    },
    PrimitiveRow {
        shows: "the value 'dx",
        text: "primitive p(q, a);\noutput q; reg q; input a; initial q = 'dx;\ntable\nr : ? : 1;\nn : ? : -;\nendtable\nendprimitive\n",
        reached: &[true], tables: None, headers: None,
    },
    PrimitiveRow {
        shows: "the value 4'hx",
        text: "primitive p(q, a);\noutput q; reg q; input a; initial q = 4'hx;\ntable\nr : ? : 1;\nn : ? : -;\nendtable\nendprimitive\n",
        reached: &[true], tables: None, headers: None,
    },
    PrimitiveRow {
        shows: "the value 4'hz",
        text: "primitive p(q, a);\noutput q; reg q; input a; initial q = 4'hz;\ntable\nr : ? : 1;\nn : ? : -;\nendtable\nendprimitive\n",
        reached: &[true], tables: None, headers: Some(1),
    },
    PrimitiveRow {
        shows: "the value 4'd3",
        text: "primitive p(q, a);\noutput q; reg q; input a; initial q = 4'd3;\ntable\nr : ? : 1;\nn : ? : -;\nendtable\nendprimitive\n",
        reached: &[true], tables: None, headers: Some(1),
    },
    PrimitiveRow {
        shows: "the value 8'd1",
        text: "primitive p(q, a);\noutput q; reg q; input a; initial q = 8'd1;\ntable\nr : ? : 1;\nn : ? : -;\nendtable\nendprimitive\n",
        reached: &[true], tables: None, headers: None,
    },
    PrimitiveRow {
        shows: "the value 8'd129",
        text: "primitive p(q, a);\noutput q; reg q; input a; initial q = 8'd129;\ntable\nr : ? : 1;\nn : ? : -;\nendtable\nendprimitive\n",
        reached: &[true], tables: None, headers: Some(1),
    },
    PrimitiveRow {
        shows: "the value 1'd2",
        text: "primitive p(q, a);\noutput q; reg q; input a; initial q = 1'd2;\ntable\nr : ? : 1;\nn : ? : -;\nendtable\nendprimitive\n",
        reached: &[true], tables: None, headers: None,
    },
    PrimitiveRow {
        shows: "the value 1'd3",
        text: "primitive p(q, a);\noutput q; reg q; input a; initial q = 1'd3;\ntable\nr : ? : 1;\nn : ? : -;\nendtable\nendprimitive\n",
        reached: &[true], tables: None, headers: None,
    },
    PrimitiveRow {
        shows: "the value 128'b1",
        text: "primitive p(q, a);\noutput q; reg q; input a; initial q = 128'b1;\ntable\nr : ? : 1;\nn : ? : -;\nendtable\nendprimitive\n",
        reached: &[true], tables: None, headers: None,
    },
    PrimitiveRow {
        shows: "the value 128'hx",
        text: "primitive p(q, a);\noutput q; reg q; input a; initial q = 128'hx;\ntable\nr : ? : 1;\nn : ? : -;\nendtable\nendprimitive\n",
        reached: &[true], tables: None, headers: None,
    },
    PrimitiveRow {
        shows: "the value 3'b0_01",
        text: "primitive p(q, a);\noutput q; reg q; input a; initial q = 3'b0_01;\ntable\nr : ? : 1;\nn : ? : -;\nendtable\nendprimitive\n",
        reached: &[true], tables: None, headers: None,
    },
    PrimitiveRow {
        shows: "the value 1_0",
        text: "primitive p(q, a);\noutput q; reg q; input a; initial q = 1_0;\ntable\nr : ? : 1;\nn : ? : -;\nendtable\nendprimitive\n",
        reached: &[true], tables: None, headers: Some(1),
    },
    PrimitiveRow {
        shows: "a value at the output that is wrong",
        text: "primitive p(q, a);\noutput reg q = 2'b10; input a;\ntable\nr : ? : 1;\nn : ? : -;\nendtable\nendprimitive\n",
        reached: &[true], tables: None, headers: Some(1),
    },
    PrimitiveRow {
        shows: "a value in the header that is wrong",
        text: "primitive p(output reg q = 1'bz, input a);\ntable\nr : ? : 1;\nn : ? : -;\nendtable\nendprimitive\n",
        reached: &[true], tables: None, headers: Some(1),
    },
];

/// The rows.
pub(crate) fn rows() -> &'static [PrimitiveRow] {
    &ROWS
}
