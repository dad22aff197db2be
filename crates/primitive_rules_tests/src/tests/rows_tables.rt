//! Numbers of inputs and rows.

use super::PrimitiveRow;

#[rattlefmt::skip]
static ROWS: [PrimitiveRow; 48] = [
    PrimitiveRow {
        shows: "symbols for values",
        text: "primitive p(q, a, b);\noutput q;\ninput a, b;\ntable\n0 ? : 0;\n1 b : 1;\n1 x : x;\nendtable\nendprimitive\n",
        reached: &[true], tables: None, headers: None,
    },
    PrimitiveRow {
        shows: "a symbol too many",
        text: "primitive p(q, a, b);\noutput q;\ninput a, b;\ntable\n0 ? : 0;\n1 b 1 : 1;\nendtable\nendprimitive\n",
        reached: &[true], tables: Some(6), headers: None,
    },
    PrimitiveRow {
        shows: "a symbol too few",
        text: "primitive p(q, a, b);\noutput q;\ninput a, b;\ntable\n0 ? : 0;\n1 : 1;\nendtable\nendprimitive\n",
        reached: &[true], tables: Some(6), headers: None,
    },
    PrimitiveRow {
        shows: "an edge without state",
        text: "primitive p(q, a, b);\noutput q;\ninput a, b;\ntable\n0 ? : 0;\nr 1 : 1;\nendtable\nendprimitive\n",
        reached: &[true], tables: Some(6), headers: None,
    },
    PrimitiveRow {
        shows: "an edge in parentheses without state",
        text: "primitive p(q, a, b);\noutput q;\ninput a, b;\ntable\n0 ? : 0;\n(01) 1 : 1;\nendtable\nendprimitive\n",
        reached: &[true], tables: Some(6), headers: None,
    },
    PrimitiveRow {
        shows: "no change without state",
        text: "primitive p(q, a, b);\noutput q;\ninput a, b;\ntable\n0 ? : -;\nendtable\nendprimitive\n",
        reached: &[true], tables: Some(5), headers: None,
    },
    PrimitiveRow {
        shows: "an output of any value",
        text: "primitive p(q, a, b);\noutput q;\ninput a, b;\ntable\n0 ? : ?;\nendtable\nendprimitive\n",
        reached: &[true], tables: Some(5), headers: None,
    },
    PrimitiveRow {
        shows: "an output of both values",
        text: "primitive p(q, a, b);\noutput q;\ninput a, b;\ntable\n0 ? : b;\nendtable\nendprimitive\n",
        reached: &[true], tables: Some(5), headers: None,
    },
    PrimitiveRow {
        shows: "an edge at an output",
        text: "primitive p(q, a, b);\noutput reg q;\ninput a, b;\ntable\n0 ? : ? : r;\nendtable\nendprimitive\n",
        reached: &[true], tables: Some(5), headers: None,
    },
    PrimitiveRow {
        shows: "no change at an input",
        text: "primitive p(q, a, b);\noutput reg q;\ninput a, b;\ntable\n- ? : ? : 0;\nendtable\nendprimitive\n",
        reached: &[true], tables: Some(5), headers: None,
    },
    PrimitiveRow {
        shows: "an edge at the state",
        text: "primitive p(q, a, b);\noutput reg q;\ninput a, b;\ntable\n0 ? : r : 0;\nendtable\nendprimitive\n",
        reached: &[true], tables: Some(5), headers: None,
    },
    PrimitiveRow {
        shows: "no change at the state",
        text: "primitive p(q, a, b);\noutput reg q;\ninput a, b;\ntable\n0 ? : - : 0;\nendtable\nendprimitive\n",
        reached: &[true], tables: Some(5), headers: None,
    },
    PrimitiveRow {
        shows: "edges of all kinds",
        text: "primitive p(q, a, b);\noutput reg q;\ninput a, b;\ntable\nr 0 : ? : 0;\nf 0 : ? : 0;\np 0 : ? : 0;\nn 0 : ? : 0;\n* 0 : ? : 0;\n(01) 0 : ? : 0;\n(?x) 0 : ? : 0;\n(bb) 0 : ? : 0;\nendtable\nendprimitive\n",
        reached: &[true], tables: None, headers: None,
    },
    PrimitiveRow {
        shows: "a change from 0 to 0",
        text: "primitive p(q, a, b);\noutput reg q;\ninput a, b;\ntable\n(00) ? : ? : 0;\nendtable\nendprimitive\n",
        reached: &[true], tables: Some(5), headers: None,
    },
    PrimitiveRow {
        shows: "a change from x to x",
        text: "primitive p(q, a, b);\noutput reg q;\ninput a, b;\ntable\n1 1 : ? : 1;\n? (xx) : ? : 0;\nendtable\nendprimitive\n",
        reached: &[true], tables: Some(6), headers: None,
    },
    PrimitiveRow {
        shows: "a change from 1 to 1",
        text: "primitive p(q, a, b);\noutput reg q;\ninput a, b;\ntable\n1 1 : ? : 1;\n(11) ? : ? : 0;\nendtable\nendprimitive\n",
        reached: &[true], tables: Some(6), headers: None,
    },
    PrimitiveRow {
        shows: "a change among any values",
        text: "primitive p(q, a, b);\noutput reg q;\ninput a, b;\ntable\n(??) 1 : ? : 1;\nendtable\nendprimitive\n",
        reached: &[true], tables: None, headers: None,
    },
    PrimitiveRow {
        shows: "two edges",
        text: "primitive p(q, a, b);\noutput reg q;\ninput a, b;\ntable\n1 1 : ? : 1;\nr f : ? : 0;\nendtable\nendprimitive\n",
        reached: &[true], tables: Some(6), headers: None,
    },
    PrimitiveRow {
        shows: "an edge twice at the same inputs in two rows",
        text: "primitive p(q, a, b);\noutput reg q;\ninput a, b;\ntable\nr 1 : ? : 1;\nf 1 : ? : 0;\nendtable\nendprimitive\n",
        reached: &[true], tables: None, headers: None,
    },
    PrimitiveRow {
        shows: "two rows that clash, at the later",
        text: "primitive p(q, a, b);\noutput q;\ninput a, b;\ntable\n0 ? : 1;\n? 0 : 0;\nendtable\nendprimitive\n",
        reached: &[true], tables: Some(6), headers: None,
    },
    PrimitiveRow {
        shows: "two rows that overlap with one output",
        text: "primitive p(q, a, b);\noutput q;\ninput a, b;\ntable\n0 ? : 0;\n? 0 : 0;\nendtable\nendprimitive\n",
        reached: &[true], tables: None, headers: None,
    },
    PrimitiveRow {
        shows: "two rows that do not overlap",
        text: "primitive p(q, a, b);\noutput q;\ninput a, b;\ntable\n0 ? : 1;\n1 0 : 0;\nendtable\nendprimitive\n",
        reached: &[true], tables: None, headers: None,
    },
    PrimitiveRow {
        shows: "the least pair, not the least later row",
        text: "primitive p(q, a, b);\noutput q;\ninput a, b;\ntable\n0 0 : 1;\n1 1 : 1;\n1 ? : 0;\n0 ? : 0;\nendtable\nendprimitive\n",
        reached: &[true], tables: Some(8), headers: None,
    },
    PrimitiveRow {
        shows: "the first row clashes with two",
        text: "primitive p(q, a, b);\noutput q;\ninput a, b;\ntable\n0 ? : 1;\n1 1 : 1;\n? 0 : 0;\n0 0 : 0;\nendtable\nendprimitive\n",
        reached: &[true], tables: Some(7), headers: None,
    },
    PrimitiveRow {
        shows: "a clash in outputs 0 and x",
        text: "primitive p(q, a, b);\noutput q;\ninput a, b;\ntable\n0 0 : 0;\n0 0 : x;\nendtable\nendprimitive\n",
        reached: &[true], tables: Some(6), headers: None,
    },
    PrimitiveRow {
        shows: "equal rows",
        text: "primitive p(q, a, b);\noutput q;\ninput a, b;\ntable\n0 0 : 0;\n0 0 : 0;\nendtable\nendprimitive\n",
        reached: &[true], tables: None, headers: None,
    },
    PrimitiveRow {
        shows: "states that do not meet",
        text: "primitive p(q, a, b);\noutput reg q;\ninput a, b;\ntable\n0 0 : 0 : 0;\n0 0 : 1 : 1;\nendtable\nendprimitive\n",
        reached: &[true], tables: None, headers: None,
    },
    PrimitiveRow {
        shows: "states that meet",
        text: "primitive p(q, a, b);\noutput reg q;\ninput a, b;\ntable\n0 0 : ? : 0;\n0 0 : b : 1;\nendtable\nendprimitive\n",
        reached: &[true], tables: Some(6), headers: None,
    },
    PrimitiveRow {
        shows: "edges at different inputs",
        text: "primitive p(q, a, b);\noutput reg q;\ninput a, b;\ntable\nr ? : ? : 0;\n? r : ? : 1;\nendtable\nendprimitive\n",
        reached: &[true], tables: None, headers: None,
    },
    PrimitiveRow {
        shows: "edges at the same input that share a change",
        text: "primitive p(q, a, b);\noutput reg q;\ninput a, b;\ntable\nr 0 : ? : 0;\np ? : ? : 1;\nendtable\nendprimitive\n",
        reached: &[true], tables: Some(6), headers: None,
    },
    PrimitiveRow {
        shows: "an edge and a level",
        text: "primitive p(q, a, b);\noutput reg q;\ninput a, b;\ntable\nr 0 : ? : 0;\n1 0 : ? : 1;\nendtable\nendprimitive\n",
        reached: &[true], tables: None, headers: None,
    },
    PrimitiveRow {
        shows: "no change is an output of its own",
        text: "primitive p(q, a, b);\noutput reg q;\ninput a, b;\ntable\n0 0 : 0 : 0;\n0 0 : 0 : -;\nendtable\nendprimitive\n",
        reached: &[true], tables: Some(6), headers: None,
    },
    PrimitiveRow {
        shows: "a bad symbol before a clash of earlier rows",
        text: "primitive p(q, a, b);\noutput q;\ninput a, b;\ntable\n0 ? : 1;\n? 0 : 0;\nr 0 : 0;\nendtable\nendprimitive\n",
        reached: &[true], tables: Some(7), headers: None,
    },
    PrimitiveRow {
        shows: "a bad symbol behind two edges",
        text: "primitive p(q, a, b);\noutput reg q;\ninput a, b;\ntable\nr f : ? : 0;\n- 0 : ? : 0;\nendtable\nendprimitive\n",
        reached: &[true], tables: Some(6), headers: None,
    },
    PrimitiveRow {
        shows: "two edges behind a clash",
        text: "primitive p(q, a, b);\noutput reg q;\ninput a, b;\ntable\n0 0 : ? : 0;\n0 0 : ? : 1;\nr f : ? : 1;\nendtable\nendprimitive\n",
        reached: &[true], tables: Some(7), headers: None,
    },
    PrimitiveRow {
        shows: "two bad symbols",
        text: "primitive p(q, a, b);\noutput q;\ninput a, b;\ntable\n0 ? : 0;\n1 r : 1;\nf 1 : 1;\nendtable\nendprimitive\n",
        reached: &[true], tables: Some(6), headers: None,
    },
    PrimitiveRow {
        shows: "no input",
        text: "primitive\np(q);\noutput q;\ntable\nendtable\nendprimitive\n",
        reached: &[true], tables: Some(2), headers: None,
    },
    PrimitiveRow {
        shows: "one input",
        text: "primitive\np(q, a0);\noutput q;\ninput a0;\ntable\n1 : 1;\nendtable\nendprimitive\n",
        reached: &[true], tables: None, headers: None,
    },
    PrimitiveRow {
        shows: "ten inputs",
        text: "primitive\np(q, a0, a1, a2, a3, a4, a5, a6, a7, a8, a9);\noutput q;\ninput a0, a1, a2, a3, a4, a5, a6, a7, a8, a9;\ntable\n1 1 1 1 1 1 1 1 1 1 : 1;\nendtable\nendprimitive\n",
        reached: &[true], tables: None, headers: None,
    },
    PrimitiveRow {
        shows: "eleven inputs",
        text: "primitive\np(q, a0, a1, a2, a3, a4, a5, a6, a7, a8, a9, a10);\noutput q;\ninput a0, a1, a2, a3, a4, a5, a6, a7, a8, a9, a10;\ntable\n1 1 1 1 1 1 1 1 1 1 1 : 1;\nendtable\nendprimitive\n",
        reached: &[true], tables: Some(2), headers: None,
    },
    PrimitiveRow {
        shows: "255 inputs",
        text: "primitive\np(q, a0, a1, a2, a3, a4, a5, a6, a7, a8, a9, a10, a11, a12, a13, a14, a15, a16, a17, a18, a19, a20, a21, a22, a23, a24, a25, a26, a27, a28, a29, a30, a31, a32, a33, a34, a35, a36, a37, a38, a39, a40, a41, a42, a43, a44, a45, a46, a47, a48, a49, a50, a51, a52, a53, a54, a55, a56, a57, a58, a59, a60, a61, a62, a63, a64, a65, a66, a67, a68, a69, a70, a71, a72, a73, a74, a75, a76, a77, a78, a79, a80, a81, a82, a83, a84, a85, a86, a87, a88, a89, a90, a91, a92, a93, a94, a95, a96, a97, a98, a99, a100, a101, a102, a103, a104, a105, a106, a107, a108, a109, a110, a111, a112, a113, a114, a115, a116, a117, a118, a119, a120, a121, a122, a123, a124, a125, a126, a127, a128, a129, a130, a131, a132, a133, a134, a135, a136, a137, a138, a139, a140, a141, a142, a143, a144, a145, a146, a147, a148, a149, a150, a151, a152, a153, a154, a155, a156, a157, a158, a159, a160, a161, a162, a163, a164, a165, a166, a167, a168, a169, a170, a171, a172, a173, a174, a175, a176, a177, a178, a179, a180, a181, a182, a183, a184, a185, a186, a187, a188, a189, a190, a191, a192, a193, a194, a195, a196, a197, a198, a199, a200, a201, a202, a203, a204, a205, a206, a207, a208, a209, a210, a211, a212, a213, a214, a215, a216, a217, a218, a219, a220, a221, a222, a223, a224, a225, a226, a227, a228, a229, a230, a231, a232, a233, a234, a235, a236, a237, a238, a239, a240, a241, a242, a243, a244, a245, a246, a247, a248, a249, a250, a251, a252, a253, a254);\noutput q;\ninput a0, a1, a2, a3, a4, a5, a6, a7, a8, a9, a10, a11, a12, a13, a14, a15, a16, a17, a18, a19, a20, a21, a22, a23, a24, a25, a26, a27, a28, a29, a30, a31, a32, a33, a34, a35, a36, a37, a38, a39, a40, a41, a42, a43, a44, a45, a46, a47, a48, a49, a50, a51, a52, a53, a54, a55, a56, a57, a58, a59, a60, a61, a62, a63, a64, a65, a66, a67, a68, a69, a70, a71, a72, a73, a74, a75, a76, a77, a78, a79, a80, a81, a82, a83, a84, a85, a86, a87, a88, a89, a90, a91, a92, a93, a94, a95, a96, a97, a98, a99, a100, a101, a102, a103, a104, a105, a106, a107, a108, a109, a110, a111, a112, a113, a114, a115, a116, a117, a118, a119, a120, a121, a122, a123, a124, a125, a126, a127, a128, a129, a130, a131, a132, a133, a134, a135, a136, a137, a138, a139, a140, a141, a142, a143, a144, a145, a146, a147, a148, a149, a150, a151, a152, a153, a154, a155, a156, a157, a158, a159, a160, a161, a162, a163, a164, a165, a166, a167, a168, a169, a170, a171, a172, a173, a174, a175, a176, a177, a178, a179, a180, a181, a182, a183, a184, a185, a186, a187, a188, a189, a190, a191, a192, a193, a194, a195, a196, a197, a198, a199, a200, a201, a202, a203, a204, a205, a206, a207, a208, a209, a210, a211, a212, a213, a214, a215, a216, a217, a218, a219, a220, a221, a222, a223, a224, a225, a226, a227, a228, a229, a230, a231, a232, a233, a234, a235, a236, a237, a238, a239, a240, a241, a242, a243, a244, a245, a246, a247, a248, a249, a250, a251, a252, a253, a254;\ntable\n1 1 1 1 1 1 1 1 1 1 1 1 1 1 1 1 1 1 1 1 1 1 1 1 1 1 1 1 1 1 1 1 1 1 1 1 1 1 1 1 1 1 1 1 1 1 1 1 1 1 1 1 1 1 1 1 1 1 1 1 1 1 1 1 1 1 1 1 1 1 1 1 1 1 1 1 1 1 1 1 1 1 1 1 1 1 1 1 1 1 1 1 1 1 1 1 1 1 1 1 1 1 1 1 1 1 1 1 1 1 1 1 1 1 1 1 1 1 1 1 1 1 1 1 1 1 1 1 1 1 1 1 1 1 1 1 1 1 1 1 1 1 1 1 1 1 1 1 1 1 1 1 1 1 1 1 1 1 1 1 1 1 1 1 1 1 1 1 1 1 1 1 1 1 1 1 1 1 1 1 1 1 1 1 1 1 1 1 1 1 1 1 1 1 1 1 1 1 1 1 1 1 1 1 1 1 1 1 1 1 1 1 1 1 1 1 1 1 1 1 1 1 1 1 1 1 1 1 1 1 1 1 1 1 1 1 1 1 1 1 1 1 1 1 1 1 1 1 1 1 1 1 1 1 1 : 1;\nendtable\nendprimitive\n",
        reached: &[true], tables: Some(2), headers: None,
    },
    PrimitiveRow {
        shows: "257 inputs",
        text: "primitive\np(q, a0, a1, a2, a3, a4, a5, a6, a7, a8, a9, a10, a11, a12, a13, a14, a15, a16, a17, a18, a19, a20, a21, a22, a23, a24, a25, a26, a27, a28, a29, a30, a31, a32, a33, a34, a35, a36, a37, a38, a39, a40, a41, a42, a43, a44, a45, a46, a47, a48, a49, a50, a51, a52, a53, a54, a55, a56, a57, a58, a59, a60, a61, a62, a63, a64, a65, a66, a67, a68, a69, a70, a71, a72, a73, a74, a75, a76, a77, a78, a79, a80, a81, a82, a83, a84, a85, a86, a87, a88, a89, a90, a91, a92, a93, a94, a95, a96, a97, a98, a99, a100, a101, a102, a103, a104, a105, a106, a107, a108, a109, a110, a111, a112, a113, a114, a115, a116, a117, a118, a119, a120, a121, a122, a123, a124, a125, a126, a127, a128, a129, a130, a131, a132, a133, a134, a135, a136, a137, a138, a139, a140, a141, a142, a143, a144, a145, a146, a147, a148, a149, a150, a151, a152, a153, a154, a155, a156, a157, a158, a159, a160, a161, a162, a163, a164, a165, a166, a167, a168, a169, a170, a171, a172, a173, a174, a175, a176, a177, a178, a179, a180, a181, a182, a183, a184, a185, a186, a187, a188, a189, a190, a191, a192, a193, a194, a195, a196, a197, a198, a199, a200, a201, a202, a203, a204, a205, a206, a207, a208, a209, a210, a211, a212, a213, a214, a215, a216, a217, a218, a219, a220, a221, a222, a223, a224, a225, a226, a227, a228, a229, a230, a231, a232, a233, a234, a235, a236, a237, a238, a239, a240, a241, a242, a243, a244, a245, a246, a247, a248, a249, a250, a251, a252, a253, a254, a255, a256);\noutput q;\ninput a0, a1, a2, a3, a4, a5, a6, a7, a8, a9, a10, a11, a12, a13, a14, a15, a16, a17, a18, a19, a20, a21, a22, a23, a24, a25, a26, a27, a28, a29, a30, a31, a32, a33, a34, a35, a36, a37, a38, a39, a40, a41, a42, a43, a44, a45, a46, a47, a48, a49, a50, a51, a52, a53, a54, a55, a56, a57, a58, a59, a60, a61, a62, a63, a64, a65, a66, a67, a68, a69, a70, a71, a72, a73, a74, a75, a76, a77, a78, a79, a80, a81, a82, a83, a84, a85, a86, a87, a88, a89, a90, a91, a92, a93, a94, a95, a96, a97, a98, a99, a100, a101, a102, a103, a104, a105, a106, a107, a108, a109, a110, a111, a112, a113, a114, a115, a116, a117, a118, a119, a120, a121, a122, a123, a124, a125, a126, a127, a128, a129, a130, a131, a132, a133, a134, a135, a136, a137, a138, a139, a140, a141, a142, a143, a144, a145, a146, a147, a148, a149, a150, a151, a152, a153, a154, a155, a156, a157, a158, a159, a160, a161, a162, a163, a164, a165, a166, a167, a168, a169, a170, a171, a172, a173, a174, a175, a176, a177, a178, a179, a180, a181, a182, a183, a184, a185, a186, a187, a188, a189, a190, a191, a192, a193, a194, a195, a196, a197, a198, a199, a200, a201, a202, a203, a204, a205, a206, a207, a208, a209, a210, a211, a212, a213, a214, a215, a216, a217, a218, a219, a220, a221, a222, a223, a224, a225, a226, a227, a228, a229, a230, a231, a232, a233, a234, a235, a236, a237, a238, a239, a240, a241, a242, a243, a244, a245, a246, a247, a248, a249, a250, a251, a252, a253, a254, a255, a256;\ntable\n1 1 1 1 1 1 1 1 1 1 1 1 1 1 1 1 1 1 1 1 1 1 1 1 1 1 1 1 1 1 1 1 1 1 1 1 1 1 1 1 1 1 1 1 1 1 1 1 1 1 1 1 1 1 1 1 1 1 1 1 1 1 1 1 1 1 1 1 1 1 1 1 1 1 1 1 1 1 1 1 1 1 1 1 1 1 1 1 1 1 1 1 1 1 1 1 1 1 1 1 1 1 1 1 1 1 1 1 1 1 1 1 1 1 1 1 1 1 1 1 1 1 1 1 1 1 1 1 1 1 1 1 1 1 1 1 1 1 1 1 1 1 1 1 1 1 1 1 1 1 1 1 1 1 1 1 1 1 1 1 1 1 1 1 1 1 1 1 1 1 1 1 1 1 1 1 1 1 1 1 1 1 1 1 1 1 1 1 1 1 1 1 1 1 1 1 1 1 1 1 1 1 1 1 1 1 1 1 1 1 1 1 1 1 1 1 1 1 1 1 1 1 1 1 1 1 1 1 1 1 1 1 1 1 1 1 1 1 1 1 1 1 1 1 1 1 1 1 1 1 1 1 1 1 1 1 1 : 1;\nendtable\nendprimitive\n",
        reached: &[true], tables: Some(2), headers: None,
    },
    PrimitiveRow {
        shows: "266 inputs",
        text: "primitive\np(q, a0, a1, a2, a3, a4, a5, a6, a7, a8, a9, a10, a11, a12, a13, a14, a15, a16, a17, a18, a19, a20, a21, a22, a23, a24, a25, a26, a27, a28, a29, a30, a31, a32, a33, a34, a35, a36, a37, a38, a39, a40, a41, a42, a43, a44, a45, a46, a47, a48, a49, a50, a51, a52, a53, a54, a55, a56, a57, a58, a59, a60, a61, a62, a63, a64, a65, a66, a67, a68, a69, a70, a71, a72, a73, a74, a75, a76, a77, a78, a79, a80, a81, a82, a83, a84, a85, a86, a87, a88, a89, a90, a91, a92, a93, a94, a95, a96, a97, a98, a99, a100, a101, a102, a103, a104, a105, a106, a107, a108, a109, a110, a111, a112, a113, a114, a115, a116, a117, a118, a119, a120, a121, a122, a123, a124, a125, a126, a127, a128, a129, a130, a131, a132, a133, a134, a135, a136, a137, a138, a139, a140, a141, a142, a143, a144, a145, a146, a147, a148, a149, a150, a151, a152, a153, a154, a155, a156, a157, a158, a159, a160, a161, a162, a163, a164, a165, a166, a167, a168, a169, a170, a171, a172, a173, a174, a175, a176, a177, a178, a179, a180, a181, a182, a183, a184, a185, a186, a187, a188, a189, a190, a191, a192, a193, a194, a195, a196, a197, a198, a199, a200, a201, a202, a203, a204, a205, a206, a207, a208, a209, a210, a211, a212, a213, a214, a215, a216, a217, a218, a219, a220, a221, a222, a223, a224, a225, a226, a227, a228, a229, a230, a231, a232, a233, a234, a235, a236, a237, a238, a239, a240, a241, a242, a243, a244, a245, a246, a247, a248, a249, a250, a251, a252, a253, a254, a255, a256, a257, a258, a259, a260, a261, a262, a263, a264, a265);\noutput q;\ninput a0, a1, a2, a3, a4, a5, a6, a7, a8, a9, a10, a11, a12, a13, a14, a15, a16, a17, a18, a19, a20, a21, a22, a23, a24, a25, a26, a27, a28, a29, a30, a31, a32, a33, a34, a35, a36, a37, a38, a39, a40, a41, a42, a43, a44, a45, a46, a47, a48, a49, a50, a51, a52, a53, a54, a55, a56, a57, a58, a59, a60, a61, a62, a63, a64, a65, a66, a67, a68, a69, a70, a71, a72, a73, a74, a75, a76, a77, a78, a79, a80, a81, a82, a83, a84, a85, a86, a87, a88, a89, a90, a91, a92, a93, a94, a95, a96, a97, a98, a99, a100, a101, a102, a103, a104, a105, a106, a107, a108, a109, a110, a111, a112, a113, a114, a115, a116, a117, a118, a119, a120, a121, a122, a123, a124, a125, a126, a127, a128, a129, a130, a131, a132, a133, a134, a135, a136, a137, a138, a139, a140, a141, a142, a143, a144, a145, a146, a147, a148, a149, a150, a151, a152, a153, a154, a155, a156, a157, a158, a159, a160, a161, a162, a163, a164, a165, a166, a167, a168, a169, a170, a171, a172, a173, a174, a175, a176, a177, a178, a179, a180, a181, a182, a183, a184, a185, a186, a187, a188, a189, a190, a191, a192, a193, a194, a195, a196, a197, a198, a199, a200, a201, a202, a203, a204, a205, a206, a207, a208, a209, a210, a211, a212, a213, a214, a215, a216, a217, a218, a219, a220, a221, a222, a223, a224, a225, a226, a227, a228, a229, a230, a231, a232, a233, a234, a235, a236, a237, a238, a239, a240, a241, a242, a243, a244, a245, a246, a247, a248, a249, a250, a251, a252, a253, a254, a255, a256, a257, a258, a259, a260, a261, a262, a263, a264, a265;\ntable\n1 1 1 1 1 1 1 1 1 1 1 1 1 1 1 1 1 1 1 1 1 1 1 1 1 1 1 1 1 1 1 1 1 1 1 1 1 1 1 1 1 1 1 1 1 1 1 1 1 1 1 1 1 1 1 1 1 1 1 1 1 1 1 1 1 1 1 1 1 1 1 1 1 1 1 1 1 1 1 1 1 1 1 1 1 1 1 1 1 1 1 1 1 1 1 1 1 1 1 1 1 1 1 1 1 1 1 1 1 1 1 1 1 1 1 1 1 1 1 1 1 1 1 1 1 1 1 1 1 1 1 1 1 1 1 1 1 1 1 1 1 1 1 1 1 1 1 1 1 1 1 1 1 1 1 1 1 1 1 1 1 1 1 1 1 1 1 1 1 1 1 1 1 1 1 1 1 1 1 1 1 1 1 1 1 1 1 1 1 1 1 1 1 1 1 1 1 1 1 1 1 1 1 1 1 1 1 1 1 1 1 1 1 1 1 1 1 1 1 1 1 1 1 1 1 1 1 1 1 1 1 1 1 1 1 1 1 1 1 1 1 1 1 1 1 1 1 1 1 1 1 1 1 1 1 1 1 1 1 1 1 1 1 1 1 1 : 1;\nendtable\nendprimitive\n",
        reached: &[true], tables: Some(2), headers: None,
    },
    PrimitiveRow {
        shows: "eleven inputs and a bad row",
        text: "primitive\np(q, a, b, c, d, e, f, g, h, i, j, k);\noutput q;\ninput a, b, c, d, e, f, g, h, i, j, k;\ntable\n0 : -;\nendtable\nendprimitive\n",
        reached: &[true], tables: Some(2), headers: None,
    },
    PrimitiveRow {
        shows: "a row of two lines stands at its first token",
        text: "primitive p(q, a, b);\noutput q;\ninput a, b;\ntable\n0 ? : 0;\n\n1\nr : 1;\nendtable\nendprimitive\n",
        reached: &[true], tables: Some(7), headers: None,
    },
    PrimitiveRow {
        shows: "a table in the second and a header in the first",
        text: "primitive p(q, a);\noutput q;\ntable\n0 : 0;\n1 : 1;\nendtable\nendprimitive\nprimitive p(q, a, b);\noutput q;\ninput a, b;\ntable\n0 ? : -;\nendtable\nendprimitive\n",
        reached: &[true, true], tables: Some(12), headers: Some(1),
    },
    PrimitiveRow {
        shows: "a table that is not reached",
        text: "primitive p(q, a, b);\noutput q;\ninput a, b;\ntable\n0 ? : -;\nendtable\nendprimitive\nprimitive p(q, a, b);\noutput q;\ninput a, b;\ntable\n0 ? : ?;\nendtable\nendprimitive\n",
        reached: &[false, true], tables: Some(12), headers: None,
    },
    PrimitiveRow {
        shows: "the first of two tables",
        text: "primitive p(q, a, b);\noutput q;\ninput a, b;\ntable\n0 ? : -;\nendtable\nendprimitive\nprimitive p(q, a, b);\noutput q;\ninput a, b;\ntable\n0 ? : ?;\nendtable\nendprimitive\n",
        reached: &[true, true], tables: Some(5), headers: None,
    },
];

/// The rows.
pub(crate) fn rows() -> &'static [PrimitiveRow] {
    &ROWS
}
