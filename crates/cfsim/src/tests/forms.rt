//! The two file forms, by texts that are just inside or just outside.

use super::{LATCH, NONE, call};
use std::alloc::Global;
use std::process::Abort;
use std::test::Fail;
use std::thread::Threads;

/// Vectors for a netlist with an input `a`, which is 1.
pub const ONE: &str = "vectors 1\ninputs a\n0 1\nend 0\n";

/// A call with these two texts has this status. With 0 the text is what it writes to the output, else to the errors;
/// it writes nothing else.
pub fn assert_answer(
    rt: &(impl Abort + Threads + Sync),
    alloc: Global,
    netlist: &str,
    vectors: &str,
    status: u8,
    text: &str,
) -> Result<(), Fail> {
    let outcome = call(rt, alloc, "n.v v.txt", netlist, vectors, NONE)?;
    let (out, err) = if status == 0 { (text, "") } else { ("", text) };
    assert_eq!(rt; outcome.status, status, "at {netlist} {vectors}");
    assert_eq!(rt; outcome.out.as_str(), out, "at {netlist} {vectors}");
    assert_eq!(rt; outcome.err.as_str(), err, "at {netlist} {vectors}");
    Ok(())
}

/// The input `a` is 1, other inputs are undriven.
#[test]
fn netlists_inside_the_form(rt: HostRuntime) -> Result<(), Fail> {
    let rows = [
        // Headers, blanks and the two words for a module. No vectors are for a module without inputs.
        ("module m; endmodule", 4, "v.txt: unbuilt\n"),
        ("module m(); endmodule", 4, "v.txt: unbuilt\n"),
        ("module m( ) ;\n\t\r\x0cendmodule\n", 4, "v.txt: unbuilt\n"),
        ("module m(b); input b; endmodule", 4, "v.txt: unbuilt\n"),
        ("module m(a); output a; endmodule", 4, "v.txt: unbuilt\n"),
        ("macromodule m(a);input a;endmodule", 0, ""),
        (
            "\x0cmodule\tm\r(\na,b);output b;input a;endmodule ",
            0,
            "0 b HiZ\n",
        ),
        // Names.
        ("module _m$1(a, a$, _b); input a$, _b, a; endmodule", 0, ""),
        ("module Module(Wire, a); input Wire, a; endmodule", 0, ""),
        ("module m(strong, a); input strong, a; endmodule", 0, ""),
        ("module a(a); input a; endmodule", 0, ""),
        // Ports and wires.
        ("module m(a); input a; wire a; endmodule", 0, ""),
        ("module m(a); wire a; input a; endmodule", 0, ""),
        ("module m(a); input a; wire b, c; wire d; endmodule", 0, ""),
        (
            "module m(a, b); output b; input a; wire b, c; endmodule",
            0,
            "0 b HiZ\n",
        ),
        // Gates.
        (
            "module m(y, a); output y; input a; nand (y, a); endmodule",
            0,
            "0 y St0\n",
        ),
        (
            "module m(y, a); output y; input a; nand g(y, a, a); endmodule",
            0,
            "0 y St0\n",
        ),
        (
            "module m(y, a); nand m(y, a); output y; input a; endmodule",
            0,
            "0 y St0\n",
        ),
        (
            "module m(y, a, b); output y; input a, b; nand (y, a, b); endmodule",
            0,
            "0 y StX\n",
        ),
        (
            "module m(a, y, b); output b, y; input a; nand (b, a), g(y, b, a); endmodule",
            0,
            "0 y St1\n0 b St0\n",
        ),
        (
            "module m(a, y); output y; input a; wire b; nand g(b, a); nand h(y, b); endmodule",
            0,
            "0 y St1\n",
        ),
        (
            "module m(a, y); output y; input a; nand (y, y); endmodule",
            0,
            "0 y StX\n",
        ),
        (
            "module m(a, y); output y; input a; wire b; nand (y, b); endmodule",
            0,
            "0 y StX\n",
        ),
        // Comments, attributes and escaped names.
        ("module m(a); // a comment\ninput a; endmodule", 0, ""),
        ("module m(a); /* a comment */ input a; endmodule", 0, ""),
        ("(* a *) module m(a); input a; endmodule", 0, ""),
        (
            "module m(y, a); output y; input a; (* a = \"*)\", b *) nand (y, a); endmodule",
            0,
            "0 y St0\n",
        ),
        ("module m(\\a ); input \\a ; endmodule", 0, ""),
        (
            "module \\m+ (\\y , a); output y; input \\a ; nand \\g/1 (y, a); endmodule",
            0,
            "0 y St0\n",
        ),
        (
            "module m(\\y[0] , \\nand , a); output \\y[0] , \\nand ; input a; nand (\\y[0] , a), (\\nand , \\y[0] ); endmodule",
            0,
            "0 \\y[0]  St0\n0 \\nand  St1\n",
        ),
        (
            "module m(y, a); output y; input a; wire \\g ; nand \\g+ (y, a); endmodule",
            0,
            "0 y St0\n",
        ),
    ];
    for (netlist, status, text) in rows {
        assert_answer(&rt, rt.alloc(), netlist, ONE, status, text)?;
    }
    Ok(())
}

/// Vectors for the latch: `q` is 1 where `s` is 0, `qn` is 1 where `r` is 0, and neither is known before.
#[test]
fn vectors_inside_the_form(rt: HostRuntime) -> Result<(), Fail> {
    let rows = [
        // With and without the last line feed.
        (
            "vectors 1\ninputs s r\n0 01\n10 11\n20 10\nend 30\n",
            "0 q St1\n0 qn St0\n20 q St0\n20 qn St1\n",
        ),
        (
            "vectors 1\ninputs s r\n0 01\n10 11\n20 10\nend 30",
            "0 q St1\n0 qn St0\n20 q St0\n20 qn St1\n",
        ),
        // One input, the other order, no line of values.
        ("vectors 1\ninputs r\n5 1\nend 6\n", "0 q StX\n0 qn StX\n"),
        (
            "vectors 1\ninputs r s\n0 01\nend 9\n",
            "0 q St0\n0 qn St1\n",
        ),
        ("vectors 1\ninputs s\nend 0\n", "0 q StX\n0 qn StX\n"),
        // Times of 1 to 20 digits, zeros in front, the greatest time, the end at the last time.
        (
            "vectors 1\ninputs s\n007 0\nend 0010\n",
            "0 q StX\n0 qn StX\n7 q St1\n",
        ),
        (
            "vectors 1\ninputs s\n00000000000000000003 0\nend 4\n",
            "0 q StX\n0 qn StX\n3 q St1\n",
        ),
        (
            "vectors 1\ninputs r\n1099511627775 1\n1099511627776 0\nend 1099511627776\n",
            "0 q StX\n0 qn StX\n1099511627776 qn St1\n",
        ),
        (
            "vectors 1\ninputs s\n0 0\n1 1\nend 1\n",
            "0 q St1\n0 qn StX\n1 q StX\n",
        ),
        (
            "vectors 1\ninputs s\nend 00001099511627776\n",
            "0 q StX\n0 qn StX\n",
        ),
    ];
    for (vectors, text) in rows {
        assert_answer(&rt, rt.alloc(), LATCH, vectors, 0, text)?;
    }
    Ok(())
}

/// An escaped name of an input, which ends with a space of its own, between fields and at the end of the line.
#[test]
fn vectors_with_escaped_names(rt: HostRuntime) -> Result<(), Fail> {
    let netlist =
        "module m(\\y+ , \\a+ , b); output \\y+ ; input \\a+ , b; nand (\\y+ , \\a+ , b); endmodule";
    let rows = [
        (
            "inputs \\a+ b\n0 10\n1 11\n",
            0,
            "0 \\y+  St1\n1 \\y+  St0\n",
        ),
        (
            "inputs b \\a+\n0 10\n1 11\n",
            0,
            "0 \\y+  St1\n1 \\y+  St0\n",
        ),
        ("inputs b \\a+ \n0 10\n", 4, "v.txt: unbuilt\n"),
        ("inputs \\a+  b\n0 10\n", 4, "v.txt: unbuilt\n"),
        ("inputs a+ b\n0 10\n", 4, "v.txt: unbuilt\n"),
        ("inputs \\a+ \\b\n0 10\n", 4, "v.txt: unbuilt\n"),
        ("inputs \\a+ \\a+\n0 11\n", 4, "v.txt: unbuilt\n"),
        ("inputs \\a\n0 1\n", 4, "v.txt: unbuilt\n"),
    ];
    for (lines, status, text) in rows {
        let vectors = format!(in rt.alloc(); "vectors 1\n{lines}end 1\n")?;
        assert_answer(&rt, rt.alloc(), netlist, vectors.as_str(), status, text)?;
    }
    Ok(())
}

#[test]
fn vectors_outside_the_form(rt: HostRuntime) -> Result<(), Fail> {
    let texts = [
        // The first line.
        "",
        "\n",
        "vectors 1",
        "vectors 1\n",
        "vectors 2\ninputs s\nend 0\n",
        "vectors 01\ninputs s\nend 0\n",
        "Vectors 1\ninputs s\nend 0\n",
        "vectors\ninputs s\nend 0\n",
        "vectors 1 1\ninputs s\nend 0\n",
        // Blanks other than single spaces between fields.
        "vectors  1\ninputs s\nend 0\n",
        " vectors 1\ninputs s\nend 0\n",
        "vectors 1 \ninputs s\nend 0\n",
        "vectors\t1\ninputs s\nend 0\n",
        "vectors 1\r\ninputs s\r\nend 0\r\n",
        "vectors 1\ninputs s  r\nend 0\n",
        "vectors 1\ninputs s \nend 0\n",
        "vectors 1\ninputs s\n0  1\nend 0\n",
        "vectors 1\ninputs s\n0 1 \nend 0\n",
        "vectors 1\ninputs s\n 0 1\nend 0\n",
        // The second line.
        "vectors 1\ninputs\nend 0\n",
        "vectors 1\ninputs s s\n0 01\nend 0\n",
        "vectors 1\ninputs s r s\n0 010\nend 0\n",
        "vectors 1\ninputs t\nend 0\n",
        "vectors 1\ninputs q\nend 0\n",
        "vectors 1\ninputs sr\nend 0\n",
        "vectors 1\ninputs \\s\nend 0\n",
        "vectors 1\ninput s\nend 0\n",
        "vectors 1\nend 0\n",
        // Lines that the form has nowhere, or not there.
        "vectors 1\ninputs s\noutputs q\nend 0\n",
        "vectors 1\ninputs s\nstrobe 0\nend 0\n",
        "vectors 1\ninputs s\ninputs r\nend 0\n",
        "vectors 1\n\ninputs s\nend 0\n",
        "vectors 1\ninputs s\n// none\nend 0\n",
        "vectors 1\ninputs s\nend 0\n\n",
        "vectors 1\ninputs s\nend 0\nend 0\n",
        "vectors 1\ninputs s\nend 0\n1 1\n",
        // Values.
        "vectors 1\ninputs s r\n0 0\nend 0\n",
        "vectors 1\ninputs s r\n0 011\nend 0\n",
        "vectors 1\ninputs s r\n0 0x\nend 0\n",
        "vectors 1\ninputs s\n0 z\nend 0\n",
        "vectors 1\ninputs s r\n0 0_1\nend 0\n",
        "vectors 1\ninputs s\n0 2\nend 0\n",
        "vectors 1\ninputs s\n0\nend 0\n",
        "vectors 1\ninputs s\n0 1 1\nend 0\n",
        // Times.
        "vectors 1\ninputs s\n3 0\n3 1\nend 4\n",
        "vectors 1\ninputs s\n3 0\n2 1\nend 4\n",
        "vectors 1\ninputs s\n3 0\nend 2\n",
        "vectors 1\ninputs s\n1099511627777 0\nend 1099511627777\n",
        "vectors 1\ninputs s\nend 1099511627777\n",
        "vectors 1\ninputs s\n18446744073709551617 0\nend 18446744073709551618\n",
        "vectors 1\ninputs s\n000000000000000000003 0\nend 4\n",
        "vectors 1\ninputs s\n-1 0\nend 4\n",
        "vectors 1\ninputs s\n1_0 0\nend 40\n",
        "vectors 1\ninputs s\nx 0\nend 4\n",
        // The end.
        "vectors 1\ninputs s\n",
        "vectors 1\ninputs s\n0 1\n",
        "vectors 1\ninputs s\nend\n",
        "vectors 1\ninputs s\nend \n",
        "vectors 1\ninputs s\nend 3 4\n",
        "vectors 1\ninputs s\nEnd 3\n",
    ];
    for vectors in texts {
        assert_answer(&rt, rt.alloc(), LATCH, vectors, 4, "v.txt: unbuilt\n")?;
    }
    Ok(())
}
