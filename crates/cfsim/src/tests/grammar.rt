//! Netlists that the grammar refuses, and those that it accepts but that aren't built yet.

use super::forms::{ONE, assert_answer};
use std::alloc::Global;
use std::process::Abort;
use std::test::Fail;
use std::thread::Threads;

/// Each netlist is refused with the line and the kind of what is wrong with it.
fn assert_refused(
    rt: &(impl Abort + Threads + Sync),
    alloc: Global,
    rows: &[(&str, &str)],
) -> Result<(), Fail> {
    for (netlist, wrong) in rows {
        let text = format!(in alloc; "n.v:{wrong}\n")?;
        assert_answer(rt, alloc, netlist, ONE, 3, text.as_str())?;
    }
    Ok(())
}

/// They come before a bad token that stands earlier.
#[test]
fn lexical_faults(rt: HostRuntime) -> Result<(), Fail> {
    let rows = [
        (
            "module m(y);\noutput y;\n/* open\nendmodule\n",
            "3: open comment",
        ),
        ("module m;\n(* open\nendmodule\n", "2: open comment"),
        ("module m;\nendmodule \"open\n\"", "2: open string"),
        (
            "module m(y); wire [0:99999999999] a;\nendmodule\n",
            "1: bad number",
        ),
        (
            "module m;\nwire #2147483648 a;\nendmodule\n",
            "2: bad number",
        ),
        ("module m;\nassign a = 4'b12;\nendmodule\n", "2: bad number"),
        (
            "module m;\nassign a = 129'b1;\nendmodule\n",
            "2: bad number",
        ),
        ("module m;\nassign a = 'q1;\nendmodule\n", "2: bad number"),
        ("module m;\nassign a = 'b;\nendmodule\n", "2: bad number"),
        (
            "module m;\nassign a = 'h1_0000_0000;\nendmodule\n",
            "2: bad number",
        ),
        ("module m(a);\x0binput a; endmodule", "1: bad byte"),
        ("module m;\n\nwire \x01a;\nendmodule\n", "3: bad byte"),
        ("module m; // é\nwire é;\nendmodule\n", "2: bad byte"),
        ("module m;\nwire \\ a;\nendmodule\n", "2: bad byte"),
        ("`1\nmodule m; endmodule\n", "1: bad byte"),
        (
            "primitive p(q, a);\noutput q; input a;\ntable\n0 : 2;\nendtable endprimitive\n",
            "4: bad byte",
        ),
        ("module module;\nendmodule /* open\n", "2: open comment"),
        ("always\nalways\nwire \x7f;\n", "3: bad byte"),
    ];
    assert_refused(&rt, rt.alloc(), rows.as_slice())
}

#[test]
fn headers_outside_the_grammar(rt: HostRuntime) -> Result<(), Fail> {
    let rows = [
        ("wire a;\nmodule m; endmodule\n", "1: syntax error"),
        ("module m; endmodule\n;", "2: syntax error"),
        ("module m; endmodule\nendmodule", "2: syntax error"),
        ("module m", "1: syntax error"),
        ("module m\n\n", "3: syntax error"),
        ("module m(a)", "1: syntax error"),
        ("module (a); input a; endmodule", "1: syntax error"),
        ("module 1m(a); input a; endmodule", "1: syntax error"),
        ("module $m(a); input a; endmodule", "1: syntax error"),
        ("module nand(a); input a; endmodule", "1: syntax error"),
        ("modulem(a); input a; endmodule", "1: syntax error"),
        ("module m(a) input a; endmodule", "1: syntax error"),
        ("module m(a,); input a; endmodule", "1: syntax error"),
        ("module m(,a); input a; endmodule", "1: syntax error"),
        ("module m(a b); input a, b; endmodule", "1: syntax error"),
        ("module m\n(a, b;\nendmodule\n", "2: syntax error"),
        (
            "module m(strong0, a); input strong0, a; endmodule",
            "1: syntax error",
        ),
        (
            "module m(while, a); input while, a; endmodule",
            "1: unsupported",
        ),
        (
            "module m(input a,\noutput);\nendmodule\n",
            "2: syntax error",
        ),
        ("module m(input [3] a);\nendmodule\n", "1: syntax error"),
        ("module m(a,\ninput b);\nendmodule\n", "2: syntax error"),
        ("module m(input\nreg a);\nendmodule\n", "2: unsupported"),
        (
            "module m\n#(parameter w = 1) (a);\nendmodule\n",
            "2: syntax error",
        ),
        ("module m(.a(b));\nendmodule\n", "1: syntax error"),
        (
            "module m;\n`timescale 1ns/1ns\nendmodule\n",
            "2: unsupported",
        ),
    ];
    assert_refused(&rt, rt.alloc(), rows.as_slice())
}

#[test]
fn declarations_outside_the_grammar(rt: HostRuntime) -> Result<(), Fail> {
    let rows = [
        ("module m(a); input a;", "1: syntax error"),
        ("module m(a); input a endmodule", "1: syntax error"),
        ("module m(a);\ninput a,;\nendmodule\n", "2: syntax error"),
        ("module m(a);\ninput reg a;\nendmodule\n", "2: unsupported"),
        ("module m(a); input a; wire; endmodule", "1: syntax error"),
        ("module m;\nwire [3:0;\nendmodule\n", "2: syntax error"),
        ("module m;\nwire [3:-1] a;\nendmodule\n", "2: syntax error"),
        (
            "module m;\nwire (strong0)\na;\nendmodule\n",
            "2: syntax error",
        ),
        (
            "module m;\nwire\nsigned [3:0] a;\nendmodule\n",
            "3: unsupported",
        ),
        ("module m;\nwire a, b\n= c;\nendmodule\n", "3: syntax error"),
        (
            "module m;\nwire a = b, c\n;\nendmodule\n",
            "3: syntax error",
        ),
        (
            "module m;\ntrireg (tiny) a;\nendmodule\n",
            "2: syntax error",
        ),
        ("module m;\ntrireg a\n= b;\nendmodule\n", "3: syntax error"),
        ("module m;\nassign a;\nendmodule\n", "2: syntax error"),
        ("module m;\nassign 1 = a;\nendmodule\n", "2: syntax error"),
        (
            "module m;\nassign {a,\n1} = b;\nendmodule\n",
            "3: syntax error",
        ),
        (
            "module m;\nassign a = b\n+ c;\nendmodule\n",
            "3: syntax error",
        ),
        ("module m;\nassign a = {};\nendmodule\n", "2: syntax error"),
        (
            "module m;\nassign a[b] = c;\nendmodule\n",
            "2: syntax error",
        ),
        ("module m;\nassign a =\n1.5;\nendmodule\n", "3: unsupported"),
        ("module m;\nassign a =\n1e3;\nendmodule\n", "3: unsupported"),
        (
            "module m;\nassign a =\n\"b\";\nendmodule\n",
            "3: syntax error",
        ),
        (
            "module m(y);\noutput y;\nalways @(y);\nendmodule\n",
            "3: unsupported",
        ),
        ("module m;\nparameter w = 4;\nendmodule\n", "2: unsupported"),
        ("module m;\nreg a;\nendmodule\n", "2: unsupported"),
        ("module m;\nwire initial;\nendmodule\n", "2: unsupported"),
        ("module m;\n\n`define a\nendmodule\n", "3: unsupported"),
        (
            "module m(y);\noutput y;\nspecify\n(a *> y) = 1;\nendmodule\n",
            "6: syntax error",
        ),
        ("module m;\nendspecify\nendmodule\n", "2: unsupported"),
        (
            "module m;\nbuf #(1:0.5)\n(y, a);\nendmodule\n",
            "2: syntax error",
        ),
        ("module m;\nwire [0.5:0] a;\nendmodule\n", "2: unsupported"),
    ];
    assert_refused(&rt, rt.alloc(), rows.as_slice())
}

#[test]
fn directives_outside_the_grammar(rt: HostRuntime) -> Result<(), Fail> {
    let rows = [
        ("`timescale 1ns/2ps\n", "1: syntax error"),
        ("`timescale 1\nns/ps\n", "2: syntax error"),
        ("`timescale\n1000 ns/1 ps\n", "2: syntax error"),
        ("`timescale 1\nxs/1 ps\n", "2: syntax error"),
        ("`timescale 1ns\n1ps\n", "2: syntax error"),
        ("`timescale\n1.0 ns/1 ps\n", "2: unsupported"),
        ("`default_nettype\nreg\n", "2: unsupported"),
        ("`default_nettype\nsupply0\n", "2: syntax error"),
        ("`default_nettype\nnet\n", "2: syntax error"),
        ("`resetall\nx\n", "2: syntax error"),
        ("\n`define x\n", "2: unsupported"),
        ("`celldefine\n`include\n", "2: unsupported"),
    ];
    assert_refused(&rt, rt.alloc(), rows.as_slice())
}

#[test]
fn gates_outside_the_grammar(rt: HostRuntime) -> Result<(), Fail> {
    let rows = [
        ("module m(y);\noutput y;\nendmodul", "3: syntax error"),
        ("module m(a); input a; endmodul", "1: syntax error"),
        ("module m(a); input a; endmodule;", "1: syntax error"),
        (
            "module m(y, a); output y; input a; nand (); endmodule",
            "1: syntax error",
        ),
        (
            "module m(y, a); output y; input a; nand g; endmodule",
            "1: syntax error",
        ),
        (
            "module m(y, a); output y; input a; nand (y, a),; endmodule",
            "1: syntax error",
        ),
        (
            "module m(y, a); output y; input a; nand (y, a,); endmodule",
            "1: syntax error",
        ),
        (
            "module m(y, a); output y; input a; wire b; nand (y, a) (b, a); endmodule",
            "1: syntax error",
        ),
        ("module m;\nnand #\n(y, a);\nendmodule\n", "3: syntax error"),
        (
            "module m;\nnand #(1:2)\n(y, a);\nendmodule\n",
            "2: syntax error",
        ),
        (
            "module m;\nnand g\n[3:0] (y, a);\nendmodule\n",
            "3: syntax error",
        ),
        ("module m;\nnand (.y(y));\nendmodule\n", "2: syntax error"),
        (
            "module m;\nnmos (strong0, strong1) (a, b, c);\nendmodule\n",
            "2: syntax error",
        ),
        (
            "module m;\ntran\n#1 (a, b);\nendmodule\n",
            "3: syntax error",
        ),
        (
            "module m;\npullup (supply1,\n) (a);\nendmodule\n",
            "3: syntax error",
        ),
        (
            "module m;\npulldown\n#1 (a);\nendmodule\n",
            "3: syntax error",
        ),
        ("module m;\nbuf b(y, a)\nendmodule\n", "3: syntax error"),
        ("module m;\nn u(.a(b),\nc);\nendmodule\n", "3: syntax error"),
        ("module m;\nn u(b,\n.a(c));\nendmodule\n", "3: syntax error"),
        ("module m;\nn u(.a(b\nc));\nendmodule\n", "3: syntax error"),
        ("module m;\nn u(.a\n);\nendmodule\n", "3: syntax error"),
        ("module m;\nn u(.1(a));\nendmodule\n", "2: syntax error"),
        ("module m;\nn #(1, 2\nu(a);\nendmodule\n", "3: syntax error"),
        ("module m;\nn u\n;\nendmodule\n", "3: syntax error"),
    ];
    assert_refused(&rt, rt.alloc(), rows.as_slice())
}

#[test]
fn primitives_outside_the_grammar(rt: HostRuntime) -> Result<(), Fail> {
    let rows = [
        ("primitive p\n;\nendprimitive\n", "2: syntax error"),
        ("primitive p(output q,\ninput);\n", "2: syntax error"),
        (
            "primitive p(output reg q = a, input b);\n",
            "1: syntax error",
        ),
        ("primitive p(reg q, a);\n", "1: unsupported"),
        ("primitive p(q, a);\noutput q; wire a;\n", "2: syntax error"),
        (
            "primitive p(q, a);\noutput q; input a;\nalways\n",
            "3: unsupported",
        ),
        (
            "primitive p(q, a);\ninitial q = 0;\noutput q;\n",
            "3: syntax error",
        ),
        (
            "primitive p(q, a);\noutput q; input a;\ninitial q = 1'b0\ntable\n",
            "4: syntax error",
        ),
        (
            "primitive p(q, a);\noutput q; input a;\ntable\n0 1;\nendtable endprimitive\n",
            "4: syntax error",
        ),
        (
            "primitive p(q, a);\noutput q; input a;\ntable\n: 1;\nendtable endprimitive\n",
            "4: syntax error",
        ),
        (
            "primitive p(q, a);\noutput q; input a;\ntable\n0 : ;\nendtable endprimitive\n",
            "4: syntax error",
        ),
        (
            "primitive p(q, a);\noutput q; input a;\ntable\n0 : 1\n: 0 : 1;\nendtable endprimitive\n",
            "5: syntax error",
        ),
        (
            "primitive p(q, a);\noutput q; input a;\ntable\n(0) : 1;\nendtable endprimitive\n",
            "4: syntax error",
        ),
        (
            "primitive p(q, a);\noutput q; input a;\ntable\n(0r) : 1;\nendtable endprimitive\n",
            "4: syntax error",
        ),
        (
            "primitive p(q, a);\noutput q; input a;\ntable\n0 : 1;\n",
            "5: syntax error",
        ),
        (
            "primitive p(q, a);\noutput q; input a;\ntable\n0 : 1;\nendtable\nendmodule\n",
            "6: syntax error",
        ),
        ("module m;\ntable\n", "2: syntax error"),
    ];
    assert_refused(&rt, rt.alloc(), rows.as_slice())
}

#[test]
fn netlists_outside_the_form(rt: HostRuntime) -> Result<(), Fail> {
    let netlists = [
        // Descriptions and headers.
        "",
        "// nothing\n",
        "module m(a); input a; endmodule module n; endmodule",
        "primitive p(q, a); output q; input a; table 0 : 1; 1 : 0; endtable endprimitive",
        "primitive p(q, a); output q; input a; table 0 : 1; 1 : 0; endtable endprimitive module m(y, a); output y; input a; nand (y, a); endmodule",
        "module m(y, a); output y; input a; nand (y, a); endmodule primitive p(output reg q = 1'b0, input c, d); table r 0 : ? : 0; (01) 1 : ? : 1; n ? : ? : -; ? * : ? : -; endtable endprimitive",
        "primitive p(q, a); output q; reg q; input a; initial q = 1; table (?0) : ? : -; endtable endprimitive",
        "module m(output y, input a); nand (y, a); endmodule",
        "module m(output wire [3:0] y, z, input a); endmodule",
        // Directives, cells, blocks and decimals.
        "`timescale 1ns/10ps module m(y, a); output y; input a; nand (y, a); endmodule",
        "`timescale 1 ns/10\\ps module m(y, a); output y; input a; nand (y, a); endmodule",
        "`default_nettype none module m(y, a); output y; input a; nand (y, a); endmodule",
        "module m(y, a); output y; input a; nand (y, a); endmodule `resetall",
        "`celldefine module m(y, a); output y; input a; nand (y, a); endmodule `endcelldefine",
        "module m(y, a); output y; input a; `celldefine nand (y, a); endmodule",
        "module m(y, a); output y; input a; nand (y, a); specify endspecify endmodule",
        "module m(y, a); output y; input a; nand #0.5 (y, a); endmodule",
        "`resetall",
        // Ports and nets.
        "module m(a, a); input a; endmodule",
        "module m(a, b); input a; endmodule",
        "module m(a); input a; input a; endmodule",
        "module m(a); input a, a; endmodule",
        "module m(a); input a; output a; endmodule",
        "module m(a); input a, b; endmodule",
        "module m; input a; endmodule",
        "module m(a, b); input a; inout b; endmodule",
        "module m(a); input wire a; endmodule",
        "module m(a); input [0:0] a; endmodule",
        "module m(a); input a; wire a; wire a; endmodule",
        "module m(a); input a; wire b, b; endmodule",
        "module m(a); input a; wire b, \\b ; endmodule",
        "module m(a); input a; tri b; endmodule",
        "module m(a); input a; wor #1 b; supply0 c; endmodule",
        "module m(a); input a; wire [3:0] b; endmodule",
        "module m(a); input a; wire vectored [3:0] b; endmodule",
        "module m(a); input a; wire #2 b; endmodule",
        "module m(a); input a; wire (weak0, weak1) b; endmodule",
        "module m(a); input a; wire b = a; endmodule",
        "module m(a); input a; trireg (small) #(0, 0, 50) b; endmodule",
        "module m(a); input a; assign #(1:2:3, 4) {b, c[1]} = {a, 2'b10, 3}; endmodule",
        // Gates and instances.
        "module m(y, a); output y; input a; nand (y); endmodule",
        "module m(y, a); output y; input a; nand #1 (y, a); endmodule",
        "module m(y, a); output y; input a; nand (strong0, strong1) (y, a); endmodule",
        "module m(y, a); output y; input a; nor (y, a); endmodule",
        "module m(y, a); output y; input a; nand (y, 1); endmodule",
        "module m(y, a); output y; input a; nand (y, 1'b1); endmodule",
        "module m(y, a); output y; input a; nand (y, a[0]); endmodule",
        "module m(y, a); output y; input a; nand (y, {a}); endmodule",
        "module m(y, a); output y; input a; nand (y, b); endmodule",
        "module m(y, a); output y; input a; nand (b, a); endmodule",
        "module m(y, a); output y; input a; nand (y, a); nand (y, y); endmodule",
        "module m(y, a); output y; input a; nand (y, a), (y, y); endmodule",
        "module m(y, a); output y; input a; nand (a, y); endmodule",
        "module m(y, a); output y; input a; nand a(y, a); endmodule",
        "module m(y, a); output y; input a; nand \\a (y, a); endmodule",
        "module m(y, a); output y; input a; wire b; nand g(y, a); nand g(b, a); endmodule",
        "module m(y, a); output y; input a; nand g(y, a); wire g; endmodule",
        "module m(y, a); output y; input a; cmos #1 c(y, a, y, a); endmodule",
        "module m(y, a); output y; input a; rtranif1 (y, a, a); tran (y, a); endmodule",
        "module m(y, a); output y; input a; pullup (supply1) (y); endmodule",
        "module m(y, a); output y; input a; pulldown (y); endmodule",
        "module m(y, a); output y; input a; n u(y, , a); endmodule",
        "module m(y, a); output y; input a; n #1 u(.p(y), .q()); endmodule",
        "module m(y, a); output y; input a; n (y, a); endmodule",
    ];
    for netlist in netlists {
        assert_answer(&rt, rt.alloc(), netlist, ONE, 3, "n.v: unbuilt\n")?;
    }
    Ok(())
}

/// A part of a text, with a space between its tokens: what is wrong with the word `always` before one of them, and
/// whether the text may end behind it.
struct Part {
    tokens: &'static str,
    wrong: &'static str,
    is_end: bool,
}

/// A text with each rule of the grammar.
#[rattlefmt::skip]
static PARTS: [Part; 46] = [
    Part { tokens: "`timescale 10 ns / 1 \\ps", wrong: "unsupported", is_end: true },
    Part { tokens: "`celldefine", wrong: "unsupported", is_end: true },
    Part { tokens: "`default_nettype none", wrong: "unsupported", is_end: true },
    Part { tokens: "`default_nettype wor", wrong: "unsupported", is_end: true },
    Part { tokens: "`resetall", wrong: "unsupported", is_end: true },
    Part { tokens: "primitive dff ( q , c , d ) ;", wrong: "unsupported", is_end: false },
    Part { tokens: "output q ;", wrong: "unsupported", is_end: false },
    Part { tokens: "reg q ;", wrong: "unsupported", is_end: false },
    Part { tokens: "input c , d ;", wrong: "unsupported", is_end: false },
    Part { tokens: "initial q = 1'b0 ;", wrong: "unsupported", is_end: false },
    Part { tokens: "table", wrong: "unsupported", is_end: false },
    Part { tokens: "r 0 : ? : 0 ;", wrong: "bad byte", is_end: false },
    Part { tokens: "( 0 1 ) 1 : ? : 1 ;", wrong: "bad byte", is_end: false },
    Part { tokens: "n ? : ? : - ;", wrong: "bad byte", is_end: false },
    Part { tokens: "endtable", wrong: "bad byte", is_end: false },
    Part { tokens: "endprimitive", wrong: "unsupported", is_end: true },
    Part { tokens: "primitive inv ( output y = 1 , input a , b ) ;", wrong: "unsupported", is_end: false },
    Part { tokens: "table", wrong: "unsupported", is_end: false },
    Part { tokens: "0 x : 1 ;", wrong: "bad byte", is_end: false },
    Part { tokens: "endtable", wrong: "bad byte", is_end: false },
    Part { tokens: "endprimitive", wrong: "unsupported", is_end: true },
    Part { tokens: "module m ( y , a ) ;", wrong: "unsupported", is_end: false },
    Part { tokens: "output tri [ 3 : 0 ] y ;", wrong: "unsupported", is_end: false },
    Part { tokens: "input a , b ;", wrong: "unsupported", is_end: false },
    Part { tokens: "wire ( strong0 , pull1 ) # ( 1 : 2 : 3 , 4 ) c = { a , y [ 1 ] , 2'b10 } , d = 3 ;", wrong: "unsupported", is_end: false },
    Part { tokens: "wand vectored [ 7 : 0 ] # 5 e , f ;", wrong: "unsupported", is_end: false },
    Part { tokens: "trireg ( small ) scalared [ 1 : 0 ] # ( 0 , 0.5 , 50 ) g ;", wrong: "unsupported", is_end: false },
    Part { tokens: "assign ( weak0 , highz1 ) # 2 { h , y [ 3 : 2 ] } = k , l = 0 ;", wrong: "unsupported", is_end: false },
    Part { tokens: "`endcelldefine", wrong: "unsupported", is_end: false },
    Part { tokens: "specify", wrong: "unsupported", is_end: false },
    Part { tokens: "( a *> y ) = 0.2 ;", wrong: "syntax error", is_end: false },
    Part { tokens: "endspecify", wrong: "syntax error", is_end: false },
    Part { tokens: "nand ( strong0 , strong1 ) # 1.25 g1 ( y , a , b ) , ( h , 1'b1 ) ;", wrong: "unsupported", is_end: false },
    Part { tokens: "cmos # ( 2 ) ( y , a , b , c ) ;", wrong: "unsupported", is_end: false },
    Part { tokens: "rtran t ( a , b ) ;", wrong: "unsupported", is_end: false },
    Part { tokens: "pullup ( supply1 ) ( a ) ;", wrong: "unsupported", is_end: false },
    Part { tokens: "pulldown ( strong0 , strong1 ) p ( b ) ;", wrong: "unsupported", is_end: false },
    Part { tokens: "dff # 1 f1 ( a , , b ) , f2 ( . q ( a ) , . c ( ) ) ;", wrong: "unsupported", is_end: false },
    Part { tokens: "sub ( strong1 , weak0 ) u ( ) ;", wrong: "unsupported", is_end: false },
    Part { tokens: "endmodule", wrong: "unsupported", is_end: true },
    Part { tokens: "macromodule sub ( input wire [ 2 : 1 ] s , output t , u ) ;", wrong: "unsupported", is_end: false },
    Part { tokens: "endmodule", wrong: "unsupported", is_end: true },
    Part { tokens: "module top ;", wrong: "unsupported", is_end: false },
    Part { tokens: "endmodule", wrong: "unsupported", is_end: true },
    Part { tokens: "module bare ( ) ;", wrong: "unsupported", is_end: false },
    Part { tokens: "endmodule", wrong: "unsupported", is_end: true },
];

fn parts() -> &'static [Part] {
    &PARTS
}

/// Lines of a text, the number of the line behind them, and whether the text may end there.
#[derive(Drop)]
struct Lines {
    text: String,
    next: u64,
    is_whole: bool,
}

/// These lines and one more are refused at that one.
fn assert_refused_at_end(
    rt: &(impl Abort + Threads + Sync),
    alloc: Global,
    lines: &Lines,
    last: &str,
    wrong: &str,
) -> Result<(), Fail> {
    let netlist = format!(in alloc; "{}{last}", lines.text)?;
    let text = format!(in alloc; "n.v:{}: {wrong}\n", lines.next)?;
    assert_answer(rt, alloc, netlist.as_str(), ONE, 3, text.as_str())
}

/// Adds a line for each token of the part. Before each of them the word is refused, and the end where it may not be.
fn add_part(
    rt: &(impl Abort + Threads + Sync),
    alloc: Global,
    lines: &mut Lines,
    part: &Part,
) -> Result<(), Fail> {
    for token in part.tokens.split(' ') {
        assert_refused_at_end(rt, alloc, lines, "always", part.wrong)?;
        if !lines.is_whole {
            assert_refused_at_end(rt, alloc, lines, "", "syntax error")?;
        }
        lines.text.push_str(token)?;
        lines.text.push_str("\n")?;
        lines.next = lines.next.saturating_add(1);
        lines.is_whole = false;
    }
    lines.is_whole = part.is_end;
    Ok(())
}

/// Each first part of a text is one: where it is cut, the end is out of place, and so is a word that the grammar
/// leaves out.
#[test]
fn a_cut_text_is_refused_at_its_end(rt: HostRuntime) -> Result<(), Fail> {
    let alloc = rt.alloc();
    let mut lines = Lines {
        text: String::new(alloc),
        next: 1,
        is_whole: true,
    };
    for part in parts() {
        add_part(&rt, alloc, &mut lines, part)?;
    }
    assert_answer(&rt, alloc, lines.text.as_str(), ONE, 3, "n.v: unbuilt\n")
}
