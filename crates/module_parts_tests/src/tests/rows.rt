//! The parts of modules.

use super::PartsRow;

#[rattlefmt::skip]
static ROWS: [PartsRow; 20] = [
    PartsRow {
        shows: "a header of names, one of them twice",
        text: "module t(a, b, a); endmodule",
        parts: "names(a,b,a)",
    },
    PartsRow {
        shows: "no header",
        text: "module t; endmodule",
        parts: "names()",
    },
    PartsRow {
        shows: "a header of declarations",
        text: "module t(input a, output [1:0] b, c); endmodule",
        parts: "names(a,b,c)",
    },
    PartsRow {
        shows: "declarations of names",
        text: "module t(a); input a; wire [3:0] w, x; trireg q, r; endmodule",
        parts: "names(a) names(a) names(w,x) names(q,r)",
    },
    PartsRow {
        shows: "gates and switches, with names and without",
        text: "module t; wire w; and g(a, b, c), (d, e[1], 1'b0); nmos n(x, y, z); pullup (w); endmodule",
        parts: "names() names(w) gate 1 g(a|b|c) gate 1(d|e[1]|'0) gate 2 n(x|y|z) gate 3(w)",
    },
    PartsRow {
        shows: "terminals that are literals without size or concatenations",
        text: "module t; buf (y, 6), (y, 'hz), (y, {a, 2'b1x}); endmodule",
        parts: "names() gate 0(y|'0) gate 0(y|'z) gate 0(y|a,'1x)",
    },
    PartsRow {
        shows: "assignments that are cut and extended",
        text: "module t; wire [3:0] a; wire [5:0] b; assign a = b, b = a; endmodule",
        parts: "names() names(a) names(b) pair 2 a=b cut 2 pair 2 b='00,a",
    },
    PartsRow {
        shows: "a target of concatenations",
        text: "module t; wire [3:0] a, b; wire c; assign {a[2:1], {c, b[3]}} = 9; endmodule",
        parts: "names() names(a,b) names(c) pair 2 a[2:1],c,b[3]='1001",
    },
    PartsRow {
        shows: "literals of a size, which are extended or cut",
        text: "module t; wire [3:0] a; wire c; assign a = 2'b10; assign a = 2'sb10; assign c = 2'b10; assign a = 'bx; endmodule",
        parts: "names() names(a) names(c) pair 2 a='0010 pair 3 a='1110 pair 4 c='0 pair 5 a='xxxx",
    },
    PartsRow {
        shows: "names that are declared and assigned",
        text: "module t; wire [1:0] a = b, c = {d[0], 1'b1}; endmodule",
        parts: "names() names(a) pair 0 a='0,b names(c) pair 0 c=d[0],'1",
    },
    PartsRow {
        shows: "connections by place",
        text: "module t; m u(x, y, z), v(x); endmodule",
        parts: "names() instance 0 of 0 u(0=x|1=y|2=z) instance 0 of 0 v(0=x)",
    },
    PartsRow {
        shows: "connections that are empty",
        text: "module t; m u(, y, ), v(); endmodule",
        parts: "names() instance 0 of 0 u(1=y) instance 0 of 0 v()",
    },
    PartsRow {
        shows: "named connections, with a literal of the port's width",
        text: "module t; m u(.c('bx), .a(), .b(6)); endmodule",
        parts: "names() instance 0 of 0 u(2='xxxx|1='10)",
    },
    PartsRow {
        shows: "a named connection of no port",
        text: "module t; m u(.q(7), .b(y)); endmodule",
        parts: "names() instance 0 of 0 u(-='1|1=y)",
    },
    PartsRow {
        shows: "more connections than ports",
        text: "module t; none u(6, y[1:0]); endmodule",
        parts: "names() instance 0 of 1 u(0='0|1=y[1:0])",
    },
    PartsRow {
        shows: "an instance without a name",
        text: "module t; m (x); endmodule",
        parts: "names() instance 0 of 0(0=x)",
    },
    PartsRow {
        shows: "instances of a primitive",
        text: "module t; inv (q, i), g(q, , 1); endmodule",
        parts: "names() gate 0(q|i) gate 0 g(q|'1)",
    },
    PartsRow {
        shows: "named connections of a primitive",
        text: "module t; inv (.i(b), .q(), .x(a)); endmodule",
        parts: "names() gate 0(b|a)",
    },
    PartsRow {
        shows: "instances of an unknown name among others",
        text: "module t; other u(a); inv (q, i); m v(x); other w(y); none z(); endmodule",
        parts: "names() gate 1(q|i) instance 2 of 0 v(0=x) instance 4 of 1 z()",
    },
    PartsRow {
        shows: "a specify block, which has no parts",
        text: "module t; specify endspecify and (a, b, c); endmodule",
        parts: "names() gate 1(a|b|c)",
    },
];

/// The rows.
pub(crate) fn rows() -> &'static [PartsRow] {
    &ROWS
}
