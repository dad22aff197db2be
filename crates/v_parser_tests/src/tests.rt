ghost use Rattle.std.specs.Prelude.{◌≤◌, length};

mod show;

use show::show_answer;
use std::alloc::{AllocError, Global};
use std::fmt::Write;
use std::test::Fail;
use v_lexer::tokens;
use v_parser::*;

// A row is a text and its tree, or the refused token. In a tree a number before a colon is that of
// the first token of a module, an item or an instance's parentheses.
const FILES: &str = r##" => 
module m; endmodule => 0:Module m Absent;
macromodule m; endmodule => 0:Macromodule m Absent;
module m(); endmodule => 0:Module m Empty;
module m(a); endmodule => 0:Module m (a);
module m(a,b); endmodule => 0:Module m (a,b);
module \a+ ; endmodule => 0:Module a+ Absent;
module m(input a); endmodule => 0:Module m (3:Input a);
module m(input a, b, output c); endmodule => 0:Module m (3:Input a,b,8:Output c);
module m(inout tri0 [7:0] a, input wire [0:3] b); endmodule => 0:Module m (3:Inout Tri0 [7:0] a,12:Input Wire [0:3] b);
module m(output [1:0] a, b, input supply1 c); endmodule => 0:Module m (3:Output [1:0] a,b,13:Input Supply1 c);
module a; endmodule module b; endmodule => 0:Module a Absent; 4:Module b Absent;
/* c */ module (* x *) m; // y => syntax 3
module => syntax 1
module m => syntax 2
module m; => syntax 3
module m; endmodul => syntax 4
module m; endmodule x => syntax 4
module m; endmodule; => syntax 4
module wire; => syntax 1
module 3; => syntax 1
m => syntax 0
; => syntax 0
endmodule => syntax 0
`x => unsupported 0
`celldefine => 0:Celldefine;
`endcelldefine => 0:Endcelldefine;
`resetall module m; endmodule `resetall => 1:Module m Absent; 0:Resetall; 5:Resetall;
`timescale 1ns/10ps => 0:Timescale -9/-11;
`timescale 1 s / 1 fs => 0:Timescale 0/-15;
`timescale 100 s/10s => 0:Timescale 2/1;
`timescale 100ms/10ms => 0:Timescale -1/-2;
`timescale 1ms/100us => 0:Timescale -3/-4;
`timescale 10us/1us => 0:Timescale -5/-6;
`timescale 100ns/10ns => 0:Timescale -7/-8;
`timescale 100ps/1ps => 0:Timescale -10/-12;
`timescale 100fs/10fs => 0:Timescale -13/-14;
`timescale 1ns/10\ps  => 0:Timescale -9/-11;
`timescale 0_1ns/010ps => 0:Timescale -9/-11;
`timescale 1ps/1ns => 0:Timescale -12/-9;
`default_nettype wire => 0:Default Wire;
`default_nettype tri => 0:Default Tri;
`default_nettype tri0 => 0:Default Tri0;
`default_nettype tri1 => 0:Default Tri1;
`default_nettype wand => 0:Default Wand;
`default_nettype triand => 0:Default Triand;
`default_nettype wor => 0:Default Wor;
`default_nettype trior => 0:Default Trior;
`default_nettype trireg => 0:Default Trireg;
`default_nettype none => 0:Default none;
`default_nettype \none module m; endmodule => 2:Module m Absent; 0:Default none;
`timescale 1ns/1ps `celldefine module a; endmodule `endcelldefine `default_nettype none primitive p(y); table endtable endprimitive `resetall module b; endmodule => 7:Module a Absent; 24:Module b Absent; 14:p (y) |; 0:Timescale -9/-12; 6:Celldefine; 11:Endcelldefine; 12:Default none; 23:Resetall;
`timescale 1ns/2ps => syntax 4
`timescale 1 ns/ps => syntax 4
`timescale 2ns/1ps => syntax 1
`timescale 1000ns/1ps => syntax 1
`timescale 1xs/1ps => syntax 2
`timescale 1ns 1ps => syntax 3
`timescale 1ns/ => syntax 4
`timescale 1ns/1wire => syntax 5
`timescale 1.0ns/1ps => unsupported 1
`timescale 1/1ps => syntax 2
`timescale 1'b1 s/1ps => syntax 1
`default_nettype reg => unsupported 1
`default_nettype supply0 => syntax 1
`default_nettype nine => syntax 1
`default_nettype => syntax 1
`define x => unsupported 0
`resetall; => syntax 1
`celldefine x => syntax 1
module m; `define => unsupported 3
module `celldefine m; => unsupported 1
primitive p(y); `celldefine table endtable endprimitive => unsupported 6
always => unsupported 0
primitive p(a); => syntax 6
module m( => syntax 3
module m(; => syntax 3
module m(,a); => syntax 3
module m(a,); => syntax 5
module m(a b); => syntax 4
module m(a, input b); => syntax 5
module m(a[3:0]); => syntax 4
module m(input); => syntax 4
module m(input a,); => syntax 6
module m(input a, wire b); => syntax 6
module m(input [3] a); => syntax 6
module m(input [3:0 a); => syntax 8
module m(input reg a); => unsupported 4
module m(input trireg a); => syntax 4
module m(input wire wire a); => syntax 5
module m(input a = 1); => syntax 5
module m()) => syntax 4
module m() => syntax 4
module m(a) endmodule => syntax 5
module m #(1) (a); => syntax 2
"x" => syntax 0
1.5 => unsupported 0
1e5 => unsupported 0
"##;

// Texts with primitives. A `=` shows a start value, a `*` the word `input` or `reg`; rows stand in
// brackets behind their first token, with `/` for each `:`.
const PRIMITIVES: &str =
    r##"primitive p(y,a); output y; input a; table 0 : 1 ; endtable endprimitive => 0:p (y,a) 8:o y 11:i a |15[0/1];
primitive p(y); table endtable endprimitive => 0:p (y) |;
primitive p(y,a); table endtable endprimitive module m; endmodule => 11:Module m Absent; 0:p (y,a) |;
module m; endmodule primitive p(y); table endtable endprimitive => 0:Module m Absent; 4:p (y) |;
primitive p(output y, input a); table endtable endprimitive => 0:p (>y,*a) |;
primitive p(output y, a, input b); table endtable endprimitive => 0:p (>y,a,*b) |;
primitive p(output y); table endtable endprimitive => 0:p (>y) |;
primitive p(output reg y, input a); table endtable endprimitive => 0:p (>*y,*a) |;
primitive p(output reg y = 1'b0, input a); table endtable endprimitive => 0:p (>*y=1b0,*a) |;
primitive p(output y = 1, input a); table endtable endprimitive => 0:p (>y=1,*a) |;
primitive \p+ (y,a); output reg y; input a; table endtable endprimitive => 0:p+ (y,a) 8:o *y 12:i a |;
primitive p(y,a); output y = 0; reg y; input a, b; table endtable endprimitive => 0:p (y,a) 8:o y=0 13:r y 16:i a,b |;
primitive p(y,a); output reg y = 1'bx; table endtable endprimitive => 0:p (y,a) 8:o *y=1bx |;
primitive p(y); initial y = 1'b1; table endtable endprimitive => 0:p (y) 6:y=1b1 |;
primitive p(y); reg y; initial y = 0; table endtable endprimitive => 0:p (y) 6:r y 9:y=0 |;
primitive p(y); table 0 1 : x ; ? b : 0 ; endtable endprimitive => 0:p (y) |7[01/x] 12[?b/0];
primitive p(y); table 0 : 1 : - ; r f : ? : 0 ; endtable endprimitive => 0:p (y) |7[0/1/-] 13[rf/?/0];
primitive p(y); table (01) * : b : 1 ; p n (?x) : 0 : x ; endtable endprimitive => 0:p (y) |7[(01)*/b/1] 17[pn(?x)/0/x];
primitive p(y); table (b0)(1?) : (xx) ; endtable endprimitive => 0:p (y) |7[(b0)(1?)/(xx)];
primitive p(y); table R F P N X B : X ; (BX) : B : X ; endtable endprimitive => 0:p (y) |7[rfpnxb/x] 16[(bx)/b/x];
primitive p(y); table 01:1;10:0; endtable endprimitive => 0:p (y) |7[01/1] 12[10/0];
primitive p(y); table - : r : * ; endtable endprimitive => 0:p (y) |7[-/r/*];
primitive => syntax 1
primitive p => syntax 2
primitive p; => syntax 2
primitive p(); => syntax 3
primitive p(y; => syntax 4
primitive p(y,); => syntax 5
primitive p(y) table endtable endprimitive => syntax 5
primitive p(input a, output y); => syntax 3
primitive p(output reg reg y); => unsupported 5
primitive p(output [1:0] y); => syntax 4
primitive p(output y = a); => syntax 6
primitive p(output y = ); => syntax 6
primitive p(output y, output z); => syntax 6
primitive p(output y, input a, b; => syntax 10
primitive p(reg y); => unsupported 3
primitive p(y); input reg a; => unsupported 7
primitive p(y); reg a, b; => syntax 8
primitive p(y); reg a = 1; => syntax 8
primitive p(y); output y, z; => syntax 8
primitive p(y); inout a; => syntax 6
primitive p(y); wire a; => syntax 6
primitive p(y); initial y; => syntax 8
primitive p(y); initial y = z; => syntax 9
primitive p(y); initial y = 0; initial y = 0; => unsupported 11
primitive p(y); initial y = 0; reg y; => unsupported 11
primitive p(y); always y; => unsupported 6
primitive p(y); endprimitive => syntax 6
primitive p(y); table 0 ; endtable endprimitive => syntax 8
primitive p(y); table 0 1 => syntax 9
primitive p(y); table : 0 ; endtable endprimitive => syntax 7
primitive p(y); table 0 : ; endtable endprimitive => syntax 9
primitive p(y); table 0 : 1 endtable endprimitive => syntax 10
primitive p(y); table 0 : 0 1 ; endtable endprimitive => syntax 10
primitive p(y); table 0 : 0 : ; endtable endprimitive => syntax 11
primitive p(y); table 0 : 0 : 1 : 1 ; endtable endprimitive => syntax 12
primitive p(y); table (0) : 1 ; endtable endprimitive => syntax 9
primitive p(y); table (01x) : 1 ; endtable endprimitive => syntax 10
primitive p(y); table (0r) : 1 ; endtable endprimitive => syntax 9
primitive p(y); table () : 1 ; endtable endprimitive => syntax 8
primitive p(y); table ) : 1 ; endtable endprimitive => syntax 7
primitive p(y); table endtable => syntax 8
primitive p(y); table endtable endmodule => syntax 8
primitive p(y); table endtable table endtable endprimitive => syntax 8
primitive p(y); table endtable endprimitive; => syntax 9
"##;

// The items of a module `m` that begin at token 3.
const ITEMS: &str = r##"input a; => 3:Input a
output a, b; => 3:Output a,b
inout [3:0] a; => 3:Inout [3:0] a
input wire a; => 3:Input Wire a
output tri1 [0:7] a, b; => 3:Output Tri1 [0:7] a,b
wire a; => 3:Wire a
tri a, b, c; => 3:Tri a,b,c
wand [3:0] a; => 3:Wand [3:0] a
triand scalared [3:0] a; => 3:Triand Scalared [3:0] a
wor vectored [3:0] a; => 3:Wor Vectored [3:0] a
trior #5 a; => 3:Trior 4#5 a
tri0 #(1,2,3) a; => 3:Tri0 4#(1,2,3) a
tri1 #(1:2:3) a; => 3:Tri1 4#(1:2:3) a
supply0 [1:0] #(1:2:3,4) a; => 3:Supply0 [1:0] 9#(1:2:3,4) a
supply1 a, b; => 3:Supply1 a,b
wire a = b; => 3:Wire a=b
wire a = b, c = 1; => 3:Wire a=b,c=1
wire (strong0, pull1) a = b; => 3:Wire 4(Strong0,Pull1) a=b
wire (highz1, weak0) [3:0] #1 a = b; => 3:Wire 4(Highz1,Weak0) [3:0] 14#1 a=b
wire (supply0, supply1) a; => 3:Wire 4(Supply0,Supply1) a
trireg a; => 3:Trireg a
trireg (small) a, b; => 3:Trireg Small a,b
trireg (medium) vectored [3:0] #(0,0,50) a; => 3:Trireg Medium Vectored [3:0] 13#(0,0,50) a
trireg (large) #7 a; => 3:Trireg Large 7#7 a
assign a = b; => 3:Assign a=b
assign a = b, c[1] = d[2]; => 3:Assign a=b,c[1]=d[2]
assign (strong0, strong1) #(1,2) {a, b[3:2]} = {c, 2'b1x}; => 3:Assign 4(Strong0,Strong1) 9#(1,2) {a,b[3:2]}={c,2b1x}
assign {a, {b, {c}}} = 4'sb1000; => 3:Assign {a,{b,{c}}}=4b1000s
assign a = 'h0xxxxxxxx; => 3:Assign a=-0bxxxxxxxxxxxxxxxxxxxxxxxxxxxxxxxx
assign a = 'hxxxxxxxx; => 3:Assign a=-xbxxxxxxxxxxxxxxxxxxxxxxxxxxxxxxxx
assign a = 'o7; => 3:Assign a=-0b00000000000000000000000000000111
and (y, a); => 3:And 4(y,a)
nand g (y, a, b); => 3:Nand g5(y,a,b)
or (y, a), g (z, b); => 3:Or 4(y,a),g11(z,b)
nor #3 (y, a); => 3:Nor 4#3 6(y,a)
xor #(3,4) g (y, a); => 3:Xor 4#(3,4) g11(y,a)
xnor (pull0, weak1) (y, a); => 3:Xnor 4(Pull0,Weak1) 9(y,a)
buf (highz0, strong1) #1 g (y, z, a[3]); => 3:Buf 4(Highz0,Strong1) 9#1 g12(y,z,a[3])
not (y, {a}); => 3:Not 4(y,{a})
bufif0 (y, 1, 1'bz); => 3:Bufif0 4(y,1,1bz)
bufif1 (y, a, c); => 3:Bufif1 4(y,a,c)
notif0 #(1,2,3) (y, a, c); => 3:Notif0 4#(1,2,3) 12(y,a,c)
notif1 (y, a, c); => 3:Notif1 4(y,a,c)
nmos (y, a, c); => 3:Nmos 4(y,a,c)
pmos #1 (y, a, c); => 3:Pmos 4#1 6(y,a,c)
rnmos (y, a, c); => 3:Rnmos 4(y,a,c)
rpmos (y, a, c); => 3:Rpmos 4(y,a,c)
cmos g (y, a, n, p); => 3:Cmos g5(y,a,n,p)
rcmos (y, a, n, p); => 3:Rcmos 4(y,a,n,p)
tranif0 (a, b, c); => 3:Tranif0 4(a,b,c)
tranif1 #(1,2) (a, b, c); => 3:Tranif1 4#(1,2) 10(a,b,c)
rtranif0 (a, b, c); => 3:Rtranif0 4(a,b,c)
rtranif1 (a, b, c); => 3:Rtranif1 4(a,b,c)
tran (a, b); => 3:Tran 4(a,b)
rtran g (a, b), h (c, d); => 3:Rtran g5(a,b),h12(c,d)
pullup (y); => 3:Pullup 4(y)
pulldown (strong0) g (y); => 3:Pulldown 4(Strong0) g8(y)
pullup (pull0, weak1) (y); => 3:Pullup 4(Pull0,Weak1) 9(y)
u (a); => 3:u 4(a)
u v (a, b); => 3:u v5(a,b)
u v (); => 3:u v5()
u v (,); => 3:u v5(,)
u v (a, , b); => 3:u v5(a,,b)
u v (.p(a), .q()); => 3:u v5(6.p=a,12.q=)
u #2 v (a), w (b); => 3:u 4#2 v7(a),w12(b)
u (strong0, strong1) #(1,2) v (a); => 3:u 4(Strong0,Strong1) 9#(1,2) v16(a)
\u+ \v- (a); => 3:u+ v-5(a)
u v ({a, 3, 2'hx}); => 3:u v5({a,3,2bxx})
input a; wire b; nand (a, b); => 3:Input a 6:Wire b 9:Nand 10(a,b)
input; => syntax 4
input a => syntax 5
input a b; => syntax 5
input a,; => syntax 6
input [3:0; => syntax 8
input [a:0] b; => syntax 5
input #1 a; => syntax 4
input a = b; => syntax 5
input reg a; => unsupported 4
wire; => syntax 4
wire a,; => syntax 6
wire a = ; => syntax 6
wire a, b = c; => syntax 7
wire a = b, c; => syntax 9
wire (strong0) a = b; => syntax 6
wire (a) b; => syntax 5
wire (strong0, strong1 a; => syntax 8
wire (small) a; => syntax 5
wire vectored a; => syntax 5
wire [3:0] [3:0] a; => syntax 9
wire # a; => syntax 5
wire #() a; => syntax 6
wire #(1,) a; => syntax 8
wire #(1:2) a; => syntax 9
wire #(1:2:3:4) a; => syntax 11
wire #1.5 a; => 3:Wire 4#1.5 a
buf #0.12 (y, a); => 3:Buf 4#0.12 6(y,a)
not #(0.12,0.1) (y, a); => 3:Not 4#(0.12,0.1) 10(y,a)
nor #(1:2.5:3) g (y, a); => 3:Nor 4#(1:2.5:3) g13(y,a)
xor #(0.1:0.2:00.30,4) (y, a); => 3:Xor 4#(0.1:0.2:00.30,4) 14(y,a)
u #99999999999.123456789012 v (a); => 3:u 4#99999999999.123456789012 v7(a)
trireg #(0,0,50.25) a; => 3:Trireg 4#(0,0,50.25) a
`celldefine => 3:Celldefine
`endcelldefine `celldefine wire a; => 3:Endcelldefine 4:Celldefine 5:Wire a
specify endspecify => 3:Specify 0
specify (A *> Y) = (0.2, 0.2); endspecify => 3:Specify 13
specify specify module always 3'b1 "x" `x { endspecify wire a; => 3:Specify 7 12:Wire a
wire a; specify endmodule endspecify `endcelldefine => 3:Wire a 6:Specify 1 9:Endcelldefine
wire #1e5 a; => unsupported 5
wire #.5 a; => syntax 5
wire #1.5.2 a; => syntax 6
wire #(1.5 a; => syntax 7
wire #(1:2.5) a; => syntax 9
wire #(1:2.5:) a; => syntax 10
wire [1.5:0] a; => unsupported 5
assign a = 1.5; => unsupported 6
endspecify => unsupported 3
specify endmodul endmodule => syntax 7
`timescale 1ns/1ns => unsupported 3
`resetall => unsupported 3
`default_nettype wire => unsupported 3
`celldefine; => syntax 4
wire #1 #2 a; => syntax 6
wire signed a; => unsupported 4
wire a[3]; => syntax 5
trireg (strong0, strong1) a; => syntax 5
trireg a = b; => syntax 5
trireg (small a; => syntax 6
assign a; => syntax 5
assign a = b => syntax 7
assign = b; => syntax 4
assign 1 = b; => syntax 4
assign {} = b; => syntax 5
assign {1} = b; => syntax 5
assign a = {}; => syntax 7
assign a = {b,}; => syntax 9
assign a = b,; => syntax 8
assign a = b[; => syntax 8
assign a = b[1:]; => syntax 10
assign a = b[1:2; => syntax 11
assign a = b[c]; => syntax 8
assign a = b + c; => syntax 7
assign a = ~b; => syntax 6
assign a = (b); => syntax 6
assign a = "x"; => syntax 6
assign a = 1e5; => unsupported 6
assign a == b; => syntax 6
and; => syntax 4
and (); => syntax 5
and (a,); => syntax 7
and (a,,b); => syntax 7
and (.a(b)); => syntax 5
and g; => syntax 5
and g h (a); => syntax 5
and (strong0) (a); => syntax 6
and #1 (strong0, strong1) (a); => syntax 7
and (a) (b); => syntax 7
and (a), => syntax 8
nmos (strong0, strong1) (a); => syntax 5
tran #1 (a, b); => syntax 4
pullup #1 (a); => syntax 4
pullup (strong0, strong1, pull0) (a); => syntax 8
pulldown () (a); => syntax 5
u; => syntax 4
u v; => syntax 5
u v (.a(b), c); => syntax 12
u v (a, .b(c)); => syntax 8
u v (.a); => syntax 8
u v (.(a)); => syntax 7
u v (.a(b,c)); => syntax 10
u v [3:0] (a); => syntax 5
u #(1,2 v (a); => syntax 9
u v (a) w (b); => syntax 8
u .v (a); => syntax 4
reg a; => unsupported 3
parameter a; => unsupported 3
always a; => unsupported 3
initial a; => unsupported 3
function a; => unsupported 3
generate a; => unsupported 3
integer a; => unsupported 3
defparam a; => unsupported 3
uwire a; => unsupported 3
end => unsupported 3
endtable => syntax 3
endprimitive => syntax 3
module n; endmodule => syntax 3
`define => unsupported 3
small a; => syntax 3
strong0 a; => syntax 3
vectored a; => syntax 3
; => syntax 3
1 => syntax 3
"##;

// Words that the grammar has nowhere in a module, each refused as an item.
const LEFT_OUT: &str =
    "always automatic begin case casex casez deassign defparam disable edge else end endcase endfunction endgenerate endspecify endtask event for force forever fork function generate genvar if initial integer join localparam negedge parameter posedge real realtime reg release repeat signed specparam task time unsigned uwire wait while";

// The netlist of a cell library's user.
const COUNT2: &str = r##"`timescale 1ns/10ps
`celldefine
primitive udff (q, c, d, r);
output q; reg q; input c, d, r;
table
  ? ? 0 : ? : 0;
  r 0 1 : ? : 0;
  r 1 1 : ? : 1;
  n ? 1 : ? : -;
  ? * 1 : ? : -;
  ? ? p : ? : -;
endtable
endprimitive
module DFFR (Q, QN, CK, D, RN);
output Q, QN; input CK, D, RN;
udff (q, CK, D, RN);
buf #(0.12) (Q, q);
not #(0.12,0.1) (QN, q);
specify (CK => Q) = (0.2, 0.2); endspecify
endmodule
module XOR2 (Y, A, B);
output Y; input A, B;
xor #(0.07) (Y, A, B);
endmodule
`endcelldefine
module count2 (q, ck, rn);
output [1:0] q; input ck, rn;
wire \d+1 ;
DFFR \r[0] (.Q(q[0]), .QN(d0), .CK(ck), .D(d0), .RN(rn));
XOR2 x (.Y(\d+1 ), .A(q[1]), .B(q[0]));
DFFR r1 (.Q(q[1]), .QN(), .CK(ck), .D(\d+1 ), .RN(rn));
endmodule
"##;

const COUNT2_TREE: &str =
    "83:Module DFFR (Q,QN,CK,D,RN);97:Output Q,QN 102:Input CK,D,RN 109:udff 110(q,CK,D,RN) 120:Buf 121#(0.12) 125(Q,q) 131:Not 132#(0.12,0.1) 138(QN,q) 144:Specify 13 160:Module XOR2 (Y,A,B);170:Output Y 173:Input A,B 178:Xor 179#(0.07) 183(Y,A,B) 193:Module count2 (q,ck,rn);203:Output [1:0] q 211:Input ck,rn 216:Wire d+1 219:DFFR r[0]221(222.Q=q[0],231.QN=d0,237.CK=ck,243.D=d0,249.RN=rn) 256:XOR2 x258(259.Y=d+1,265.A=q[1],274.B=q[0]) 284:DFFR r1286(287.Q=q[1],296.QN=,301.CK=ck,307.D=d+1,313.RN=rn) 7:udff (q,c,d,r) 19:o q 22:r q 25:i c,d,r |33[??0/?/0] 41[r01/?/0] 49[r11/?/1] 57[n?1/?/-] 65[?*1/?/-] 73[??p/?/-]; 0:Timescale -9/-11; 6:Celldefine; 192:Endcelldefine;";

/// The tree of a text, or its fault.
fn show_parse(alloc: Global, text: &str) -> Result<String, AllocError> {
    let mut shown = String::new(alloc);
    if text.len() > 67108864 {
        return Ok(shown);
    }
    match tokens(alloc, text.as_bytes()) {
        Ok(list) => show_answer(&mut shown, parse(alloc, text.as_bytes(), &list))?,
        Err(fault) => write!(shown, "{fault}")?,
    }
    Ok(shown)
}

#[test]
fn each_file_has_its_tree_or_its_refused_token(rt: HostRuntime) -> Result<(), Fail> {
    for row in FILES.lines() {
        let (text, wanted) = row.split_once(" => ").ok_or("no row")?;
        let shown = show_parse(rt.alloc(), text)?;
        assert_eq!(rt; shown.as_str(), wanted, "of {text}");
    }
    Ok(())
}

#[test]
fn each_primitive_has_its_tree_or_its_refused_token(rt: HostRuntime) -> Result<(), Fail> {
    for row in PRIMITIVES.lines() {
        let (text, wanted) = row.split_once(" => ").ok_or("no row")?;
        let shown = show_parse(rt.alloc(), text)?;
        assert_eq!(rt; shown.as_str(), wanted, "of {text}");
    }
    Ok(())
}

#[test]
fn the_netlist_of_a_library_user(rt: HostRuntime) -> Result<(), Fail> {
    assert_eq!(rt; show_parse(rt.alloc(), COUNT2)?.as_str(), COUNT2_TREE);
    Ok(())
}

#[test]
fn a_long_block_is_passed_over(rt: HostRuntime) -> Result<(), Fail> {
    let mut text = String::new(rt.alloc());
    text.push_str("module m; specify ")?;
    for _ in 0..1000000 {
        text.push_str("a ")?;
    }
    text.push_str("endspecify tran (a, b); endmodule")?;
    let shown = show_parse(rt.alloc(), text.as_str())?;
    assert_eq!(rt;
        shown.as_str(),
        "0:Module m Absent;3:Specify 1000000 1000005:Tran 1000006(a,b)"
    );
    Ok(())
}

/// Lists of 5,000 parts: names, concatenated picks and items.
#[test]
fn long_lists_are_whole(rt: HostRuntime) -> Result<(), Fail> {
    let mut text = String::new(rt.alloc());
    let mut wanted = String::new(rt.alloc());
    text.push_str("module m; wire a")?;
    wanted.push_str("0:Module m Absent;3:Wire a")?;
    for i in 0..5000u32 {
        write!(text, ",a{i}")?;
        write!(wanted, ",a{i}")?;
    }
    text.push_str("; assign a = {b")?;
    wanted.push_str(" 10006:Assign a={b")?;
    for i in 0..5000u32 {
        write!(text, ",b{i}")?;
        write!(wanted, ",b{i}")?;
    }
    text.push_str("};")?;
    wanted.push('}')?;
    for i in 0..5000u32 {
        let token = 20013 + 3 * i;
        write!(text, " wire c{i};")?;
        write!(wanted, " {token}:Wire c{i}")?;
    }
    text.push_str(" endmodule")?;
    assert_eq!(rt;
        show_parse(rt.alloc(), text.as_str())?.as_str(),
        wanted.as_str()
    );
    Ok(())
}

/// A module with an item.
fn around(alloc: Global, item: &str) -> Result<String, AllocError> {
    let mut text = String::new(alloc);
    text.push_str("module m; ")?;
    text.push_str(item)?;
    text.push_str(" endmodule")?;
    Ok(text)
}

/// What is wanted of a module with an item.
fn wanted_around(alloc: Global, wanted: &str) -> Result<String, AllocError> {
    let mut text = String::new(alloc);
    if !wanted.starts_with("syntax") && !wanted.starts_with("unsupported") {
        text.push_str("0:Module m Absent;")?;
    }
    text.push_str(wanted)?;
    Ok(text)
}

#[test]
fn each_item_has_its_tree_or_its_refused_token(rt: HostRuntime) -> Result<(), Fail> {
    for row in ITEMS.lines() {
        let (item, wanted) = row.split_once(" => ").ok_or("no row")?;
        let text = around(rt.alloc(), item)?;
        let shown = show_parse(rt.alloc(), text.as_str())?;
        let wanted = wanted_around(rt.alloc(), wanted)?;
        assert_eq!(rt; shown.as_str(), wanted.as_str(), "of {item}");
    }
    Ok(())
}

#[test]
fn words_that_are_left_out_are_unsupported(rt: HostRuntime) -> Result<(), Fail> {
    for word in LEFT_OUT.split(' ') {
        let text = around(rt.alloc(), word)?;
        let shown = show_parse(rt.alloc(), text.as_str())?;
        assert_eq!(rt; shown.as_str(), "unsupported 3", "of {word}");
    }
    Ok(())
}

/// An assignment of a name in so many braces.
fn nest(alloc: Global, depth: u32, open: &str, close: &str) -> Result<String, AllocError> {
    let mut text = String::new(alloc);
    text.push_str("module m; assign a = ")?;
    for _ in 0..depth {
        text.push_str(open)?;
    }
    text.push('b')?;
    for _ in 0..depth {
        text.push_str(close)?;
    }
    text.push_str("; endmodule")?;
    Ok(text)
}

#[test]
fn concatenations_stand_64_deep_at_most(rt: HostRuntime) -> Result<(), Fail> {
    let within = nest(rt.alloc(), 64, "{", "}")?;
    assert!(rt; show_parse(rt.alloc(), within.as_str())?.starts_with("0:Module"));
    let wide = nest(rt.alloc(), 64, "{c,", "}")?;
    assert!(rt; show_parse(rt.alloc(), wide.as_str())?.starts_with("0:Module"));
    let beyond = nest(rt.alloc(), 65, "{", "}")?;
    assert_eq!(rt;
        show_parse(rt.alloc(), beyond.as_str())?.as_str(),
        "syntax 70"
    );
    Ok(())
}
