ghost use Rattle.std.specs.Prelude.{◌≤◌, length};

use std::alloc::{AllocError, Global};
use std::fmt::Write;
use std::test::Fail;
use v_lexer::*;

// A row is a text and what its tokens are. A token is its kind, its line and its bytes. `^n`, `^t`,
// `^r`, `^f` and `^v` stand for a line feed, a tab, a carriage return, a form feed and a vertical
// tab, and `^0`, `^1`, `^7`, `^8` and `^9` for the bytes 0, 1, 127, 128 and 255.
const ROWS: &str = r##" => .1:
a => N1:a .1:
_ => N1:_ .1:
a_$9 => N1:a_$9 .1:
$a => M1:$ N1:a .1:
\a+b c => N1:\a+b N1:c .1:
\wire ; => N1:\wire M1:; .1:
\a => N1:\a .1:
\\ => N1:\\ .1:
\a^tb => N1:\a N1:b .1:
\(* => N1:\(* .1:
\a//b => N1:\a//b .1:
wire => K1:wire .1:
wires => N1:wires .1:
Wire => N1:Wire .1:
wire$ => N1:wire$ .1:
strong strong0 supply supply1 none => N1:strong K1:strong0 N1:supply K1:supply1 N1:none .1:
0 => I1:0 .1:
12 => I1:12 .1:
1_0 => I1:1_0 .1:
1__ => I1:1__ .1:
2147483647 => I1:2147483647 .1:
2147483648 => bad number in line 1
2_147_483_648 => bad number in line 1
000000000000000000000000000000000000000000000012 => I1:000000000000000000000000000000000000000000000012 .1:
99999999999999999999999999999999999999999999999 => bad number in line 1
12.5 => D1:12.5 .1:
12.e => I1:12 M1:. N1:e .1:
3e => I1:3 N1:e .1:
3e+4 => E1:3e+4 .1:
3E4 => E1:3E4 .1:
1.5e-3x => E1:1.5e-3 N1:x .1:
3e+ => I1:3 N1:e M1:+ .1:
3e-x => I1:3 N1:e M1:- N1:x .1:
1_0.5 => I1:1_0 M1:. I1:5 .1:
1_0e5 => E1:1_0e5 .1:
1.5_0 => D1:1.5 N1:_0 .1:
1e5_0 => E1:1e5 N1:_0 .1:
99999999999.5 => D1:99999999999.5 .1:
99999999999.5e1 => E1:99999999999.5e1 .1:
99999999999e1 => bad number in line 1
.5 => M1:. I1:5 .1:
1.2.3 => D1:1.2 M1:. I1:3 .1:
1e5.2 => E1:1e5 M1:. I1:2 .1:
12abc => I1:12 N1:abc .1:
12 .5 => I1:12 M1:. I1:5 .1:
1e 5 => I1:1 N1:e I1:5 .1:
1.5'b1 => D1:1.5 B1:'b1 .1:
1e3'b1 => E1:1e3 B1:'b1 .1:
4'b1 => B1:4'b1 .1:
4 'sb 1_x? => B1:4 'sb 1_x? .1:
4 ' sb1_x? => bad number in line 1
'o => bad number in line 1
'd x => B1:'d x .1:
'd12x => bad number in line 1
' => bad number in line 1
'x => bad number in line 1
'b_1 => bad number in line 1
'b2 => bad number in line 1
'o7 'o8 => bad number in line 1
'o7 => B1:'o7 .1:
'hFfxZ? => B1:'hFfxZ? .1:
'hg => bad number in line 1
'd? 'dz_ => B1:'d? B1:'dz_ .1:
'd_z => bad number in line 1
'dxx => bad number in line 1
'dx1 => bad number in line 1
'dA => bad number in line 1
4'b1'b0 => B1:4'b1 B1:'b0 .1:
4^n'h^nf => B1:4^n'h^nf .3:
4 ^n'b1 a => B1:4 ^n'b1 N2:a .2:
4'b1.5 => B1:4'b1 M1:. I1:5 .1:
4'h1e5 => B1:4'h1e5 .1:
4'b1$ => B1:4'b1 M1:$ .1:
4'b/**/1 => bad number in line 1
4/**/'b1 => I1:4 B1:'b1 .1:
0'b1 => bad number in line 1
1'b1 128'b1 => B1:1'b1 B1:128'b1 .1:
129'b1 => bad number in line 1
2147483648'b1 => bad number in line 1
1_2_8'b1 => B1:1_2_8'b1 .1:
'hffffffff => B1:'hffffffff .1:
'h100000000 => bad number in line 1
'h0_00000000000 => B1:'h0_00000000000 .1:
'hxxxxxxxx => B1:'hxxxxxxxx .1:
'hxxxxxxxxx => bad number in line 1
'o37777777777 'o07777777777 => B1:'o37777777777 B1:'o07777777777 .1:
'o40000000000 => bad number in line 1
'ox7777777777 => bad number in line 1
'd4294967295 => B1:'d4294967295 .1:
'd4294967296 => bad number in line 1
64'd4294967296 => B1:64'd4294967296 .1:
128'd340282366920938463463374607431768211455 => B1:128'd340282366920938463463374607431768211455 .1:
128'd340282366920938463463374607431768211456 => bad number in line 1
1'hffffffffff => B1:1'hffffffffff .1:
'sd1 'Sb1 'SD1 'sO1 'H1 => B1:'sd1 B1:'Sb1 B1:'SD1 B1:'sO1 B1:'H1 .1:
's1 => bad number in line 1
'ssb1 => bad number in line 1
"a" => Q1:"a" .1:
"" => Q1:"" .1:
"a\"b" => Q1:"a\"b" .1:
"a\\" => open string in line 1
"a\\" " => Q1:"a\\" " .1:
"a => open string in line 1
"a^nb" => open string in line 1
^n"a => open string in line 2
"a"b"c" => Q1:"a" N1:b Q1:"c" .1:
"//" => Q1:"//" .1:
`a `wire$1 `_ => Y1:`a Y1:`wire$1 Y1:`_ .1:
` => bad byte in line 1
`1 => bad byte in line 1
``a => bad byte in line 1
#5 => M1:# I1:5 .1:
[3:0] => M1:[ I1:3 M1:: I1:0 M1:] .1:
!~@{}/ => M1:! M1:~ M1:@ M1:{ M1:} M1:/ .1:
(*) => M1:( M1:* M1:) .1:
(*)*) => M1:( M1:* M1:) M1:* M1:) .1:
( * a ) => M1:( M1:* N1:a M1:) .1:
*/ => M1:* M1:/ .1:
/ / => M1:/ M1:/ .1:
a^tb^nc^rd^fe f => N1:a N1:b N2:c N2:d N2:e N2:f .2:
^n^n => .3:
a^n^0 => bad byte in line 2
^1 => bad byte in line 1
^v => bad byte in line 1
^7 => bad byte in line 1
^8 => bad byte in line 1
^9 => bad byte in line 1
\ a => bad byte in line 1
\ => bad byte in line 1
^n\^n => bad byte in line 2
\a^0 => bad byte in line 1
//a => .1:
//a^nb => N2:b .2:
// "^n"x" => Q2:"x" .2:
a//^0 => N1:a .1:
/**/a => N1:a .1:
/***/a => N1:a .1:
/*/ => open comment in line 1
/*/*/a => N1:a .1:
/* * / => open comment in line 1
^n/*^n => open comment in line 2
/*^n*/a => N2:a .2:
/* /* */ */ => M1:* M1:/ .1:
/*^0"*/a => N1:a .1:
(* a *)b => N1:b .1:
(**)b => N1:b .1:
(* => open comment in line 1
^n(* ^n => open comment in line 2
(* "*)" *)b => N1:b .1:
(* a " b *)c => N1:c .1:
(* " *)^n" *)b => open string in line 2
(* "a\" *)" *)b => N1:b .1:
(*^n*)a => N2:a .2:
(* // /* (* *)a => N1:a .1:
(*"*)" => open comment in line 1
(*"*)a => N1:a .1:
(*"" "\"*)a => N1:a .1:
(* " \" ^n "*)" *)b => N2:b .2:
(* " ^n"*)b" *)c => N2:c .2:
(* "a" " *)" *)b => N1:b .1:
table 01xX?bBrRfFpPnN*-():; endtable => K1:table S1:0 S1:1 S1:x S1:X S1:? S1:b S1:B S1:r S1:R S1:f S1:F S1:p S1:P S1:n S1:N S1:* S1:- S1:( S1:) S1:: S1:; K1:endtable .1:
table//x^n0 endtable => K1:table S2:0 K2:endtable .2:
table/*0*/1endtable a => K1:table S1:1 K1:endtable N1:a .1:
table (*0*) endtable(*0*)2 => K1:table S1:( S1:* S1:0 S1:* S1:) K1:endtable I1:2 .1:
table => K1:table .1:
table^n endtable^n => K1:table K2:endtable .3:
table bendtable => K1:table S1:b K1:endtable .1:
table endtablex => bad byte in line 1
table endtable$ => bad byte in line 1
table endtabl => bad byte in line 1
table ENDTABLE => bad byte in line 1
table table => bad byte in line 1
table ^n2 => bad byte in line 2
table / 0 => bad byte in line 1
table /* 0 => open comment in line 1
table ^n" => bad byte in line 2
table \a => bad byte in line 1
table endtable endtable 2 => K1:table K1:endtable K1:endtable I1:2 .1:
tables \table `table "table" /*table*/2 => N1:tables N1:\table Y1:`table Q1:"table" I1:2 .1:
"a^n^0 => open string in line 1
^0" => bad byte in line 1
2147483648 ^n^0 => bad number in line 1
^n4^n'q => bad number in line 2
module macromodule endmodule input output inout wire tri wand triand wor trior tri0 tri1 supply0 supply1 trireg assign vectored scalared small medium large strong0 strong1 pull0 pull1 weak0 weak1 highz0 highz1 tran rtran pullup pulldown and nand or nor xor xnor buf not bufif0 bufif1 notif0 notif1 nmos pmos rnmos rpmos cmos rcmos tranif0 tranif1 rtranif0 rtranif1 primitive endprimitive reg initial always automatic begin case casex casez deassign defparam disable edge else end endcase endfunction endgenerate endspecify endtask event for force forever fork function generate genvar if integer join localparam negedge parameter posedge real realtime release repeat signed specify specparam task time unsigned uwire wait while => K1:module K1:macromodule K1:endmodule K1:input K1:output K1:inout K1:wire K1:tri K1:wand K1:triand K1:wor K1:trior K1:tri0 K1:tri1 K1:supply0 K1:supply1 K1:trireg K1:assign K1:vectored K1:scalared K1:small K1:medium K1:large K1:strong0 K1:strong1 K1:pull0 K1:pull1 K1:weak0 K1:weak1 K1:highz0 K1:highz1 K1:tran K1:rtran K1:pullup K1:pulldown K1:and K1:nand K1:or K1:nor K1:xor K1:xnor K1:buf K1:not K1:bufif0 K1:bufif1 K1:notif0 K1:notif1 K1:nmos K1:pmos K1:rnmos K1:rpmos K1:cmos K1:rcmos K1:tranif0 K1:tranif1 K1:rtranif0 K1:rtranif1 K1:primitive K1:endprimitive K1:reg K1:initial K1:always K1:automatic K1:begin K1:case K1:casex K1:casez K1:deassign K1:defparam K1:disable K1:edge K1:else K1:end K1:endcase K1:endfunction K1:endgenerate K1:endspecify K1:endtask K1:event K1:for K1:force K1:forever K1:fork K1:function K1:generate K1:genvar K1:if K1:integer K1:join K1:localparam K1:negedge K1:parameter K1:posedge K1:real K1:realtime K1:release K1:repeat K1:signed K1:specify K1:specparam K1:task K1:time K1:unsigned K1:uwire K1:wait K1:while .1:
modu macr endm inpu outp inou tria trio supp trir assi vect scal smal medi larg stro pull weak high rtra bufi noti rnmo rpmo rcmo prim endp init alwa auto begi deas defp disa endc endf endg ends endt even forc fore func gene genv inte loca nege para pose rele repe sign spec unsi uwir whil tabl => N1:modu N1:macr N1:endm N1:inpu N1:outp N1:inou N1:tria N1:trio N1:supp N1:trir N1:assi N1:vect N1:scal N1:smal N1:medi N1:larg N1:stro N1:pull N1:weak N1:high N1:rtra N1:bufi N1:noti N1:rnmo N1:rpmo N1:rcmo N1:prim N1:endp N1:init N1:alwa N1:auto N1:begi N1:deas N1:defp N1:disa N1:endc N1:endf N1:endg N1:ends N1:endt N1:even N1:forc N1:fore N1:func N1:gene N1:genv N1:inte N1:loca N1:nege N1:para N1:pose N1:rele N1:repe N1:sign N1:spec N1:unsi N1:uwir N1:whil N1:tabl .1:"##;

// A row is a text, and the size, sign, base and bits of the based number at its front.
const LITERALS: &str = r##"4'b1 => 4 b 0001
4'bx1 => 4 b xxx1
5'b01x => 5 b 0001x
6'oZ1 => 6 o zzz001
8'hxF => 8 h xxxx1111
12'h? => 12 h zzzzzzzzzzzz
2'hf => 2 h 11
3'hx8 => 3 h 000
4'sbz => 4 sb zzzz
4 ' b1 => none
4^n'SO 1_7 => 4 so 1111
4'd10 => 4 d 1010
2'd7 => 2 d 11
4'dX_ => 4 d xxxx
8'd255 => 8 d 11111111
1'h0 => 1 h 0
33'h1ffffffff => 33 h 111111111111111111111111111111111
'b1 => -0 b 00000000000000000000000000000001
'dz => -z d zzzzzzzzzzzzzzzzzzzzzzzzzzzzzzzz
'd2863311530 => -0 d 10101010101010101010101010101010
'hdead_BEEF => -0 h 11011110101011011011111011101111
'sh8x => -0 sh 0000000000000000000000001000xxxx
'hxxxxxxxx => -x h xxxxxxxxxxxxxxxxxxxxxxxxxxxxxxxx
'h0xxxxxxxx => -0 h xxxxxxxxxxxxxxxxxxxxxxxxxxxxxxxx
'O?0 => -z o zzzzzzzzzzzzzzzzzzzzzzzzzzzzz000
'bZ_1 => -z b zzzzzzzzzzzzzzzzzzzzzzzzzzzzzzz1
'd0 => -0 d 00000000000000000000000000000000
128'd340282366920938463463374607431768211455 => 128 d 11111111111111111111111111111111111111111111111111111111111111111111111111111111111111111111111111111111111111111111111111111111
128'h1 => 128 h 00000000000000000000000000000000000000000000000000000000000000000000000000000000000000000000000000000000000000000000000000000001
128'oz => 128 o zzzzzzzzzzzzzzzzzzzzzzzzzzzzzzzzzzzzzzzzzzzzzzzzzzzzzzzzzzzzzzzzzzzzzzzzzzzzzzzzzzzzzzzzzzzzzzzzzzzzzzzzzzzzzzzzzzzzzzzzzzzzzzzz
129'b1 => none
0'b1 => none
4'b2 => none
4 => none
a => none
'h100000000 => none"##;

/// The byte that a letter behind `^` stands for.
fn meant(letter: u8) -> u8 {
    match letter {
        b'n' => b'\n',
        b't' => b'\t',
        b'r' => b'\r',
        b'f' => 12,
        b'v' => 11,
        b'0' => 0,
        b'1' => 1,
        b'7' => 127,
        b'8' => 128,
        _ => 255,
    }
}

/// The bytes that a row stands for.
fn bytes_of(alloc: Global, row: &str) -> Result<Vec<u8>, AllocError> {
    let mut bytes = Vec::new(alloc);
    let mut escaped = false;
    for byte in row.as_bytes() {
        if escaped {
            bytes.push(meant(*byte))?;
            escaped = false;
        } else if *byte == b'^' {
            escaped = true;
        } else {
            bytes.push(*byte)?;
        }
    }
    Ok(bytes)
}

fn letter(kind: TokenKind) -> char {
    match kind {
        TokenKind::Name => 'N',
        TokenKind::Word => 'K',
        TokenKind::Number => 'I',
        TokenKind::Decimal => 'D',
        TokenKind::Exponent => 'E',
        TokenKind::Based => 'B',
        TokenKind::Text => 'Q',
        TokenKind::Directive => 'Y',
        TokenKind::Symbol => 'S',
        TokenKind::Mark => 'M',
        TokenKind::End => '.',
    }
}

/// Writes bytes as a row has them.
fn show_bytes(shown: &mut String, bytes: &[u8]) -> Result<(), AllocError> {
    for byte in bytes {
        if *byte == b'\n' {
            shown.push_str("^n")?;
        } else {
            shown.push(char::from(*byte))?;
        }
    }
    Ok(())
}

/// The tokens of a row, or its fault.
fn show_tokens(alloc: Global, row: &str) -> Result<String, AllocError> {
    let text = bytes_of(alloc, row)?;
    let mut shown = String::new(alloc);
    if text.len() > 4096 {
        return Ok(shown);
    }
    match tokens(alloc, &text) {
        Ok(list) => {
            for token in list.as_slice() {
                if !shown.is_empty() {
                    shown.push(' ')?;
                }
                shown.push(letter(token.kind))?;
                let line = token.line;
                write!(shown, "{line}:")?;
                if let Some(bytes) = text.get(token.start as usize..token.end as usize) {
                    show_bytes(&mut shown, bytes)?;
                }
            }
        }
        Err(fault) => write!(shown, "{fault}")?,
    }
    Ok(shown)
}

fn bit_letter(bit: Bit) -> char {
    match bit {
        Bit::Zero => '0',
        Bit::One => '1',
        Bit::X => 'x',
        Bit::Z => 'z',
    }
}

fn base_letter(base: Base) -> char {
    match base {
        Base::Binary => 'b',
        Base::Octal => 'o',
        Base::Decimal => 'd',
        Base::Hexadecimal => 'h',
    }
}

/// The meaning of the based number of a row.
fn meaning(alloc: Global, row: &str) -> Result<String, AllocError> {
    let text = bytes_of(alloc, row)?;
    let mut shown = String::new(alloc);
    match literal_value(alloc, &text)? {
        Some(literal) => {
            match literal.size {
                Some(size) => write!(shown, "{size} ")?,
                None => {
                    shown.push('-')?;
                    shown.push(bit_letter(literal.extension))?;
                    shown.push(' ')?;
                }
            }
            if literal.signed {
                shown.push('s')?;
            }
            shown.push(base_letter(literal.base))?;
            shown.push(' ')?;
            for bit in literal.bits.as_slice() {
                shown.push(bit_letter(*bit))?;
            }
        }
        None => shown.push_str("none")?,
    }
    Ok(shown)
}

#[test]
fn each_text_has_its_tokens_or_its_first_fault(rt: HostRuntime) -> Result<(), Fail> {
    for row in ROWS.lines() {
        let (text, wanted) = row.split_once(" => ").ok_or("no row")?;
        let shown = show_tokens(rt.alloc(), text)?;
        assert_eq!(rt; shown.as_str(), wanted, "of {text}");
    }
    Ok(())
}

#[test]
fn based_numbers_mean_their_bits(rt: HostRuntime) -> Result<(), Fail> {
    for row in LITERALS.lines() {
        let (text, wanted) = row.split_once(" => ").ok_or("no row")?;
        let shown = meaning(rt.alloc(), text)?;
        assert_eq!(rt; shown.as_str(), wanted, "of {text}");
    }
    Ok(())
}

#[test]
fn names_and_numbers_mean_their_bytes_and_values(rt: HostRuntime) -> Result<(), Fail> {
    assert_eq!(rt; name_text(b"\\abc"), b"abc".as_slice());
    assert_eq!(rt; name_text(b"abc"), b"abc".as_slice());
    assert_eq!(rt; name_text(b"\\\\"), b"\\".as_slice());
    assert_eq!(rt; number_value(b"1_0"), Some(10));
    assert_eq!(rt; number_value(b"2147483647"), Some(2147483647));
    assert_eq!(rt; number_value(b"2147483648"), None);
    Ok(())
}

#[test]
fn decimals_mean_their_digits(rt: HostRuntime) -> Result<(), Fail> {
    let decimal = decimal_digits(rt.alloc(), b"90.0125")?;
    assert_eq!(rt; decimal.whole.as_slice(), [9, 0].as_slice());
    assert_eq!(rt; decimal.fraction.as_slice(), [0, 1, 2, 5].as_slice());
    Ok(())
}

/// A text of 1.6 MB, with three tokens a line.
#[test]
fn a_large_text_has_all_its_tokens(rt: HostRuntime) -> Result<(), Fail> {
    let mut text = Vec::new(rt.alloc());
    for _ in 0..200000 {
        text.extend_from_slice(b"wire a;\n")?;
    }
    if text.len() <= 67108864 {
        let list = tokens(rt.alloc(), &text).map_err(|_| "no tokens")?;
        assert_eq!(rt; list.as_slice().len(), 600001);
        for (i, token) in list.as_slice().iter().enumerate() {
            let (kind, start, end) = match i % 3 {
                0 => (TokenKind::Word, 0, 4),
                1 => (TokenKind::Name, 5, 6),
                _ => (TokenKind::Mark, 6, 7),
            };
            let line = i / 3;
            if line < 200000 {
                assert_eq!(rt; token.kind, kind, "at {i}");
                assert_eq!(rt;
                    token.start as usize,
                    (8 * line).saturating_add(start),
                    "at {i}"
                );
                assert_eq!(rt;
                    token.end as usize,
                    (8 * line).saturating_add(end),
                    "at {i}"
                );
                assert_eq!(rt; token.line as usize, line + 1, "at {i}");
            }
        }
    }
    Ok(())
}

#[test]
fn quotes_that_begin_no_text_are_not_looked_behind_again(rt: HostRuntime) -> Result<(), Fail> {
    let mut text = Vec::from_slice(rt.alloc(), b"(*")?;
    for _ in 0..400000 {
        text.extend_from_slice(b"\\\"")?;
    }
    text.extend_from_slice(b"*)a")?;
    if text.len() <= 67108864 {
        let list = tokens(rt.alloc(), &text).map_err(|_| "no tokens")?;
        assert_eq!(rt; list.as_slice().len(), 2);
    }
    Ok(())
}
