//! Texts of the first version, and others, with what reading them gives.
use super::Row;

static FIRST_PART: [Row; 35] = [
    Row {
        text: "",
        answer: "no end",
    },
    Row {
        text: "\n\n",
        answer: "no end",
    },
    Row {
        text: "// nothing\n",
        answer: "no end",
    },
    Row {
        text: "vectors 1",
        answer: "no end",
    },
    Row {
        text: "vectors 01\ninputs s\nend 0\n",
        answer: "bad line 1",
    },
    Row {
        text: "vectors 3\ninputs s\nend 0\n",
        answer: "bad line 1",
    },
    Row {
        text: "vectors\ninputs s\nend 0\n",
        answer: "bad line 1",
    },
    Row {
        text: "vectors 1 1\ninputs s\nend 0\n",
        answer: "bad line 1",
    },
    Row {
        text: "Vectors 1\ninputs s\nend 0\n",
        answer: "bad line 1",
    },
    Row {
        text: "vectors1\ninputs s\nend 0\n",
        answer: "bad line 1",
    },
    Row {
        text: "vectors 1 // c\ninputs s\nend 0\n",
        answer: "bad line 1",
    },
    Row {
        text: "inputs s\nvectors 1\nend 0\n",
        answer: "bad line 1",
    },
    Row {
        text: "\n // c\n\nvectors 10\n",
        answer: "bad line 4",
    },
    Row {
        text: "  vectors \t 1  \n\tinputs  s\t\tr \n 0\t01\t\n end 30\t",
        answer: "2<s><r>;0;3@0=01;end 30",
    },
    Row {
        text: "vectors 1\r\ninputs s r\r\n0 01\r\nend 30\r\n",
        answer: "2<s><r>;0;3@0=01;end 30",
    },
    Row {
        text: "vectors 1\r\r\ninputs s\nend 0\n",
        answer: "bad line 1",
    },
    Row {
        text: "vectors 1\r",
        answer: "bad line 1",
    },
    Row {
        text: "vectors\r1\ninputs s\nend 0\n",
        answer: "bad line 1",
    },
    Row {
        text: "\r\nvectors 1\n \r\ninputs s\nend 0",
        answer: "4<s>;0;end 0",
    },
    Row {
        text: "vectors 1\nend 0\n",
        answer: "bad line 2",
    },
    Row {
        text: "vectors 1\ninputs\nend 0\n",
        answer: "bad line 2",
    },
    Row {
        text: "vectors 1\n inputs \t\nend 0\n",
        answer: "bad line 2",
    },
    Row {
        text: "vectors 1\ninput s\nend 0\n",
        answer: "bad line 2",
    },
    Row {
        text: "vectors 1\noutputs q\ninputs s\nend 0\n",
        answer: "bad line 2",
    },
    Row {
        text: "vectors 1\nvectors 1\ninputs s\nend 0\n",
        answer: "bad line 2",
    },
    Row {
        text: "vectors 1\n/ /\n",
        answer: "bad line 2",
    },
    Row {
        text: "vectors 1\n//inputs s\ninputs r\nend 0\n",
        answer: "3<r>;0;end 0",
    },
    Row {
        text: "vectors 1\ninputs s\n",
        answer: "no end",
    },
    Row {
        text: "vectors 1\ninputs s\nend 0",
        answer: "2<s>;0;end 0",
    },
    Row {
        text: "vectors 1\ninputs s\noutputs q\nend 0\n",
        answer: "2<s>;3<q>;end 0",
    },
    Row {
        text: "vectors 1\ninputs s\n\n// c\noutputs q qn\nend 0\n",
        answer: "2<s>;5<q><qn>;end 0",
    },
    Row {
        text: "vectors 1\ninputs s\noutputs\nend 0\n",
        answer: "bad line 3",
    },
    Row {
        text: "vectors 1\ninputs s\noutput q\nend 0\n",
        answer: "bad line 3",
    },
    Row {
        text: "vectors 1\ninputs s\ninputs r\nend 0\n",
        answer: "bad line 3",
    },
    Row {
        text: "vectors 1\ninputs s\noutputs q\noutputs qn\nend 0\n",
        answer: "bad line 4",
    },
];

static SECOND_PART: [Row; 35] = [
    Row {
        text: "vectors 1\ninputs s\n0 1\noutputs q\nend 0\n",
        answer: "bad line 4",
    },
    Row {
        text: "vectors 1\n\ninputs s r\n// c\noutputs q\n\n5 01\nend 5",
        answer: "3<s><r>;5<q>;7@5=01;end 5",
    },
    Row {
        text: "vectors 1\ninputs s s q nix\nend 0\n",
        answer: "2<s><s><q><nix>;0;end 0",
    },
    Row {
        text: "vectors 1\ninputs inputs outputs 0 end\noutputs outputs\nend 0\n",
        answer: "2<inputs><outputs><0><end>;3<outputs>;end 0",
    },
    Row {
        text: "vectors 1\ninputs s // c\nend 0\n",
        answer: "2<s><//><c>;0;end 0",
    },
    Row {
        text: "vectors 1\ninputs \\a+b s\nend 0\n",
        answer: "2<\\a+b ><s>;0;end 0",
    },
    Row {
        text: "vectors 1\ninputs s \\a+b\nend 0\n",
        answer: "2<s><\\a+b >;0;end 0",
    },
    Row {
        text: "vectors 1\ninputs \\a+b  \t\nend 0\n",
        answer: "2<\\a+b >;0;end 0",
    },
    Row {
        text: "vectors 1\ninputs \\a+b\r\nend 0\n",
        answer: "2<\\a+b >;0;end 0",
    },
    Row {
        text: "vectors 1\ninputs \\a\rb s\nend 0\n",
        answer: "2<\\a\rb ><s>;0;end 0",
    },
    Row {
        text: "vectors 1\ninputs u.\\x .y \\v [2] \\p.q\t.z s\nend 0\n",
        answer: "2<u.\\x .y><\\v [2]><\\p.q .z><s>;0;end 0",
    },
    Row {
        text: "vectors 1\ninputs \\a.b s\nend 0\n",
        answer: "2<\\a.b ><s>;0;end 0",
    },
    Row {
        text: "vectors 1\ninputs \\a  .b\nend 0\n",
        answer: "2<\\a ><.b>;0;end 0",
    },
    Row {
        text: "vectors 1\ninputs a\\b c[\\d e\nend 0\n",
        answer: "2<a\\b><c[\\d><e>;0;end 0",
    },
    Row {
        text: "vectors 1\ninputs \\ s\nend 0\n",
        answer: "2<\\ ><s>;0;end 0",
    },
    Row {
        text: "vectors 1\ninputs s\noutputs \\d+1\nend 0\n",
        answer: "2<s>;3<\\d+1 >;end 0",
    },
    Row {
        text: "vectors 1\ninputs s\noutputs \\d+1 [0] \\e .\\f  .g\nend 0\n",
        answer: "2<s>;3<\\d+1 [0]><\\e .\\f ><.g>;end 0",
    },
    Row {
        text: "vectors 1\ninputs s r\n0 01\n10 11\n20 10\nend 30\n",
        answer: "2<s><r>;0;3@0=01;4@10=11;5@20=10;end 30",
    },
    Row {
        text: "vectors 1\ninputs s r\n0 01\n10 11\n20 10\nend 1099511627776\n",
        answer: "2<s><r>;0;3@0=01;4@10=11;5@20=10;end 1099511627776",
    },
    Row {
        text: "vectors 1\ninputs s r\n0 01\n10 11\n20 10\nend 1099511627777\n",
        answer: "limit 6",
    },
    Row {
        text: "vectors 1\ninputs s r\n0 01\n10 11\n20 10\n",
        answer: "no end",
    },
    Row {
        text: "vectors 1\ninputs s r\n0 0\n10 11\n20 10\nend 30\n",
        answer: "2<s><r>;0;3@0=0;4@10=11;5@20=10;end 30",
    },
    Row {
        text: "vectors 1\ninputs s r\n0 01\n20 10\n10 11\nend 30\n",
        answer: "order 5",
    },
    Row {
        text: "vectors 1\ninputs s r\n0 01xzXZ\nend 0\n",
        answer: "2<s><r>;0;3@0=01xzxz;end 0",
    },
    Row {
        text: "vectors 1\ninputs s r\n0 _0__1_\nend 0\n",
        answer: "2<s><r>;0;3@0=01;end 0",
    },
    Row {
        text: "vectors 1\ninputs s r\n0 _\nend 0\n",
        answer: "bad line 3",
    },
    Row {
        text: "vectors 1\ninputs s r\n0 ___\nend 0\n",
        answer: "bad line 3",
    },
    Row {
        text: "vectors 1\ninputs s r\n0 0-\nend 0\n",
        answer: "bad line 3",
    },
    Row {
        text: "vectors 1\ninputs s r\n0 02\nend 0\n",
        answer: "bad line 3",
    },
    Row {
        text: "vectors 1\ninputs s r\n0 0h\nend 0\n",
        answer: "bad line 3",
    },
    Row {
        text: "vectors 1\ninputs s r\n0 0 1\nend 0\n",
        answer: "bad line 3",
    },
    Row {
        text: "vectors 1\ninputs s r\n0\nend 0\n",
        answer: "bad line 3",
    },
    Row {
        text: "vectors 1\ninputs s r\n0 01 // c\nend 0\n",
        answer: "bad line 3",
    },
    Row {
        text: "vectors 1\ninputs s r\n0 01\rx\nend 0\n",
        answer: "bad line 3",
    },
    Row {
        text: "vectors 1\ninputs s r\n0 01\r\r\nend 0\n",
        answer: "bad line 3",
    },
];

static THIRD_PART: [Row; 35] = [
    Row {
        text: "vectors 1\ninputs s r\n00 0\n01 1\nend 0010\n",
        answer: "2<s><r>;0;3@0=0;4@1=1;end 10",
    },
    Row {
        text: "vectors 1\ninputs s r\n00000000000000000005 0\nend 9\n",
        answer: "2<s><r>;0;3@5=0;end 9",
    },
    Row {
        text: "vectors 1\ninputs s r\n000000000000000000005 0\nend 9\n",
        answer: "bad line 3",
    },
    Row {
        text: "vectors 1\ninputs s r\n99999999999999999999 0\nend 9\n",
        answer: "limit 3",
    },
    Row {
        text: "vectors 1\ninputs s r\n18446744073709551615 0\nend 9\n",
        answer: "limit 3",
    },
    Row {
        text: "vectors 1\ninputs s r\n18446744073709551617 0\nend 9\n",
        answer: "limit 3",
    },
    Row {
        text: "vectors 1\ninputs s r\n1099511627776 0\nend 1099511627776\n",
        answer: "2<s><r>;0;3@1099511627776=0;end 1099511627776",
    },
    Row {
        text: "vectors 1\ninputs s r\n1099511627777 0\nend 1099511627777\n",
        answer: "limit 3",
    },
    Row {
        text: "vectors 1\ninputs s r\n-1 0\nend 9\n",
        answer: "bad line 3",
    },
    Row {
        text: "vectors 1\ninputs s r\n+1 0\nend 9\n",
        answer: "bad line 3",
    },
    Row {
        text: "vectors 1\ninputs s r\n1_0 0\nend 10\n",
        answer: "bad line 3",
    },
    Row {
        text: "vectors 1\ninputs s r\n1e1 0\nend 10\n",
        answer: "bad line 3",
    },
    Row {
        text: "vectors 1\ninputs s r\nx 0\nend 9\n",
        answer: "bad line 3",
    },
    Row {
        text: "vectors 1\ninputs s r\n1.0 0\nend 9\n",
        answer: "bad line 3",
    },
    Row {
        text: "vectors 1\ninputs s r\nstrobe 5\nend 5\n",
        answer: "2<s><r>;0;3@5?;end 5",
    },
    Row {
        text: "vectors 1\ninputs s r\n strobe\t 5 \nend 5\n",
        answer: "2<s><r>;0;3@5?;end 5",
    },
    Row {
        text: "vectors 1\ninputs s r\nstrobe\nend 5\n",
        answer: "bad line 3",
    },
    Row {
        text: "vectors 1\ninputs s r\nstrobe 5 5\nend 5\n",
        answer: "bad line 3",
    },
    Row {
        text: "vectors 1\ninputs s r\nstrobe x\nend 5\n",
        answer: "bad line 3",
    },
    Row {
        text: "vectors 1\ninputs s r\nStrobe 5\nend 5\n",
        answer: "bad line 3",
    },
    Row {
        text: "vectors 1\ninputs s r\nstrobe5\nend 5\n",
        answer: "bad line 3",
    },
    Row {
        text: "vectors 1\ninputs s r\nstrobe 100000000000000000000\nend 5\n",
        answer: "bad line 3",
    },
    Row {
        text: "vectors 1\ninputs s r\nstrobe 1099511627777\nend 5\n",
        answer: "limit 3",
    },
    Row {
        text: "vectors 1\ninputs s r\nstrobe 1099511627776\nend 1099511627776\n",
        answer: "2<s><r>;0;3@1099511627776?;end 1099511627776",
    },
    Row {
        text: "vectors 1\ninputs s r\nend\n",
        answer: "bad line 3",
    },
    Row {
        text: "vectors 1\ninputs s r\nend 0 0\n",
        answer: "bad line 3",
    },
    Row {
        text: "vectors 1\ninputs s r\nend x\n",
        answer: "bad line 3",
    },
    Row {
        text: "vectors 1\ninputs s r\nEND 0\n",
        answer: "bad line 3",
    },
    Row {
        text: "vectors 1\ninputs s r\nend 000000000000000000000\n",
        answer: "bad line 3",
    },
    Row {
        text: "vectors 1\ninputs s r\nend 99999999999999999999\n",
        answer: "limit 3",
    },
    Row {
        text: "vectors 1\ninputs s r\nend 0\r",
        answer: "bad line 3",
    },
    Row {
        text: "vectors 1\ninputs s r\nend 0\n\n // c\n\t\n",
        answer: "2<s><r>;0;end 0",
    },
    Row {
        text: "vectors 1\ninputs s r\nend 0\n// c\n5 1\n",
        answer: "bad line 5",
    },
    Row {
        text: "vectors 1\ninputs s r\nend 0\nend 0\n",
        answer: "bad line 4",
    },
    Row {
        text: "vectors 1\ninputs s r\nend 0\nstrobe 0",
        answer: "bad line 4",
    },
];

static FOURTH_PART: [Row; 33] = [
    Row {
        text: "vectors 1\ninputs s r\nend 9\nend 99999999999999999999\n",
        answer: "bad line 4",
    },
    Row {
        text: "vectors 1\ninputs s r\nexpect 5 1\nend 5\n",
        answer: "bad line 3",
    },
    Row {
        text: "vectors 1\ninputs s r\nrepeat 1 0 10\n0 1\nendrepeat\nend 5\n",
        answer: "bad line 3",
    },
    Row {
        text: "vectors 1\ninputs s r\n0 1\nendrepeat\nend 5\n",
        answer: "bad line 4",
    },
    Row {
        text: "vectors 1\ninputs s r\n5 0\n4 0\nend 9\n",
        answer: "order 4",
    },
    Row {
        text: "vectors 1\ninputs s r\n5 0\n5 0\nend 9\n",
        answer: "order 4",
    },
    Row {
        text: "vectors 1\ninputs s r\nstrobe 5\nstrobe 5\nend 9\n",
        answer: "order 4",
    },
    Row {
        text: "vectors 1\ninputs s r\nstrobe 5\n5 0\nend 9\n",
        answer: "order 4",
    },
    Row {
        text: "vectors 1\ninputs s r\n5 0\nstrobe 5\nend 9\n",
        answer: "2<s><r>;0;3@5=0;4@5?;end 9",
    },
    Row {
        text: "vectors 1\ninputs s r\n5 0\nstrobe 5\nstrobe 5\nend 9\n",
        answer: "order 5",
    },
    Row {
        text: "vectors 1\ninputs s r\n5 0\nstrobe 5\n5 0\nend 9\n",
        answer: "order 5",
    },
    Row {
        text: "vectors 1\ninputs s r\n5 0\nstrobe 5\n6 1\nstrobe 6\nend 6\n",
        answer: "2<s><r>;0;3@5=0;4@5?;5@6=1;6@6?;end 6",
    },
    Row {
        text: "vectors 1\ninputs s r\n5 0\nend 4\n",
        answer: "order 4",
    },
    Row {
        text: "vectors 1\ninputs s r\n5 0\nend 5\n",
        answer: "2<s><r>;0;3@5=0;end 5",
    },
    Row {
        text: "vectors 1\ninputs s r\nstrobe 5\nend 4\n",
        answer: "order 4",
    },
    Row {
        text: "vectors 1\ninputs s r\nstrobe 5\nstrobe 4\nend 9\n",
        answer: "order 4",
    },
    Row {
        text: "vectors 1\ninputs s r\nstrobe 3\n5 0\nstrobe 4\nend 9\n",
        answer: "order 5",
    },
    Row {
        text: "vectors 1\ninputs s r\n5 0\nstrobe 4\nend 9\n",
        answer: "order 4",
    },
    Row {
        text: "vectors 1\ninputs s r\nstrobe 3\n4 0\nstrobe 4\nstrobe 5\nend 5\n",
        answer: "2<s><r>;0;3@3?;4@4=0;5@4?;6@5?;end 5",
    },
    Row {
        text: "vectors 1\ninputs s r\n0 0\n0 1\nend 9\n",
        answer: "order 4",
    },
    Row {
        text: "vectors 1\ninputs s r\nstrobe 0\n0 1\nend 9\n",
        answer: "order 4",
    },
    Row {
        text: "vectors 1\ninputs s r\n5 0\n4 2\nend 9\n",
        answer: "bad line 4",
    },
    Row {
        text: "vectors 1\ninputs s r\n1099511627777 _\nend 9\n",
        answer: "bad line 3",
    },
    Row {
        text: "vectors 1\ninputs s r\n5 0\nstrobe 4 4\nend 9\n",
        answer: "bad line 4",
    },
    Row {
        text: "vectors 1\ninputs s r\n5 0\nend 4 4\n",
        answer: "bad line 4",
    },
    Row {
        text: "vectors 1\ninputs s r\n4 2\nend\n",
        answer: "bad line 3",
    },
    Row {
        text: "vectors 1\ninputs s r\n5 0\n4 0\nx\nend 9\n",
        answer: "order 4",
    },
    Row {
        text: "vectors 1\ninputs s r\n1099511627777 0\n0 q\nend 9\n",
        answer: "limit 3",
    },
    Row {
        text: "vectors 1\ninputs s r\n0 q\n1099511627777 0\nend 9\n",
        answer: "bad line 3",
    },
    Row {
        text: "vectors 1\ninputs s r\n5 0\n4 0\n",
        answer: "order 4",
    },
    Row {
        text: "vectors 1\ninputs s r\n5 0\n1099511627777 0\n4 0\n",
        answer: "limit 4",
    },
    Row {
        text: "vectors 1\ninput s\n0 q\nend 9\n",
        answer: "bad line 2",
    },
    Row {
        text: "vectors 0\ninput s\n0 q\nend 9\n",
        answer: "bad line 1",
    },
];

pub(crate) fn first_part() -> &'static [Row] {
    &FIRST_PART
}

pub(crate) fn second_part() -> &'static [Row] {
    &SECOND_PART
}

pub(crate) fn third_part() -> &'static [Row] {
    &THIRD_PART
}

pub(crate) fn fourth_part() -> &'static [Row] {
    &FOURTH_PART
}
