//! Texts of the second version with what reading them gives.
use super::Row;

static FIRST_PART: [Row; 28] = [
    Row {
        text: "vectors 2\n",
        answer: "no end",
    },
    Row {
        text: "vectors 2\ninputs s r\n0 01\n10 11\n20 10\nend 30\n",
        answer: "2<s><r>;0;3@0=01;4@10=11;5@20=10;end 30",
    },
    Row {
        text: "vectors 2\ninputs s r\n281474976710656 0\nend 281474976710656\n",
        answer: "2<s><r>;0;3@281474976710656=0;end 281474976710656",
    },
    Row {
        text: "vectors 2\ninputs s r\n281474976710657 0\nend 281474976710657\n",
        answer: "limit 3",
    },
    Row {
        text: "vectors 2\ninputs s r\nend 281474976710657\n",
        answer: "limit 3",
    },
    Row {
        text: "vectors 2\ninputs s r\nstrobe 1099511627777\nend 1099511627777\n",
        answer: "2<s><r>;0;3@1099511627777?;end 1099511627777",
    },
    Row {
        text: "vectors 2\ninputs s r\nexpect 5 1-xzXZ\nend 5\n",
        answer: "2<s><r>;0;3@5?1-xzxz;end 5",
    },
    Row {
        text: "vectors 2\ninputs s r\nexpect 5 _-_-\nend 5\n",
        answer: "2<s><r>;0;3@5?--;end 5",
    },
    Row {
        text: "vectors 2\ninputs s r\nexpect 281474976710657 1\nend 5\n",
        answer: "limit 3",
    },
    Row {
        text: "vectors 2\ninputs s r\nexpect 281474976710657 2\nend 5\n",
        answer: "bad line 3",
    },
    Row {
        text: "vectors 2\ninputs s r\nexpect 5\nend 5\n",
        answer: "bad line 3",
    },
    Row {
        text: "vectors 2\ninputs s r\nexpect 5 _\nend 5\n",
        answer: "bad line 3",
    },
    Row {
        text: "vectors 2\ninputs s r\nexpect 5 1 1\nend 5\n",
        answer: "bad line 3",
    },
    Row {
        text: "vectors 2\ninputs s r\nexpect x 1\nend 5\n",
        answer: "bad line 3",
    },
    Row {
        text: "vectors 2\ninputs s r\nexpect 5 1?\nend 5\n",
        answer: "bad line 3",
    },
    Row {
        text: "vectors 2\ninputs s r\n5 0-\nend 5\n",
        answer: "bad line 3",
    },
    Row {
        text: "vectors 2\ninputs s r\nstrobe 5\nexpect 5 1\nend 5\n",
        answer: "order 4",
    },
    Row {
        text: "vectors 2\ninputs s r\nexpect 5 1\nstrobe 5\nend 5\n",
        answer: "order 4",
    },
    Row {
        text: "vectors 2\ninputs s r\nexpect 5 1\nexpect 5 1\nend 5\n",
        answer: "order 4",
    },
    Row {
        text: "vectors 2\ninputs s r\nexpect 5 1\n5 0\nend 5\n",
        answer: "order 4",
    },
    Row {
        text: "vectors 2\ninputs s r\nexpect 5 1\nexpect 4 1\nend 5\n",
        answer: "order 4",
    },
    Row {
        text: "vectors 2\ninputs s r\n5 0\nexpect 5 1\n6 0\nexpect 6 0\nend 6\n",
        answer: "2<s><r>;0;3@5=0;4@5?1;5@6=0;6@6?0;end 6",
    },
    Row {
        text: "vectors 2\ninputs s\noutputs q qn\nexpect 0 1-\nend 0\n",
        answer: "2<s>;3<q><qn>;4@0?1-;end 0",
    },
    Row {
        text: "vectors 2\ninputs s r\n0 01\nrepeat 2 10 20\n0 11\n5 10\nexpect 9 1-\nendrepeat\nend 50\n",
        answer: "2<s><r>;0;3@0=01;5@10=11;6@15=10;7@19?1-;5@30=11;6@35=10;7@39?1-;end 50",
    },
    Row {
        text: "vectors 2\ninputs s r\n0 01\nrepeat 0 10 20\n0 11\n5 10\nexpect 9 1-\nendrepeat\nend 50\n",
        answer: "bad line 4",
    },
    Row {
        text: "vectors 2\ninputs s r\n0 01\nrepeat 2 10 20\n0 11\n5 10\nexpect 20 1-\nendrepeat\nend 50\n",
        answer: "order 7",
    },
    Row {
        text: "vectors 2\ninputs s r\n0 01\nrepeat 2 10 20\n0 11\n5 10\nexpect 9 1\nendrepeat\nend 50\n",
        answer: "2<s><r>;0;3@0=01;5@10=11;6@15=10;7@19?1;5@30=11;6@35=10;7@39?1;end 50",
    },
    Row {
        text: "vectors 2\ninputs s r\n0 01\nrepeat 2 10 20\n0 11\n5 10\nexpect 9 1-\nendrepeat\nend 281474976710657\n",
        answer: "limit 9",
    },
];

static SECOND_PART: [Row; 28] = [
    Row {
        text: "vectors 2\ninputs s r\n0 01\nrepeat 2 10 20\n0 11\n5 10\nexpect 9 1-\n",
        answer: "no end",
    },
    Row {
        text: "vectors 2\ninputs s r\n0 01\nrepeat 2 10 20\n0 11\n5 10\nexpect 9 1-\nendrepeat\nend 38\n",
        answer: "order 9",
    },
    Row {
        text: "vectors 2\ninputs s r\n0 01\nrepeat 2 10 20\n0 11\n5 10\nexpect 9 1-\nendrepeat\nend 39\n",
        answer: "2<s><r>;0;3@0=01;5@10=11;6@15=10;7@19?1-;5@30=11;6@35=10;7@39?1-;end 39",
    },
    Row {
        text: "vectors 2\ninputs s r\nrepeat 1 0\nendrepeat\nend 0\n",
        answer: "bad line 3",
    },
    Row {
        text: "vectors 2\ninputs s r\nrepeat\nendrepeat\nend 0\n",
        answer: "bad line 3",
    },
    Row {
        text: "vectors 2\ninputs s r\nrepeat 1 0 1 1\nendrepeat\nend 0\n",
        answer: "bad line 3",
    },
    Row {
        text: "vectors 2\ninputs s r\nrepeat x 0 1\nendrepeat\nend 0\n",
        answer: "bad line 3",
    },
    Row {
        text: "vectors 2\ninputs s r\nrepeat 1 x 1\nendrepeat\nend 0\n",
        answer: "bad line 3",
    },
    Row {
        text: "vectors 2\ninputs s r\nrepeat 1 0 x\nendrepeat\nend 0\n",
        answer: "bad line 3",
    },
    Row {
        text: "vectors 2\ninputs s r\nrepeat 1 0 0\nendrepeat\nend 0\n",
        answer: "bad line 3",
    },
    Row {
        text: "vectors 2\ninputs s r\nrepeat 00 0 1\nendrepeat\nend 0\n",
        answer: "bad line 3",
    },
    Row {
        text: "vectors 2\ninputs s r\nrepeat 000000000000000000001 0 1\nendrepeat\nend 0\n",
        answer: "bad line 3",
    },
    Row {
        text: "vectors 2\ninputs s r\nrepeat 02 03 04\n01 0_1\nendrepeat\nend 8\n",
        answer: "2<s><r>;0;4@4=01;4@8=01;end 8",
    },
    Row {
        text: "vectors 2\ninputs s r\nrepeat 3 7 1\n0 1\nendrepeat\nend 9\n",
        answer: "2<s><r>;0;4@7=1;4@8=1;4@9=1;end 9",
    },
    Row {
        text: "vectors 2\ninputs s r\nrepeat 3 7 1\n0 1\nendrepeat\nend 8\n",
        answer: "order 6",
    },
    Row {
        text: "vectors 2\ninputs s r\nrepeat 1 7 1\n0 1\nendrepeat\nend 7\n",
        answer: "2<s><r>;0;4@7=1;end 7",
    },
    Row {
        text: "vectors 2\ninputs s r\n\nrepeat 2 0 5\n\n0 1 \n// c\n\tstrobe 3\n\nendrepeat // c\nend 9\n",
        answer: "bad line 10",
    },
    Row {
        text: "vectors 2\ninputs s r\n\nrepeat 2 0 5\n\n0 1 \n// c\n\tstrobe 3\n\n endrepeat \nend 9\n",
        answer: "2<s><r>;0;6@0=1;8@3?;6@5=1;8@8?;end 9",
    },
    Row {
        text: "vectors 2\ninputs s r\nendrepeat\nend 9\n",
        answer: "bad line 3",
    },
    Row {
        text: "vectors 2\ninputs s r\nrepeat 1 0 1\nendrepeat 1\nend 9\n",
        answer: "bad line 4",
    },
    Row {
        text: "vectors 2\ninputs s r\nrepeat 1 0 1\nendrepeat\nendrepeat\nend 9\n",
        answer: "bad line 5",
    },
    Row {
        text: "vectors 2\ninputs s r\nrepeat 1 0 9\n0 1\nrepeat 1 5 1\nendrepeat\nend 9\n",
        answer: "bad line 5",
    },
    Row {
        text: "vectors 2\ninputs s r\nrepeat 1 0 9\nrepeat 4194305 5 1\nendrepeat\nend 9\n",
        answer: "bad line 4",
    },
    Row {
        text: "vectors 2\ninputs s r\nrepeat 1 0 9\n0 1\nend 9\nendrepeat\n",
        answer: "bad line 5",
    },
    Row {
        text: "vectors 2\ninputs s r\nrepeat 1 0 9\nend 281474976710657\n",
        answer: "bad line 4",
    },
    Row {
        text: "vectors 2\ninputs s r\nrepeat 1 0 9\noutputs q\nendrepeat\nend 9\n",
        answer: "bad line 4",
    },
    Row {
        text: "vectors 2\ninputs s r\nrepeat 1 0 9\n",
        answer: "no end",
    },
    Row {
        text: "vectors 2\ninputs s r\nrepeat 1 0 9\nendrepeat\n",
        answer: "no end",
    },
];

static THIRD_PART: [Row; 28] = [
    Row {
        text: "vectors 2\ninputs s r\nend 9\nrepeat 1 9 9\n",
        answer: "bad line 4",
    },
    Row {
        text: "vectors 2\ninputs s r\nend 9\nendrepeat\n",
        answer: "bad line 4",
    },
    Row {
        text: "vectors 2\ninputs s r\nend 9\nexpect 9 1\n",
        answer: "bad line 4",
    },
    Row {
        text: "vectors 2\ninputs s r\nrepeat 4194304 0 1\nendrepeat\nend 0\n",
        answer: "2<s><r>;0;end 0",
    },
    Row {
        text: "vectors 2\ninputs s r\n5 0\nrepeat 3 50 10\nendrepeat\n6 1\nend 6\n",
        answer: "2<s><r>;0;3@5=0;6@6=1;end 6",
    },
    Row {
        text: "vectors 2\ninputs s r\n5 0\nrepeat 3 5 10\nendrepeat\n5 1\nend 6\n",
        answer: "order 6",
    },
    Row {
        text: "vectors 2\ninputs s r\n5 0\nrepeat 3 4 10\nendrepeat\nend 6\n",
        answer: "order 4",
    },
    Row {
        text: "vectors 2\ninputs s r\nrepeat 4194304 281474976710656 281474976710656\nendrepeat\nend 0\n",
        answer: "2<s><r>;0;end 0",
    },
    Row {
        text: "vectors 2\ninputs s r\nrepeat 4194305 0 1\nendrepeat\nend 0\n",
        answer: "limit 3",
    },
    Row {
        text: "vectors 2\ninputs s r\nrepeat 99999999999999999999 0 1\nendrepeat\nend 0\n",
        answer: "limit 3",
    },
    Row {
        text: "vectors 2\ninputs s r\nrepeat 1 281474976710657 1\nendrepeat\nend 0\n",
        answer: "limit 3",
    },
    Row {
        text: "vectors 2\ninputs s r\nrepeat 1 0 281474976710657\nendrepeat\nend 0\n",
        answer: "limit 3",
    },
    Row {
        text: "vectors 2\ninputs s r\nrepeat 4194305 0 0\nendrepeat\nend 0\n",
        answer: "bad line 3",
    },
    Row {
        text: "vectors 2\ninputs s r\nrepeat 0 281474976710657 1\nendrepeat\nend 0\n",
        answer: "bad line 3",
    },
    Row {
        text: "vectors 2\ninputs s r\n5 0\nrepeat 4194305 4 1\nendrepeat\nend 9\n",
        answer: "limit 4",
    },
    Row {
        text: "vectors 2\ninputs s r\nrepeat 2 281474976710600 56\n0 1\nendrepeat\nend 281474976710656\n",
        answer: "2<s><r>;0;4@281474976710600=1;4@281474976710656=1;end 281474976710656",
    },
    Row {
        text: "vectors 2\ninputs s r\nrepeat 2 281474976710600 57\n0 1\nendrepeat\nend 281474976710656\n",
        answer: "limit 4",
    },
    Row {
        text: "vectors 2\ninputs s r\nrepeat 2 281474976710600 56\n0 1\n1 1\nendrepeat\nend 281474976710656\n",
        answer: "limit 5",
    },
    Row {
        text: "vectors 2\ninputs s r\nrepeat 4194304 0 281474976710656\n0 1\nendrepeat\nend 9\n",
        answer: "limit 4",
    },
    Row {
        text: "vectors 2\ninputs s r\nrepeat 1 281474976710650 281474976710656\n6 1\nendrepeat\nend 281474976710656\n",
        answer: "2<s><r>;0;4@281474976710656=1;end 281474976710656",
    },
    Row {
        text: "vectors 2\ninputs s r\nrepeat 1 281474976710650 281474976710656\n7 1\nendrepeat\nend 281474976710656\n",
        answer: "limit 4",
    },
    Row {
        text: "vectors 2\ninputs s r\nrepeat 1 0 10\n281474976710657 1\nendrepeat\nend 9\n",
        answer: "limit 4",
    },
    Row {
        text: "vectors 2\ninputs s r\nrepeat 1 0 10\n281474976710656 1\nendrepeat\nend 9\n",
        answer: "order 4",
    },
    Row {
        text: "vectors 2\ninputs s r\nrepeat 1 0 10\nstrobe 99999999999999999999\nendrepeat\nend 9\n",
        answer: "limit 4",
    },
    Row {
        text: "vectors 2\ninputs s r\nrepeat 1 0 10\n99999999999999999999 _\nendrepeat\nend 9\n",
        answer: "bad line 4",
    },
    Row {
        text: "vectors 2\ninputs s r\nrepeat 4194304 0 1\n0 0000000000000000\nendrepeat\nend 9999999\n",
        answer: "limit 5",
    },
    Row {
        text: "vectors 2\ninputs s r\n3 1\nrepeat 4194304 10 1\n0 000000000000000\nendrepeat\nend 9999999\n",
        answer: "limit 6",
    },
    Row {
        text: "vectors 2\ninputs s r\nrepeat 4194304 0 1\nexpect 0 0000_0000_0000_0000\nendrepeat\nend 9999999\n",
        answer: "limit 5",
    },
];

static FOURTH_PART: [Row; 27] = [
    Row {
        text: "vectors 2\ninputs s r\nrepeat 4194304 0 9\n0 0000000\n1 0000000\nstrobe 1\nendrepeat\nend 99999999\n",
        answer: "limit 7",
    },
    Row {
        text: "vectors 2\ninputs s r\nrepeat 4194304 0 1\n0 0000000000000000\nx\nendrepeat\nend 9999999\n",
        answer: "bad line 5",
    },
    Row {
        text: "vectors 2\ninputs s r\nrepeat 4194304 0 1\n0 0000000000000000\n",
        answer: "no end",
    },
    Row {
        text: "vectors 2\ninputs s r\nrepeat 1 0 10\n10 0\nendrepeat\nend 19\n",
        answer: "order 4",
    },
    Row {
        text: "vectors 2\ninputs s r\nrepeat 1 0 10\n9 0\nendrepeat\nend 9\n",
        answer: "2<s><r>;0;4@9=0;end 9",
    },
    Row {
        text: "vectors 2\ninputs s r\nrepeat 2 0 10\nstrobe 10\nendrepeat\nend 19\n",
        answer: "order 4",
    },
    Row {
        text: "vectors 2\ninputs s r\nrepeat 2 0 10\n5 0\n4 0\nendrepeat\nend 19\n",
        answer: "order 5",
    },
    Row {
        text: "vectors 2\ninputs s r\nrepeat 2 0 10\n5 0\n5 1\nendrepeat\nend 19\n",
        answer: "order 5",
    },
    Row {
        text: "vectors 2\ninputs s r\nrepeat 2 0 10\nstrobe 5\n5 1\nendrepeat\nend 19\n",
        answer: "order 5",
    },
    Row {
        text: "vectors 2\ninputs s r\nrepeat 2 0 10\nexpect 5 1\nstrobe 5\nendrepeat\nend 19\n",
        answer: "order 5",
    },
    Row {
        text: "vectors 2\ninputs s r\nrepeat 2 0 5\n0 1\nstrobe 0\nendrepeat\nend 5\n",
        answer: "2<s><r>;0;4@0=1;5@0?;4@5=1;5@5?;end 5",
    },
    Row {
        text: "vectors 2\ninputs s r\nrepeat 2 0 10\n10 0\n3 2\nendrepeat\nend 19\n",
        answer: "order 4",
    },
    Row {
        text: "vectors 2\ninputs s r\n5 0\nrepeat 1 4 10\n0 1\nendrepeat\nend 19\n",
        answer: "order 4",
    },
    Row {
        text: "vectors 2\ninputs s r\n5 0\nrepeat 1 5 10\nstrobe 0\nendrepeat\nend 5\n",
        answer: "2<s><r>;0;3@5=0;5@5?;end 5",
    },
    Row {
        text: "vectors 2\ninputs s r\n5 0\nrepeat 1 5 10\n0 1\nendrepeat\nend 5\n",
        answer: "order 5",
    },
    Row {
        text: "vectors 2\ninputs s r\nstrobe 5\nrepeat 1 5 10\n0 1\nendrepeat\nend 5\n",
        answer: "order 5",
    },
    Row {
        text: "vectors 2\ninputs s r\nstrobe 5\nrepeat 1 5 10\nexpect 0 1\nendrepeat\nend 5\n",
        answer: "order 5",
    },
    Row {
        text: "vectors 2\ninputs s r\nstrobe 5\nrepeat 1 5 10\n1 1\nendrepeat\nend 6\n",
        answer: "2<s><r>;0;3@5?;5@6=1;end 6",
    },
    Row {
        text: "vectors 2\ninputs s r\nrepeat 2 0 5\n4 1\nendrepeat\n8 1\nend 19\n",
        answer: "order 6",
    },
    Row {
        text: "vectors 2\ninputs s r\nrepeat 2 0 5\n4 1\nendrepeat\n9 1\nend 19\n",
        answer: "order 6",
    },
    Row {
        text: "vectors 2\ninputs s r\nrepeat 2 0 5\n4 1\nendrepeat\nstrobe 9\nend 9\n",
        answer: "2<s><r>;0;4@4=1;4@9=1;6@9?;end 9",
    },
    Row {
        text: "vectors 2\ninputs s r\nrepeat 2 0 5\nstrobe 4\nendrepeat\n9 1\nend 19\n",
        answer: "order 6",
    },
    Row {
        text: "vectors 2\ninputs s r\nrepeat 2 0 5\nstrobe 4\nendrepeat\nexpect 9 1\nend 19\n",
        answer: "order 6",
    },
    Row {
        text: "vectors 2\ninputs s r\nrepeat 2 0 5\nstrobe 4\nendrepeat\n10 1\nend 10\n",
        answer: "2<s><r>;0;4@4?;4@9?;6@10=1;end 10",
    },
    Row {
        text: "vectors 2\ninputs s r\nrepeat 2 0 5\n0 0\nendrepeat\nrepeat 1 5 5\nstrobe 0\nendrepeat\nend 5\n",
        answer: "2<s><r>;0;4@0=0;4@5=0;7@5?;end 5",
    },
    Row {
        text: "vectors 2\ninputs s r\nrepeat 2 0 5\n0 0\nendrepeat\nrepeat 1 4 5\nstrobe 1\nendrepeat\nend 5\n",
        answer: "order 6",
    },
    Row {
        text: "vectors 2\ninputs s r\n5 0\nrepeat 2 281474976710600 57\n99 1\nendrepeat\nend 9\n",
        answer: "limit 5",
    },
];

pub(crate) fn first_part() -> &'static [Row] {
    &FIRST_PART
}

pub(crate) fn second_part() -> &'static [Row] {
    &SECOND_PART
}

pub(crate) fn third_part() -> &'static [Row] {
    &THIRD_PART
}

pub(crate) fn fourth_part() -> &'static [Row] {
    &FOURTH_PART
}
