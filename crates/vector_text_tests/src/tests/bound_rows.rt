//! Texts with the stimulus that they mean for the small netlist, or their fault.
use super::Row;

static BOUND: [Row; 57] = [
    Row {
        text: "vectors 1\ninputs s r\n0 01\n10 11\n20 10\nend 30\n",
        answer: "inputs 2 3;outputs 0 1 8;0=01;10=11;20=10;end 30",
    },
    Row {
        text: "vectors 2\ninputs s r\n0 01\nrepeat 2 10 20\n0 11\n5 10\nexpect 9 1-0\nendrepeat\nend 50\n",
        answer: "inputs 2 3;outputs 0 1 8;0=01;10=11;15=10;19?1-0;30=11;35=10;39?1-0;end 50",
    },
    Row {
        text: "vectors 1\ninputs s r\nend 0\n",
        answer: "inputs 2 3;outputs 0 1 8;end 0",
    },
    Row {
        text: "vectors 1\ninputs r s\n0 0x\nend 0\n",
        answer: "inputs 3 2;outputs 0 1 8;0=0x;end 0",
    },
    Row {
        text: "vectors 1\ninputs b\n0 z\nstrobe 0\nend 0\n",
        answer: "inputs 8;outputs 0 1 8;0=z;0?;end 0",
    },
    Row {
        text: "vectors 1\ninputs s nix\nend 0\n",
        answer: "unknown net 2",
    },
    Row {
        text: "vectors 1\ninputs q\nend 0\n",
        answer: "not an input 2",
    },
    Row {
        text: "vectors 1\ninputs u.w\nend 0\n",
        answer: "not an input 2",
    },
    Row {
        text: "vectors 1\ninputs s s\nend 0\n",
        answer: "named twice 2",
    },
    Row {
        text: "vectors 1\ninputs v\n0 01x\nend 0\n",
        answer: "inputs 4 5 6;outputs 0 1 8;0=01x;end 0",
    },
    Row {
        text: "vectors 1\ninputs v s\n0 01x1\nend 0\n",
        answer: "inputs 4 5 6 2;outputs 0 1 8;0=01x1;end 0",
    },
    Row {
        text: "vectors 1\ninputs v v[1]\nend 0\n",
        answer: "named twice 2",
    },
    Row {
        text: "vectors 1\ninputs v[1] v\nend 0\n",
        answer: "named twice 2",
    },
    Row {
        text: "vectors 1\ninputs v v\nend 0\n",
        answer: "named twice 2",
    },
    Row {
        text: "vectors 1\ninputs v[0] v[2]\n0 01\nend 0\n",
        answer: "inputs 6 4;outputs 0 1 8;0=01;end 0",
    },
    Row {
        text: "vectors 1\ninputs v[3]\nend 0\n",
        answer: "unknown net 2",
    },
    Row {
        text: "vectors 1\ninputs u.a r\n0 10\nend 0\n",
        answer: "inputs 2 3;outputs 0 1 8;0=10;end 0",
    },
    Row {
        text: "vectors 1\ninputs s u.a\nend 0\n",
        answer: "named twice 2",
    },
    Row {
        text: "vectors 1\ninputs u.d\nend 0\n",
        answer: "named twice 2",
    },
    Row {
        text: "vectors 1\ninputs u.mix\nend 0\n",
        answer: "not an input 2",
    },
    Row {
        text: "vectors 1\ninputs s u.mix\nend 0\n",
        answer: "not an input 2",
    },
    Row {
        text: "vectors 1\ninputs \\a+b s\n0 01\nend 0\n",
        answer: "inputs 7 2;outputs 0 1 8;0=01;end 0",
    },
    Row {
        text: "vectors 1\ninputs \\a+b\nend 0\n",
        answer: "inputs 7;outputs 0 1 8;end 0",
    },
    Row {
        text: "vectors 1\ninputs a+b\nend 0\n",
        answer: "unknown net 2",
    },
    Row {
        text: "vectors 1\ninputs \\s\nend 0\n",
        answer: "unknown net 2",
    },
    Row {
        text: "vectors 1\ninputs \\p\nend 0\n",
        answer: "inputs 11 12;outputs 0 1 8;end 0",
    },
    Row {
        text: "vectors 1\ninputs \\p [0]\nend 0\n",
        answer: "inputs 12;outputs 0 1 8;end 0",
    },
    Row {
        text: "vectors 1\ninputs \\p\t[1] s\nend 0\n",
        answer: "inputs 11 2;outputs 0 1 8;end 0",
    },
    Row {
        text: "vectors 1\ninputs \\p  [0]\nend 0\n",
        answer: "unknown net 2",
    },
    Row {
        text: "vectors 1\ninputs \\p[0]\nend 0\n",
        answer: "unknown net 2",
    },
    Row {
        text: "vectors 1\ninputs v [1]\nend 0\n",
        answer: "unknown net 2",
    },
    Row {
        text: "vectors 1\ninputs é\nend 0\n",
        answer: "unknown net 2",
    },
    Row {
        text: "vectors 1\ninputs nix q\nend 0\n",
        answer: "unknown net 2",
    },
    Row {
        text: "vectors 1\ninputs q nix\nend 0\n",
        answer: "not an input 2",
    },
    Row {
        text: "vectors 1\ninputs s s nix\nend 0\n",
        answer: "named twice 2",
    },
    Row {
        text: "vectors 1\ninputs s s q\nend 0\n",
        answer: "named twice 2",
    },
    Row {
        text: "vectors 1\ninputs q s s\nend 0\n",
        answer: "not an input 2",
    },
    Row {
        text: "vectors 1\ninputs s\noutputs u.\\x .y q q s\nstrobe 0\nend 0\n",
        answer: "inputs 2;outputs 10 0 0 2;0?;end 0",
    },
    Row {
        text: "vectors 1\ninputs s\noutputs v v[1] u.mix\nend 0\n",
        answer: "inputs 2;outputs 4 5 6 5 2 9;end 0",
    },
    Row {
        text: "vectors 1\n\ninputs s\n\noutputs q nix\nend 0\n",
        answer: "unknown net 5",
    },
    Row {
        text: "vectors 1\ninputs q\noutputs nix\nend 0\n",
        answer: "not an input 2",
    },
    Row {
        text: "vectors 1\ninputs s\noutputs nix\n0 01\nend 0\n",
        answer: "unknown net 3",
    },
    Row {
        text: "vectors 1\ninputs s r\n0 0\n10 11\n20 10\nend 30\n",
        answer: "width 3",
    },
    Row {
        text: "vectors 1\ninputs s r\n0 01\n10 011\n20 1\nend 30\n",
        answer: "width 4",
    },
    Row {
        text: "vectors 1\ninputs s r\n0 0_1\nend 0\n",
        answer: "inputs 2 3;outputs 0 1 8;0=01;end 0",
    },
    Row {
        text: "vectors 1\ninputs nix\n0 01\nend 0\n",
        answer: "unknown net 2",
    },
    Row {
        text: "vectors 1\ninputs v\n0 0\nend 0\n",
        answer: "width 3",
    },
    Row {
        text: "vectors 2\ninputs s r\nexpect 0 1-\nend 0\n",
        answer: "width 3",
    },
    Row {
        text: "vectors 2\ninputs s r\nexpect 0 1-z\nend 0\n",
        answer: "inputs 2 3;outputs 0 1 8;0?1-z;end 0",
    },
    Row {
        text: "vectors 2\ninputs s r\noutputs q\nexpect 0 1\nend 0\n",
        answer: "inputs 2 3;outputs 0;0?1;end 0",
    },
    Row {
        text: "vectors 2\ninputs s r\noutputs q\nexpect 0 10\nend 0\n",
        answer: "width 4",
    },
    Row {
        text: "vectors 2\ninputs s r\noutputs v\n0 01\nexpect 0 1-0\nend 0\n",
        answer: "inputs 2 3;outputs 4 5 6;0=01;0?1-0;end 0",
    },
    Row {
        text: "vectors 2\ninputs s r\n0 01\nrepeat 2 10 20\n0 11\n5 1\nexpect 9 1\nendrepeat\nend 50\n",
        answer: "width 6",
    },
    Row {
        text: "vectors 2\ninputs s r\n0 01\nrepeat 2 10 20\n0 11\n5 10\nexpect 9 1\nendrepeat\n60 1\nend 90\n",
        answer: "width 7",
    },
    Row {
        text: "vectors 1\ninputs nix\n0 q\nend 0\n",
        answer: "bad line 3",
    },
    Row {
        text: "vectors 1\ninputs nix\n",
        answer: "no end",
    },
    Row {
        text: "vectors 1\ninputs s r\n0 0\n5 01\n4 01\nend 9\n",
        answer: "order 5",
    },
];

pub(crate) fn bound_rows() -> &'static [Row] {
    &BOUND
}
