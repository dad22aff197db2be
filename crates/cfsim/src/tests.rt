mod forms;
mod grammar;

use super::*;
use byte_lists::Bytes;
use outside_io::{CallList, MemoryShelf, MemorySink, NamedFile, NamedFileList, StreamSink};
use std::process::Abort;
use std::test::Fail;
use std::thread::Threads;
use std::{env, fs};

const LATCH: &str =
    "module latch(q, qn, s, r);\noutput q, qn; input s, r;\nnand (q, s, qn);\nnand (qn, r, q);\nendmodule\n";

const VECTORS: &str = "vectors 1\ninputs s r\n0 01\n10 11\n20 10\nend 30\n";

const TRACE: &str = "0 q St1\n0 qn St0\n20 q St0\n20 qn St1\n";

/// The latch with comments, attributes and an escaped name for `q`.
const ESCAPED: &str =
    "// a latch\n(* keep *) module latch(\\q+ , qn, s, \\r ); /* its\nports */ output \\q+ , qn; input s, r;\nnand (* of = \"*)\" *) (\\q+ , s, qn);\nnand \\2nd (qn, r, \\q+\t); // the second\nendmodule\n";

const ESCAPED_TRACE: &str = "0 \\q+  St1\n0 qn St0\n20 \\q+  St0\n20 qn St1\n";

const USAGE: &str =
    "usage: cfsim [--top NAME] [--delays min|typ|max] [--passes N] [--jobs N] [--drop] [--observed] [--dict] NETLIST VECTORS [FAULTS] | --demo N\n";

const INVERTER: &str = "module r(a, k); output a; input k; nand (a, k, a); endmodule";

/// The numbers of the calls that fail.
#[derive(Clone, Copy)]
struct Fails {
    shelf: u64,
    out: u64,
    err: u64,
}

/// No call has this number.
const NEVER: u64 = 1_000_000;

/// No call fails.
const NONE: Fails = Fails {
    shelf: NEVER,
    out: NEVER,
    err: NEVER,
};

/// What a call of the program left behind.
#[derive(Drop)]
struct Outcome {
    status: u8,
    out: String,
    err: String,
    shelf_calls: u64,
}

/// A sink that fails at this call.
fn sink_of(rt: &impl Abort, alloc: Global, fail: u64) -> Result<MemorySink, Fail> {
    let fails = CallList::from_vec([fail].to_vec(alloc)?);
    assert!(rt; fails.is_rising());
    Ok(MemorySink::new(alloc, fails))
}

/// A shelf with the netlist `n.v` and the vectors `v.txt`, which fails at this call.
fn shelf_of(
    rt: &impl Abort,
    alloc: Global,
    netlist: &str,
    vectors: &str,
    fail: u64,
) -> Result<MemoryShelf, Fail> {
    let mut files = Vec::new(alloc);
    for (name, text) in [("n.v", netlist), ("v.txt", vectors)] {
        files.push(NamedFile {
            name: Bytes::from_vec(name.as_bytes().to_vec(alloc)?),
            bytes: Bytes::from_vec(text.as_bytes().to_vec(alloc)?),
        })?;
    }
    let files = NamedFileList::from_vec(files);
    let fails = CallList::from_vec([fail].to_vec(alloc)?);
    assert!(rt; files.has_distinct_names());
    assert!(rt; fails.is_rising());
    Ok(MemoryShelf::new(files, fails))
}

fn text_of(alloc: Global, bytes: &[u8]) -> Result<String, Fail> {
    Ok(String::from_utf8(bytes.to_vec(alloc)?)?)
}

/// A call with these words, over the netlist `n.v` and the vectors `v.txt`.
fn call(
    rt: &(impl Abort + Threads + Sync),
    alloc: Global,
    words: &str,
    netlist: &str,
    vectors: &str,
    fails: Fails,
) -> Result<Outcome, Fail> {
    let mut list = Vec::new(alloc);
    for word in words.split_whitespace() {
        list.push(word.to_string(alloc)?)?;
    }
    let mut shelf = shelf_of(rt, alloc, netlist, vectors, fails.shelf)?;
    let mut out = sink_of(rt, alloc, fails.out)?;
    let mut err = sink_of(rt, alloc, fails.err)?;
    let status = run(
        rt,
        alloc,
        list.as_slice(),
        &mut shelf,
        &mut out,
        &mut err,
        &OpenGate,
    );
    Ok(Outcome {
        status: status.code(),
        out: text_of(alloc, out.written())?,
        err: text_of(alloc, err.written())?,
        shelf_calls: shelf.calls(),
    })
}

/// What a call gets, and how it is answered.
struct CallRow {
    words: &'static str,
    netlist: &'static str,
    vectors: &'static str,
    fails: Fails,
    status: u8,
    out: &'static str,
    err: &'static str,
}

const FAR: &str = "vectors 1\ninputs s r\n0 01\n10 11\n20 10\nend 1099511627776\n";

const RISE: &str = "vectors 1\ninputs k\n0 0\n30 1\nend 40\n";

#[rattlefmt::skip]
static CALLS: [CallRow; 26] = [
    CallRow { words: "n.v v.txt", netlist: LATCH, vectors: VECTORS, fails: NONE, status: 0, out: TRACE, err: "" },
    CallRow { words: "n.v v.txt", netlist: LATCH, vectors: FAR, fails: NONE, status: 0, out: TRACE, err: "" },
    CallRow {
        words: "n.v v.txt", netlist: INVERTER, vectors: RISE,
        fails: NONE,
        status: 6, out: "0 a St1\n", err: "cfsim: good circuit oscillates at 30\n",
    },
    CallRow {
        words: "n.v v.txt", netlist: "", vectors: VECTORS,
        fails: NONE,
        status: 3, out: "", err: "n.v: unbuilt\n",
    },
    CallRow {
        words: "n.v v.txt", netlist: LATCH, vectors: "",
        fails: NONE,
        status: 4, out: "", err: "v.txt: unbuilt\n",
    },
    CallRow {
        words: "n.v v.txt", netlist: ESCAPED, vectors: VECTORS,
        fails: NONE,
        status: 0, out: ESCAPED_TRACE, err: "",
    },
    CallRow {
        words: "n.v v.txt", netlist: "/*", vectors: "",
        fails: NONE,
        status: 3, out: "", err: "n.v:1: open comment\n",
    },
    CallRow {
        words: "n.v x.txt", netlist: "module", vectors: "",
        fails: NONE,
        status: 3, out: "", err: "n.v:1: syntax error\n",
    },
    CallRow {
        words: "v.txt n.v", netlist: LATCH, vectors: VECTORS,
        fails: NONE,
        status: 3, out: "", err: "v.txt:1: syntax error\n",
    },
    CallRow {
        words: "x.v v.txt", netlist: LATCH, vectors: VECTORS,
        fails: NONE,
        status: 1, out: "", err: "cfsim: cannot read x.v\n",
    },
    CallRow {
        words: "n.v x.txt", netlist: LATCH, vectors: VECTORS,
        fails: NONE,
        status: 1, out: "", err: "cfsim: cannot read x.txt\n",
    },
    CallRow {
        words: "n.v x.txt", netlist: "", vectors: VECTORS,
        fails: NONE,
        status: 3, out: "", err: "n.v: unbuilt\n",
    },
    // The first calls on the shelf: an open and two reads of the netlist, then the same of the vectors.
    CallRow {
        words: "n.v v.txt", netlist: LATCH, vectors: VECTORS,
        fails: Fails { shelf: 0, out: NEVER, err: NEVER },
        status: 1, out: "", err: "cfsim: cannot read n.v\n",
    },
    CallRow {
        words: "n.v v.txt", netlist: LATCH, vectors: VECTORS,
        fails: Fails { shelf: 1, out: NEVER, err: NEVER },
        status: 1, out: "", err: "cfsim: cannot read n.v\n",
    },
    CallRow {
        words: "n.v v.txt", netlist: LATCH, vectors: VECTORS,
        fails: Fails { shelf: 2, out: NEVER, err: NEVER },
        status: 1, out: "", err: "cfsim: cannot read n.v\n",
    },
    CallRow {
        words: "n.v v.txt", netlist: LATCH, vectors: VECTORS,
        fails: Fails { shelf: 4, out: NEVER, err: NEVER },
        status: 1, out: "", err: "cfsim: cannot read v.txt\n",
    },
    CallRow {
        words: "n.v v.txt", netlist: LATCH, vectors: VECTORS,
        fails: Fails { shelf: NEVER, out: 0, err: NEVER },
        status: 8, out: "", err: "",
    },
    CallRow {
        words: "n.v v.txt", netlist: LATCH, vectors: VECTORS,
        fails: Fails { shelf: NEVER, out: NEVER, err: 0 },
        status: 0, out: TRACE, err: "",
    },
    CallRow {
        words: "n.v v.txt", netlist: INVERTER, vectors: RISE,
        fails: Fails { shelf: NEVER, out: NEVER, err: 0 },
        status: 8, out: "0 a St1\n", err: "",
    },
    CallRow {
        words: "n.v v.txt", netlist: "", vectors: VECTORS,
        fails: Fails { shelf: NEVER, out: NEVER, err: 0 },
        status: 8, out: "", err: "",
    },
    // Words that are no call.
    CallRow { words: "", netlist: LATCH, vectors: VECTORS, fails: NONE, status: 2, out: "", err: USAGE },
    CallRow { words: "n.v", netlist: LATCH, vectors: VECTORS, fails: NONE, status: 2, out: "", err: USAGE },
    CallRow {
        words: "n.v v.txt f.txt", netlist: LATCH, vectors: VECTORS,
        fails: NONE,
        status: 2, out: "", err: USAGE,
    },
    CallRow { words: "-n.v v.txt", netlist: LATCH, vectors: VECTORS, fails: NONE, status: 2, out: "", err: USAGE },
    CallRow { words: "n.v --dict", netlist: LATCH, vectors: VECTORS, fails: NONE, status: 2, out: "", err: USAGE },
    CallRow {
        words: "n.v", netlist: LATCH, vectors: VECTORS,
        fails: Fails { shelf: NEVER, out: NEVER, err: 0 },
        status: 8, out: "", err: "",
    },
];

fn calls() -> &'static [CallRow] {
    &CALLS
}

/// With status 2 the shelf isn't asked.
fn assert_call(
    rt: &(impl Abort + Threads + Sync),
    alloc: Global,
    row: &CallRow,
) -> Result<(), Fail> {
    let CallRow { words, status, .. } = row;
    let outcome = call(rt, alloc, words, row.netlist, row.vectors, row.fails)?;
    assert_eq!(rt; outcome.status, *status, "{words} {status}");
    assert_eq!(rt; outcome.out.as_str(), row.out, "{words} {status}");
    assert_eq!(rt; outcome.err.as_str(), row.err, "{words} {status}");
    assert!(rt; *status != 2 || outcome.shelf_calls == 0, "{words}");
    Ok(())
}

#[test]
fn calls_have_their_answers(rt: HostRuntime) -> Result<(), Fail> {
    for row in calls() {
        assert_call(&rt, rt.alloc(), row)?;
    }
    Ok(())
}

/// The text behind so many blanks that there are `length` bytes.
fn behind_blanks(alloc: Global, text: &str, length: usize) -> Result<String, Fail> {
    let mut bytes = Vec::with_capacity(alloc, length)?;
    bytes.resize(length.saturating_sub(text.len()), b' ')?;
    bytes.extend_from_slice(text.as_bytes())?;
    Ok(String::from_utf8(bytes)?)
}

/// A file of one byte more than the longest is refused with this status and this line.
fn assert_too_long(
    rt: &(impl Abort + Threads + Sync),
    alloc: Global,
    netlist: &str,
    vectors: &str,
    status: u8,
    line: &str,
) -> Result<(), Fail> {
    let outcome = call(rt, alloc, "n.v v.txt", netlist, vectors, NONE)?;
    assert_eq!(rt; outcome.err.as_str(), line);
    assert_eq!(rt; outcome.out.as_str(), "");
    assert_eq!(rt; outcome.status, status);
    Ok(())
}

#[test]
fn netlists_of_a_byte_too_many(rt: HostRuntime) -> Result<(), Fail> {
    let alloc = rt.alloc();
    let netlist = behind_blanks(alloc, LATCH, 67_108_865)?;
    assert_too_long(
        &rt,
        alloc,
        netlist.as_str(),
        VECTORS,
        3,
        "n.v: limit file\n",
    )
}

#[test]
fn vectors_of_a_byte_too_many(rt: HostRuntime) -> Result<(), Fail> {
    let alloc = rt.alloc();
    let vectors = behind_blanks(alloc, VECTORS, 16_777_217)?;
    assert_too_long(
        &rt,
        alloc,
        LATCH,
        vectors.as_str(),
        4,
        "v.txt: limit file\n",
    )
}

/// A chain of inverters from `a` to `y`, each a nand.
fn chain(alloc: Global, count: u32) -> Result<String, Fail> {
    let mut text = format!(in alloc; "module c(y, a); output y; input a; nand (n0, a);")?;
    for k in 1..count {
        let before = k - 1;
        write!(text, " wire n{before}; nand (n{k}, n{before});")?;
    }
    let last = count.saturating_sub(1);
    write!(
        text,
        " wire n{last}; nand (x, n{last}), (y, x); wire x; endmodule"
    )?;
    Ok(text)
}

/// A chain with two inverters behind it: as many passes as inverters and one more.
#[test]
fn a_step_has_a_thousand_passes(rt: HostRuntime) -> Result<(), Fail> {
    let vectors = "vectors 1\ninputs a\n0 1\nend 0\n";
    let longest = chain(rt.alloc(), 997)?;
    let outcome = call(
        &rt,
        rt.alloc(),
        "n.v v.txt",
        longest.as_str(),
        vectors,
        NONE,
    )?;
    assert_eq!(rt; outcome.status, 0);
    assert_eq!(rt; outcome.out.as_str(), "0 y St0\n");
    let longer = chain(rt.alloc(), 998)?;
    let outcome = call(&rt, rt.alloc(), "n.v v.txt", longer.as_str(), vectors, NONE)?;
    assert_eq!(rt; outcome.status, 6);
    assert_eq!(rt; outcome.out.as_str(), "");
    assert_eq!(rt;
        outcome.err.as_str(),
        "cfsim: good circuit oscillates at 0\n"
    );
    Ok(())
}

/// A ripple adder of four full adders, each of nine nands: `s` and the carry `c4` of `a`, `b` and the carry `c0`.
fn adder(alloc: Global) -> Result<String, Fail> {
    let mut text = format!(in alloc;
        "module adder(c4, s3, s2, s1, s0, a3, a2, a1, a0, b3, b2, b1, b0, c0);\noutput c4, s3, s2, s1, s0; input a3, a2, a1, a0, b3, b2, b1, b0, c0;\nwire c1, c2, c3;\n"
    )?;
    for k in 0..4u32 {
        let next = k + 1;
        write!(text, "wire d{k}, e{k}, f{k}, h{k}, i{k}, j{k}, l{k};\n")?;
        write!(
            text,
            "nand (d{k}, a{k}, b{k}), (e{k}, a{k}, d{k}), (f{k}, b{k}, d{k}), (h{k}, e{k}, f{k});\n"
        )?;
        write!(
            text,
            "nand (i{k}, h{k}, c{k}), (j{k}, h{k}, i{k}), (l{k}, c{k}, i{k}), (s{k}, j{k}, l{k});\n"
        )?;
        write!(text, "nand (c{next}, i{k}, d{k});\n")?;
    }
    text.push_str("endmodule\n")?;
    Ok(text)
}

/// The line of an output at a tick where its bit changed.
fn line(text: &mut String, tick: u32, name: &str, bit: u32, last: Option<u32>) -> Result<(), Fail> {
    if last != Some(bit) {
        write!(text, "{tick} {name} St{bit}\n")?;
    }
    Ok(())
}

/// All sums of two numbers of four bits and a carry, by the arithmetic of whole numbers.
#[test]
fn the_adder_adds(rt: HostRuntime) -> Result<(), Fail> {
    let alloc = rt.alloc();
    let netlist = adder(alloc)?;
    let mut vectors = "vectors 1\ninputs a3 a2 a1 a0 b3 b2 b1 b0 c0\n".to_string(alloc)?;
    let mut expected = String::new(alloc);
    let mut last = None;
    for tick in 0..512u32 {
        write!(vectors, "{tick} {tick:09b}\n")?;
        let sum = tick / 32 + tick / 2 % 16 + tick % 2;
        for (name, place) in [("c4", 16), ("s3", 8), ("s2", 4), ("s1", 2), ("s0", 1)] {
            let before = last.map(|sum: u32| sum / place % 2);
            line(&mut expected, tick, name, sum / place % 2, before)?;
        }
        last = Some(sum);
    }
    vectors.push_str("end 511\n")?;
    let outcome = call(
        &rt,
        rt.alloc(),
        "n.v v.txt",
        netlist.as_str(),
        vectors.as_str(),
        NONE,
    )?;
    assert_eq!(rt; outcome.err.as_str(), "");
    assert_eq!(rt; outcome.out.as_str(), expected.as_str());
    assert_eq!(rt; outcome.status, 0);
    Ok(())
}

/// The latch from real files, to a real stream.
#[test]
fn real_files_give_the_same(rt: HostRuntime) -> Result<(), Fail> {
    let alloc = rt.alloc();
    let folder = env::temp_dir(&rt)?;
    let id = std::process::id(rt.process());
    let mut words = Vec::new(alloc);
    for (ending, text) in [("v", LATCH), ("vec", VECTORS)] {
        let name = format!(in alloc; "{}/cfsim-{}.{}", folder.as_str(), id, ending)?;
        fs::write(&rt, name.as_str(), text)?;
        words.push(name)?;
    }
    let name = format!(in alloc; "{}/cfsim-{}.out", folder.as_str(), id)?;
    let mut out = StreamSink::new(fs::create(&rt, name.as_str())?);
    let mut err = sink_of(&rt, alloc, NEVER)?;
    let mut shelf = FileShelf::new(&rt);
    let status = run(
        &rt,
        alloc,
        words.as_slice(),
        &mut shelf,
        &mut out,
        &mut err,
        &OpenGate,
    );
    drop(out);
    assert_eq!(rt; status.code(), 0);
    let text = fs::read_to_string(&rt, name.as_str())?;
    assert_eq!(rt; text.as_str(), TRACE);
    words.push(name)?;
    for name in &words {
        fs::remove_file(&rt, name.as_str())?;
    }
    Ok(())
}
