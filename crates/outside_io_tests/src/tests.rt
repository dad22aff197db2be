use byte_lists::Bytes;
use outside_io::*;
use std::alloc::{AllocError, Global};
use std::process::Abort;
use std::test::Fail;
use std::{env, fs};

/// Enters a gate that workers share.
fn enter<G: Gate + Sync>(gate: &G) {
    gate.enter(0, 0);
}

/// So many bytes. Each differs from its neighbours and from those 8,192 and 16,384 places on.
fn distinct(alloc: Global, count: u64) -> Result<Vec<u8>, AllocError> {
    let mut bytes = Vec::new(alloc);
    for k in 0..count {
        bytes.push((k % 251) as u8)?;
    }
    Ok(bytes)
}

/// The bytes of `a.v`, which are three, and of `b.v`, which are 20,000.
fn text_of(alloc: Global, name: &str) -> Result<Vec<u8>, AllocError> {
    if name == "a.v" {
        b"abc".to_vec(alloc)
    } else {
        distinct(alloc, 20_000)
    }
}

/// A shelf with `a.v` and `b.v`, which fails at this call.
fn shelf(rt: &impl Abort, alloc: Global, fail: u64) -> Result<MemoryShelf, Fail> {
    let mut files = Vec::new(alloc);
    for name in ["a.v", "b.v"] {
        files.push(NamedFile {
            name: Bytes::from_vec(name.as_bytes().to_vec(alloc)?),
            bytes: Bytes::from_vec(text_of(alloc, name)?),
        })?;
    }
    let files = NamedFileList::from_vec(files);
    let fails = CallList::from_vec([fail].to_vec(alloc)?);
    assert!(rt; files.has_distinct_names());
    assert!(rt; fails.is_rising());
    Ok(MemoryShelf::new(files, fails))
}

/// A file is read whole, or not: the file, the limit and the call that fails, then the fault that
/// is answered, the faults that are counted and the bytes that are given.
struct Reading {
    name: &'static str,
    limit: u32,
    fail: u64,
    fault: Option<TakeFault>,
    faults: u64,
    given: u64,
}

/// Calls are an `open` and then reads of at most 8,192 bytes, the last of which gives none.
static READINGS: [Reading; 11] = [
    Reading {
        name: "a.v",
        limit: 3,
        fail: 9,
        fault: None,
        faults: 0,
        given: 3,
    },
    Reading {
        name: "a.v",
        limit: 2,
        fail: 9,
        fault: Some(TakeFault::TooLong),
        faults: 0,
        given: 3,
    },
    Reading {
        name: "a.v",
        limit: 0,
        fail: 9,
        fault: Some(TakeFault::TooLong),
        faults: 0,
        given: 1,
    },
    Reading {
        name: "b.v",
        limit: 20_000,
        fail: 9,
        fault: None,
        faults: 0,
        given: 20_000,
    },
    Reading {
        name: "b.v",
        limit: 19_999,
        fail: 9,
        fault: Some(TakeFault::TooLong),
        faults: 0,
        given: 20_000,
    },
    Reading {
        name: "c.v",
        limit: 9,
        fail: 9,
        fault: Some(TakeFault::Read),
        faults: 1,
        given: 0,
    },
    Reading {
        name: "a.v",
        limit: 3,
        fail: 0,
        fault: Some(TakeFault::Read),
        faults: 1,
        given: 0,
    },
    Reading {
        name: "a.v",
        limit: 3,
        fail: 1,
        fault: Some(TakeFault::Read),
        faults: 1,
        given: 0,
    },
    Reading {
        name: "a.v",
        limit: 3,
        fail: 2,
        fault: Some(TakeFault::Read),
        faults: 1,
        given: 3,
    },
    Reading {
        name: "a.v",
        limit: 3,
        fail: 3,
        fault: None,
        faults: 0,
        given: 3,
    },
    Reading {
        name: "b.v",
        limit: 20_000,
        fail: 3,
        fault: Some(TakeFault::Read),
        faults: 1,
        given: 16_384,
    },
];

fn readings() -> &'static [Reading] {
    &READINGS
}

/// The file is read as the row says, and where it is read whole all its bytes are as they were.
fn assert_reads(rt: &impl Abort, alloc: Global, row: &Reading) -> Result<(), Fail> {
    let Reading {
        name,
        limit,
        fail,
        ..
    } = row;
    let mut shelf = shelf(rt, alloc, *fail)?;
    match read_whole(alloc, &mut shelf, name, u64::from(*limit)) {
        Ok(bytes) => {
            let text = text_of(alloc, name)?;
            assert_eq!(rt; row.fault, None, "{name} {limit} {fail}");
            assert!(rt;
                bytes.as_slice() == text.as_slice(),
                "{name} {limit} {fail}"
            );
        }
        Err(fault) => assert_eq!(rt; row.fault, Some(fault), "{name} {limit} {fail}"),
    }
    let blamed = if row.faults == 0 { "" } else { *name };
    assert_eq!(rt; shelf.faults(), row.faults, "{name} {limit} {fail}");
    assert_eq!(rt; shelf.given(), row.given, "{name} {limit} {fail}");
    assert_eq!(rt; shelf.blamed(), blamed, "{name} {limit} {fail}");
    Ok(())
}

#[test]
fn files_are_read_whole_or_not_at_all(rt: HostRuntime) -> Result<(), Fail> {
    for row in readings() {
        assert_reads(&rt, rt.alloc(), row)?;
    }
    Ok(())
}

/// Two texts are written, `12` and `345`: the call that fails, then the answer, what was written
/// and the faults that are counted.
struct Writing {
    fail: u64,
    answer: Result<(), PutFault>,
    written: &'static str,
    faults: u64,
}

static WRITINGS: [Writing; 3] = [
    Writing {
        fail: 9,
        answer: Ok(()),
        written: "12345",
        faults: 0,
    },
    Writing {
        fail: 0,
        answer: Err(PutFault::Write),
        written: "345",
        faults: 1,
    },
    Writing {
        fail: 1,
        answer: Err(PutFault::Write),
        written: "12",
        faults: 1,
    },
];

fn writings() -> &'static [Writing] {
    &WRITINGS
}

fn assert_writes(rt: &impl Abort, alloc: Global, row: &Writing) -> Result<(), Fail> {
    let Writing { fail, .. } = row;
    let fails = CallList::from_vec([*fail].to_vec(alloc)?);
    assert!(rt; fails.is_rising());
    let mut sink = MemorySink::new(alloc, fails);
    let first = write_whole(&mut sink, b"12");
    let second = write_whole(&mut sink, b"345");
    assert_eq!(rt; first.and(second), row.answer, "{fail}");
    assert!(rt; sink.written() == row.written.as_bytes(), "{fail}");
    assert_eq!(rt; sink.faults(), row.faults, "{fail}");
    assert_eq!(rt; write_whole(&mut sink, b""), Ok(()));
    assert_eq!(rt; sink.calls(), 2, "{fail}");
    Ok(())
}

#[test]
fn texts_are_written_whole_or_a_fault_is_counted(rt: HostRuntime) -> Result<(), Fail> {
    for row in writings() {
        assert_writes(&rt, rt.alloc(), row)?;
    }
    Ok(())
}

/// Writes these bytes to a real file by a sink, in pieces of 7,000.
fn put_file(rt: &(impl Abort + fs::Files), name: &str, bytes: &[u8]) -> Result<(), Fail> {
    let mut sink = StreamSink::new(fs::create(rt, name)?);
    for piece in bytes.chunks(7_000) {
        assert_eq!(rt; write_whole(&mut sink, piece), Ok(()));
    }
    assert_eq!(rt; sink.faults(), 0);
    Ok(())
}

/// A name in the folder for such files, which begins and ends with a blank and has two within.
fn name_with_blanks(rt: &HostRuntime, alloc: Global) -> Result<String, Fail> {
    let folder = env::temp_dir(rt)?;
    let id = std::process::id(rt.process());
    let name = format!(in alloc; "{}/ outside  io-{} ", folder.as_str(), id)?;
    Ok(name)
}

/// A shelf reads these bytes from the real file.
fn assert_file_read(
    rt: &(impl Abort + fs::Files),
    alloc: Global,
    name: &str,
    text: &[u8],
) -> Result<(), Fail> {
    let mut shelf = FileShelf::new(rt);
    let bytes = read_whole(alloc, &mut shelf, name, 30_000)?;
    assert!(rt; bytes.as_slice() == text);
    assert_eq!(rt; shelf.given(), 30_000);
    assert_eq!(rt; shelf.faults(), 0);
    Ok(())
}

/// A shelf can't read the real file.
fn assert_no_file(rt: &(impl Abort + fs::Files), alloc: Global, name: &str) -> Result<(), Fail> {
    let mut shelf = FileShelf::new(rt);
    let fault = read_whole(alloc, &mut shelf, name, 30_000).err();
    assert_eq!(rt; fault, Some(TakeFault::Read));
    assert_eq!(rt; shelf.faults(), 1);
    assert!(rt; shelf.blamed() == name);
    Ok(())
}

/// A real file of several pieces, whose name has blanks, is written and read again, and then it is
/// no more.
#[test]
fn real_files_and_streams_pass_bytes_on(rt: HostRuntime) -> Result<(), Fail> {
    let alloc = rt.alloc();
    let name = name_with_blanks(&rt, alloc)?;
    let text = distinct(alloc, 30_000)?;
    put_file(&rt, name.as_str(), text.as_slice())?;
    let whole = fs::read(&rt, name.as_str())?;
    assert!(rt; whole.as_slice() == text.as_slice());
    assert_file_read(&rt, alloc, name.as_str(), text.as_slice())?;
    fs::remove_file(&rt, name.as_str())?;
    assert_no_file(&rt, alloc, name.as_str())?;
    enter(&OpenGate);
    Ok(())
}
