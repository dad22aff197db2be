ghost use Rattle.std.specs.Prelude.{◌≡◌, ◌<◌, ◌≤◌, ◌^◌, [], None, refl, length, take, Ok, OnOk, OnErr, IfOk, IfSome, string_bytes};
ghost use Rattle.std.specs.Io.KnownBytes.{Appends, Consumes, IsAtEnd, Keeps};
ghost use Rattle.outside_io.specs.Outside.{one_more};
ghost use Rattle.outside_io.specs.Edge.{with_open, with_read, with_fault};

use crate::outside::{Failed, Gate, Shelf, Sink};
use std::fs;
use std::io::{Read, Write};
use std::marker::Model;
use std::rt::Files;

/// An open file of the system, and the name by which it was opened.
#[derive(Drop)]
struct OpenedFile<S> {
    name: String,
    file: S,
}

/// The files of the system. As a `Shelf` it tells nothing of their content.
///
/// Each error that it answers is counted, and the name of the file is blamed. Contracts see an
/// `EdgeState`, which has what std knows to be left of the open file.
#[derive(Drop)]
pub struct FileShelf<R: Files + Drop> {
    rt: R,
    opened: Option<OpenedFile<R::File>>,
    faults: u64,
    blamed: Option<String>,
    given: u64,
}

impl<R: Files + Drop> Model for FileShelf<R> {
    ghost use Rattle.outside_io.specs.Edge.{EdgeState, opened_name, left_of};
    ghost use Rattle.outside_io.specs.Outside.{blamed_text};

    ghost Value = { EdgeState };

    ghost view = { λ s. record {
      named = opened_name s.opened;
      remaining = left_of R.File.remaining s.opened;
      faults = s.faults;
      blamed = blamed_text s.blamed;
      given = s.given;
    } };
}

impl<R: Files + Drop> FileShelf<R> {
    /// A shelf of the files that this runtime reaches, with none open.
    pub fn new(rt: R) -> FileShelf<R>
        ensures { result ≡ record {
          named = None;
          remaining = None;
          faults = 0;
          blamed = [];
          given = 0;
        } }
    {
        FileShelf {
            rt,
            opened: None,
            faults: 0,
            blamed: None,
            given: 0,
        }
    }

    /// How many faults were counted; it stands still at 2^64 - 1.
    pub fn faults(&self) -> u64
        ensures { result ≡ self.now.faults }
    {
        self.faults
    }

    /// How many bytes were read since the last `open`; it stands still at 2^64 - 1.
    pub fn given(&self) -> u64
        ensures { result ≡ self.now.given }
    {
        self.given
    }

    /// The name at the last fault, and empty before the first.
    pub fn blamed(&self) -> &str
        ensures { result.now ≡ self.now.blamed }
    {
        match &self.blamed {
            Some(name) => name.as_str(),
            None => "",
        }
    }

    /// Counts a fault, and blames the name.
    fn fail(&mut self, name: String)
        ensures { self.new ≡ with_fault self.old (string_bytes name) }
    {
        self.opened = None;
        self.faults = self.faults.saturating_add(1);
        self.blamed = Some(name);
    }
}

impl<R: Files + Drop> Shelf for FileShelf<R> {
    ghost files = { λ _. None };

    ghost rest = { λ _. None };

    ghost named = { λ s. s.named };

    ghost faults = { λ s. s.faults };

    ghost blamed = { λ s. s.blamed };

    ghost given = { λ s. s.given };

    ghost told_together = { λ _. refl };

    ghost none_left = { λ _ _. tt };

    fn open(&mut self, name: String) -> Result<(), Failed>
        ensures ok { OnOk result (self.new
            ≡ with_open self.old (string_bytes name) self.new.remaining) }
        ensures err { OnErr result (self.new
            ≡ record (with_fault self.old (string_bytes name)) { given = 0 }) }
        ensures never_falls { self.old.faults ≤ self.new.faults }
        ensures counted { self.new.faults < 2 ^ 64 }
    {
        // Read here so that its range is known.
        let _faults = self.faults;
        self.given = 0;
        match fs::open(&self.rt, name.as_str()) {
            Ok(file) => {
                self.opened = Some(OpenedFile { name, file });
                Ok(())
            }
            Err(_) => {
                self.fail(name);
                Err(Failed)
            }
        }
    }

    fn read(&mut self, buffer: &mut [u8]) -> Result<usize, Failed>
        ensures nothing_open { self.old.named ≡ None → result ≡ Ok 0 }
        ensures within { IfOk result (λ n. n ≤ length buffer.old) }
        ensures ok { IfOk result (λ n. self.new ≡ with_read self.old n self.new.remaining) }

        // Ok: these are the first bytes of what std knows to be left, and 0 is std's end.
        ensures moves { IfOk result (λ n.
            Consumes self.old.remaining self.new.remaining (take n buffer.new)) }
        ensures end { result ≡ Ok 0 → 0 < length buffer.old → IsAtEnd self.new.remaining }

        // Err: a file was open, and is blamed and closed.
        ensures err { OnErr result (IfSome self.old.named (λ name.
            self.new ≡ with_fault self.old name)) }
        ensures never_falls { self.old.faults ≤ self.new.faults }
        ensures counted { self.new.faults < 2 ^ 64 }
    {
        // Read here so that their ranges are known.
        let _faults = self.faults;
        let given = self.given;
        let Some(OpenedFile { name, mut file }) = self.opened.take() else {
            return Ok(0);
        };
        match file.read(buffer) {
            Ok(n) => {
                self.opened = Some(OpenedFile { name, file });
                self.given = given.saturating_add(n as u64);
                Ok(n)
            }
            Err(_) => {
                self.fail(name);
                Err(Failed)
            }
        }
    }
}

/// A gate that stands open.
#[derive(Clone, Copy, Debug, Default, PartialEq, Eq)]
pub struct OpenGate;

impl Gate for OpenGate {
    fn enter(&self, _worker: u32, _block: u32) {}
}

/// A stream of the system. As a `Sink` it tells nothing of what was written.
///
/// Each error that it answers is counted, and so is a write that takes nothing of a piece that
/// isn't empty. It keeps no bytes back. Contracts see a `StreamState`, which has what std knows
/// the stream to hold.
#[derive(Drop)]
pub struct StreamSink<W: Write + Drop> {
    stream: W,
    faults: u64,
}

impl<W: Write + Drop> Model for StreamSink<W> {
    ghost use Rattle.outside_io.specs.Edge.{StreamState};

    ghost Value = { StreamState };

    ghost view = { λ s. record { contents = W.contents s.stream; faults = s.faults } };
}

impl<W: Write + Drop> StreamSink<W> {
    /// A sink that writes to this stream, with no fault counted.
    pub fn new(stream: W) -> StreamSink<W>
        ensures { result ≡ record { contents = W.contents stream; faults = 0 } }
    {
        StreamSink { stream, faults: 0 }
    }

    /// How many faults were counted; it stands still at 2^64 - 1.
    pub fn faults(&self) -> u64
        ensures { result ≡ self.now.faults }
    {
        self.faults
    }
}

impl<W: Write + Drop> Sink for StreamSink<W> {
    ghost written = { λ _. None };

    ghost faults = { λ s. s.faults };

    fn write(&mut self, piece: &[u8]) -> Result<usize, Failed>
        ensures within { IfOk result (λ n. n ≤ length piece.now) }
        ensures takes { IfOk result (λ n. 0 < length piece.now → 0 < n) }
        ensures empty { length piece.now ≡ 0 → result ≡ Ok 0 }

        // Ok: std knows that the stream took these first bytes. Err: that it took none.
        ensures puts { IfOk result (λ n.
            Appends self.old.contents self.new.contents (take n piece.now)) }
        ensures keeps { OnErr result (Keeps self.old.contents self.new.contents) }
        ensures quiet { OnOk result (self.new.faults ≡ self.old.faults) }
        ensures rose { OnErr result (self.new.faults ≡ one_more self.old.faults) }
        ensures never_falls { self.old.faults ≤ self.new.faults }
        ensures counted { self.new.faults < 2 ^ 64 }
    {
        let faults = self.faults;
        if piece.is_empty() {
            return Ok(0);
        }
        match self.stream.write(piece) {
            Ok(n) if n > 0 => Ok(n),
            _ => {
                self.faults = faults.saturating_add(1);
                Err(Failed)
            }
        }
    }
}
