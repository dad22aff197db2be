ghost use Rattle.std.specs.Prelude.{◌≡◌, ◌+◌, ◌-◌, ◌^◌, ◌<◌, ◌≤◌, min, [], length, take, drop, refl, None, Some, Ok, Err, is_ok, IsOk, OnOk, OnErr, IfOk, IfSome, MatchOption, string_bytes, slice_index_or};
ghost use Rattle.outside_io.specs.Files.{file_of, HaveDistinctNames};
ghost use Rattle.std.specs.List.Sorted.{IsStrictlyIncreasing};

use crate::lists::{CallList, NamedFile, NamedFileList};
use crate::outside::{Failed, Shelf};
use std::marker::Model;

/// The open file of a shelf in memory: its name, its index among the files, and how many of its
/// bytes were read.
#[derive(Debug, Drop)]
struct OpenFile {
    name: String,
    index: usize,
    at: usize,
}

/// A shelf of files in memory, which fails at listed calls.
///
/// Calls of `open` and `read` are counted together, from 0. Apart from listed calls it fails only
/// where a file is missing. Contracts see a `ShelfState`.
#[derive(Debug, Drop)]
pub struct MemoryShelf {
    files: NamedFileList,
    fails: CallList,
    calls: u64,
    opened: Option<OpenFile>,
    faults: u64,
    blamed: Option<String>,
    given: u64,
}

impl Model for MemoryShelf {
    ghost use Rattle.outside_io.specs.MemoryShelf.{ShelfState};
    ghost use Rattle.outside_io.specs.MemoryFields.{open_text, IsOpenIn};
    ghost use Rattle.outside_io.specs.Outside.{blamed_text};

    ghost Value = { ShelfState };

    ghost view = { λ s. record {
      files = s.files;
      fails = s.fails;
      calls = s.calls;
      opened = open_text s.files s.opened;
      faults = s.faults;
      blamed = blamed_text s.blamed;
      given = s.given;
    } };

    ghost invariant = { λ s. IsOpenIn s.files s.opened };
}

impl MemoryShelf {
    ghost use Rattle.outside_io.specs.MemoryShelf.{with_call, is_failing, with_fault};

    /// A shelf of these files, on the condition that their names are distinct and that the
    /// numbers of the calls that fail rise.
    pub fn new(files: NamedFileList, fails: CallList) -> MemoryShelf
        requires distinct { HaveDistinctNames files }
        requires rising { IsStrictlyIncreasing fails }
        ensures { result ≡ record {
          files = files;
          fails = fails;
          calls = 0;
          opened = None;
          faults = 0;
          blamed = [];
          given = 0;
        } }
    {
        MemoryShelf {
            files,
            fails,
            calls: 0,
            opened: None,
            faults: 0,
            blamed: None,
            given: 0,
        }
    }

    /// How many calls of `open` and `read` there were; it stands still at 2^64 - 1.
    pub fn calls(&self) -> u64
        ensures { result ≡ self.now.calls }
    {
        self.calls
    }

    /// How many faults were counted.
    pub fn faults(&self) -> u64
        ensures { result ≡ self.now.faults }
    {
        self.faults
    }

    /// How many bytes were read since the last `open`.
    pub fn given(&self) -> u64
        ensures { result ≡ self.now.given }
    {
        self.given
    }

    /// The name at the last fault, and empty before the first.
    pub fn blamed(&self) -> &str
        ensures { result.now ≡ self.now.blamed }
    {
        match &self.blamed {
            Some(name) => name.as_str(),
            None => "",
        }
    }

    /// Counts a call, and answers whether it is one that fails.
    fn count_call(&mut self) -> bool
        ensures fails { result ≡ is_failing self.old }
        ensures counted { self.new ≡ with_call self.old }
    {
        let fails = self.fails.as_slice().contains(&self.calls);
        self.calls = self.calls.saturating_add(1);
        fails
    }

    /// Counts a fault, blames the name and closes the open file.
    fn fail(&mut self, name: String)
        ensures { self.new ≡ with_fault self.old (string_bytes name) }
    {
        self.opened = None;
        self.faults = self.faults.saturating_add(1);
        self.blamed = Some(name);
    }
}

impl Shelf for MemoryShelf {
    ghost use Rattle.std.specs.Prelude.{option_map};
    ghost use Rattle.outside_io.specs.MemoryShelf.{open_name, open_left, open_left-none, opens, reads, after_open, after_read, after_failed};

    ghost files = { λ s. Some (file_of s.files) };

    ghost rest = { λ s. Some (open_left s.opened) };

    ghost named = { λ s. open_name s.opened };

    ghost faults = { λ s. s.faults };

    ghost blamed = { λ s. s.blamed };

    ghost given = { λ s. s.given };

    ghost told_together = { λ _. refl };

    ghost none_left = { λ s. open_left-none s.opened };

    fn open(&mut self, name: String) -> Result<(), Failed>
        ensures exactly { is_ok result ≡ opens self.old (string_bytes name) }
        ensures ok { OnOk result (IfSome (file_of self.old.files (string_bytes name)) (λ bytes.
            self.new ≡ after_open self.old (string_bytes name) bytes)) }
        ensures err { OnErr result (self.new
            ≡ record (after_failed self.old (string_bytes name)) { given = 0 }) }
        ensures never_falls { self.old.faults ≤ self.new.faults }
        ensures counted { self.new.faults < 2 ^ 64 }
    {
        let fails = self.count_call();
        self.given = 0;
        if fails {
            self.fail(name);
            return Err(Failed);
        }
        let Some(index) = index_of(self.files.as_slice(), name.as_str().as_bytes()) else {
            self.fail(name);
            return Err(Failed);
        };
        self.opened = Some(OpenFile { name, index, at: 0 });
        Ok(())
    }

    fn read(&mut self, buffer: &mut [u8]) -> Result<usize, Failed>
        ensures exactly { is_ok result ≡ reads self.old }
        ensures count { IfOk result (λ n.
            n ≡ min (length buffer.old) (length (open_left self.old.opened))) }
        ensures moved { IfOk result (λ n.
            take n buffer.new ≡ take n (open_left self.old.opened)) }
        ensures ok { IfOk result (λ n. self.new ≡ after_read self.old n) }
        ensures err { OnErr result (IfSome (open_name self.old.opened) (λ name.
            self.new ≡ after_failed self.old name)) }
        ensures never_falls { self.old.faults ≤ self.new.faults }
        ensures counted { self.new.faults < 2 ^ 64 }
    {
        let fails = self.count_call();
        let Some(OpenFile { name, index, at }) = self.opened.take() else {
            return Ok(0);
        };
        if fails {
            self.fail(name);
            return Err(Failed);
        }
        let n = copy_first(&self.files.as_slice()[index].bytes.as_slice()[at..], buffer);
        self.opened = Some(OpenFile {
            name,
            index,
            at: at + n,
        });
        self.given = self.given.saturating_add(n as u64);
        Ok(n)
    }
}

/// Copies first bytes, as many as both lists have, and answers how many.
fn copy_first(from: &[u8], to: &mut [u8]) -> usize
    ensures count { result ≡ min (length from.now) (length to.old) }
    ensures copied { take result to.new ≡ take result from.now }
{
    let n = from.len().min(to.len());
    to[..n].copy_from_slice(&from[..n]);
    n
}

/// The index of the file of this name, where there is one.
fn index_of(files: &[NamedFile], name: &[u8]) -> Option<usize>
    ensures { MatchOption result (file_of files.now name.now ≡ None) (λ i. (i < length files.now)
        × ((d : _) → file_of files.now name.now ≡ Some (slice_index_or files.now i d).bytes)) }
{
    for (i, file) in files.iter().enumerate() {
        if file.name.as_slice() == name {
            return Some(i);
        }
    }
    None
}
