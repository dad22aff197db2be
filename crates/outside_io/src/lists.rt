ghost use Rattle.std.specs.Prelude.{◌≡◌, ◌↔◌, Any, IsTrue};
ghost use Rattle.std.specs.List.Sorted.{IsStrictlyIncreasing};
ghost use Rattle.outside_io.specs.Files.{HaveDistinctNames};

use byte_lists::Bytes;
use std::marker::Model;

/// A file in memory: its name and its bytes.
#[derive(Debug, Drop)]
pub struct NamedFile {
    pub name: Bytes,
    pub bytes: Bytes,
}

/// Files in memory. Contracts see the list of them.
#[derive(Debug, Drop)]
pub struct NamedFileList {
    files: Vec<NamedFile>,
}

impl Model for NamedFileList {
    ghost use Rattle.std.specs.Prelude.{List};
    ghost use Rattle.outside_io.specs.declared.lists.NamedFile.{NamedFile};

    ghost Value = { List NamedFile };

    ghost view = { λ f. f.files.items };
}

impl NamedFileList {
    /// The files of a vector, which is kept.
    pub fn from_vec(files: Vec<NamedFile>) -> NamedFileList
        ensures { result ≡ files.items }
    {
        NamedFileList { files }
    }

    /// The vector that holds the files.
    pub fn into_vec(self) -> Vec<NamedFile>
        ensures { result.items ≡ self }
    {
        self.files
    }

    /// The files in their order.
    pub fn as_slice(&self) -> &[NamedFile]
        ensures { result.now ≡ self.now }
    {
        self.files.as_slice()
    }

    /// Whether no two files have one name.
    pub fn has_distinct_names(&self) -> bool
        ensures { IsTrue result ↔ HaveDistinctNames self.now }
    {
        are_distinct(self.files.as_slice())
    }
}

/// Whether no two files have one name.
fn are_distinct(files: &[NamedFile]) -> bool
    ensures { IsTrue result ↔ HaveDistinctNames files.now }
{
    for (i, file) in files.iter().enumerate() {
        if has_name(&files[i + 1..], file.name.as_slice()) {
            return false;
        }
    }
    true
}

/// Whether a file has this name.
fn has_name(files: &[NamedFile], name: &[u8]) -> bool
    ensures { IsTrue result ↔ Any (λ file. file.name ≡ name.now) files.now }
{
    files.iter().any(|file| file.name.as_slice() == name)
}

/// Numbers of calls, counted from 0. Contracts see the list of them.
#[derive(Debug, Drop)]
pub struct CallList {
    calls: Vec<u64>,
}

impl Model for CallList {
    ghost use Rattle.std.specs.Prelude.{List, ℕ};

    ghost Value = { List ℕ };

    ghost view = { λ c. c.calls.items };
}

impl CallList {
    /// The numbers of a vector, which is kept.
    pub fn from_vec(calls: Vec<u64>) -> CallList
        ensures { result ≡ calls.items }
    {
        CallList { calls }
    }

    /// The vector that holds the numbers.
    pub fn into_vec(self) -> Vec<u64>
        ensures { result.items ≡ self }
    {
        self.calls
    }

    /// The numbers in their order.
    pub fn as_slice(&self) -> &[u64]
        ensures { result.now ≡ self.now }
    {
        self.calls.as_slice()
    }

    /// Whether each number is below the next.
    pub fn is_rising(&self) -> bool
        ensures { IsTrue result ↔ IsStrictlyIncreasing self.now }
    {
        rises(self.calls.as_slice())
    }
}

/// Whether each number is below the next.
fn rises(calls: &[u64]) -> bool
    ensures { IsTrue result ↔ IsStrictlyIncreasing calls.now }
{
    calls.windows(2).all(|pair| pair[0] < pair[1])
}
