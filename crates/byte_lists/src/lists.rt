ghost use Rattle.std.specs.Prelude.{◌≡◌, [], ◌∷◌, ◌++◌, length, OnOk, OnErr, IfErr, slice_index, ◌<◌};

use std::alloc::{AllocFailed, Global};
use std::marker::Model;

/// Bytes, such as those of a name or a text. Contracts see the list of them.
#[derive(Debug, Drop)]
pub struct Bytes {
    bytes: Vec<u8>,
}

impl Model for Bytes {
    ghost use Rattle.std.specs.Prelude.{List, ℕ};

    ghost Value = { List ℕ };

    ghost view = { λ b. b.bytes.items };
}

impl Bytes {
    /// The bytes of a vector, which is kept.
    pub fn from_vec(bytes: Vec<u8>) -> Bytes
        ensures { result ≡ bytes.items }
    {
        Bytes { bytes }
    }

    /// The vector that holds the bytes.
    pub fn into_vec(self) -> Vec<u8>
        ensures { result.items ≡ self }
    {
        self.bytes
    }

    pub fn as_slice(&self) -> &[u8]
        ensures { result.now ≡ self.now }
    {
        self.bytes.as_slice()
    }
}

/// Names, each the bytes of one. Contracts see a list of lists of bytes.
#[derive(Debug, Drop)]
pub struct NameList {
    names: Vec<Bytes>,
}

impl Model for NameList {
    ghost use Rattle.std.specs.Prelude.{List, ℕ};

    ghost Value = { List (List ℕ) };

    ghost view = { λ n. n.names.items };
}

impl NameList {
    /// The names of a vector, which is kept.
    pub fn from_vec(names: Vec<Bytes>) -> NameList
        ensures { result ≡ names.items }
    {
        NameList { names }
    }

    /// The vector that holds the names.
    pub fn into_vec(self) -> Vec<Bytes>
        ensures { result.items ≡ self }
    {
        self.names
    }

    pub fn as_slice(&self) -> &[Bytes]
        ensures { result.now ≡ self.now }
    {
        self.names.as_slice()
    }
}

/// Numbers of nets, elements or places. Contracts see the list of them.
#[derive(Debug, Drop)]
pub struct NetList {
    nets: Vec<u32>,
}

impl Model for NetList {
    ghost use Rattle.std.specs.Prelude.{List, ℕ};

    ghost Value = { List ℕ };

    ghost view = { λ n. n.nets.items };
}

impl NetList {
    /// The numbers of a vector, which is kept.
    pub fn from_vec(nets: Vec<u32>) -> NetList
        ensures { result ≡ nets.items }
    {
        NetList { nets }
    }

    /// The vector that holds the numbers.
    pub fn into_vec(self) -> Vec<u32>
        ensures { result.items ≡ self }
    {
        self.nets
    }

    pub fn as_slice(&self) -> &[u32]
        ensures { result.now ≡ self.now }
    {
        self.nets.as_slice()
    }
}
