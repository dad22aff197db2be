//! A list of keys.
ghost use Rattle.std.specs.Prelude.{◌≡◌, ◌↔◌, [], length, IsTrue};

use std::alloc::Global;
use std::marker::Model;

/// Keys in order. Contracts see the list of them.
#[derive(Debug, Drop)]
pub struct KeyList {
    pub(crate) keys: Vec<u32>,
}

impl Model for KeyList {
    ghost use Rattle.std.specs.Prelude.{List, ℕ};

    ghost Value = { List ℕ };

    ghost view = { λ k. k.keys.items };
}

impl KeyList {
    /// No keys. It takes no memory.
    pub fn new(alloc: Global) -> KeyList
        ensures { result ≡ [] }
    {
        KeyList {
            keys: Vec::new(alloc),
        }
    }

    /// The keys of a vector, which is kept.
    pub fn from_vec(keys: Vec<u32>) -> KeyList
        ensures { result ≡ keys.items }
    {
        KeyList { keys }
    }

    /// The vector that holds the keys.
    pub fn into_vec(self) -> Vec<u32>
        ensures { result.items ≡ self }
    {
        self.keys
    }

    /// The keys.
    pub fn as_slice(&self) -> &[u32]
        ensures { result.now ≡ self.now }
    {
        self.keys.as_slice()
    }

    /// How many keys there are.
    pub fn len(&self) -> usize
        ensures { result ≡ length self.now }
    {
        self.keys.len()
    }

    /// Whether there are no keys.
    pub fn is_empty(&self) -> bool
        ensures { IsTrue result ↔ (self.now ≡ []) }
    {
        self.keys.is_empty()
    }

    /// Takes all keys out, and keeps the memory.
    pub fn clear(&mut self)
        ensures { self.new ≡ [] }
    {
        self.keys.clear();
    }
}
