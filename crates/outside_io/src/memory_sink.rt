ghost use Rattle.std.specs.Prelude.{◌≡◌, ◌+◌, ◌^◌, ◌<◌, ◌≤◌, [], length, Some, Ok, IsErr, OnOk, OnErr, IfOk, IsTrue};
ghost use Rattle.std.specs.List.Sorted.{IsStrictlyIncreasing};

use crate::lists::CallList;
use crate::outside::{Failed, Sink};
use std::alloc::Global;
use std::marker::Model;

/// A sink that keeps all bytes in memory, and fails at listed calls.
///
/// Calls of `write` are counted from 0. Apart from listed calls it fails only where there is no
/// memory for the bytes. Contracts see a `SinkState`.
#[derive(Debug, Drop)]
pub struct MemorySink {
    fails: CallList,
    calls: u64,
    written: Vec<u8>,
    faults: u64,
}

impl Model for MemorySink {
    ghost use Rattle.outside_io.specs.MemorySink.{SinkState};

    ghost Value = { SinkState };

    ghost view = { λ s. record {
      fails = s.fails;
      calls = s.calls;
      written = s.written.items;
      faults = s.faults;
    } };
}

impl MemorySink {
    /// A sink without bytes, on the condition that the numbers of the calls that fail rise.
    pub fn new(alloc: Global, fails: CallList) -> MemorySink
        requires { IsStrictlyIncreasing fails }
        ensures { result ≡ record { fails = fails; calls = 0; written = []; faults = 0 } }
    {
        MemorySink {
            fails,
            calls: 0,
            written: Vec::new(alloc),
            faults: 0,
        }
    }

    /// All bytes that were taken.
    pub fn written(&self) -> &[u8]
        ensures { result.now ≡ self.now.written }
    {
        self.written.as_slice()
    }

    /// How many calls of `write` there were; it stands still at 2^64 - 1.
    pub fn calls(&self) -> u64
        ensures { result ≡ self.now.calls }
    {
        self.calls
    }

    /// How many faults were counted.
    pub fn faults(&self) -> u64
        ensures { result ≡ self.now.faults }
    {
        self.faults
    }
}

impl Sink for MemorySink {
    ghost use Rattle.outside_io.specs.MemorySink.{is_failing, after_write, after_fault};

    ghost written = { λ s. Some s.written };

    ghost faults = { λ s. s.faults };

    fn write(&mut self, piece: &[u8]) -> Result<usize, Failed>
        ensures empty { length piece.now ≡ 0 → result ≡ Ok 0 }
        ensures fails { 0 < length piece.now → IsTrue (is_failing self.old) → IsErr result }
        ensures all { IfOk result (λ n. n ≡ length piece.now) }
        ensures ok { OnOk result (self.new ≡ after_write self.old piece.now) }
        ensures err { OnErr result (self.new ≡ after_fault self.old) }
        ensures never_falls { self.old.faults ≤ self.new.faults }
        ensures counted { self.new.faults < 2 ^ 64 }
    {
        let faults = self.faults;
        let fails = self.fails.as_slice().contains(&self.calls);
        self.calls = self.calls.saturating_add(1);
        if piece.is_empty() {
            return Ok(0);
        }
        if fails || self.written.extend_from_slice(piece).is_err() {
            self.faults = faults.saturating_add(1);
            return Err(Failed);
        }
        Ok(piece.len())
    }
}
