ghost use Rattle.std.specs.Prelude.{◌≡◌, ℕ, ◌+◌, ◌-◌, ◌^◌, ◌<◌, ◌≤◌, min, List, [], length, take, Option, None, Some, is_some, Ok, IsErr, IfOk, OnOk, OnErr, IfSome, string_bytes};
ghost use Rattle.outside_io.specs.Outside.{Rose, Gains, Gives, content_of};

use thiserror::Error;

/// A call on the outside failed. The object that was called has counted it.
#[derive(Clone, Copy, Debug, PartialEq, Eq, Hash, Error)]
#[error("a call on the outside failed")]
pub struct Failed;

/// Holds files, of which at most one is open.
///
/// A count of faults never falls, and stands still at 2^64 - 1.
pub trait Shelf {
    /// From the bytes of a name to those of its file, where the shelf tells what it holds. A name
    /// without a file has none.
    ghost files: { Self → Option (List ℕ → Option (List ℕ)) };

    /// What is left of the open file, where the shelf tells it.
    ghost rest: { Self → Option (List ℕ) };

    /// The name of the open file, or none.
    ghost named: { Self → Option (List ℕ) };

    /// How many faults were counted.
    ghost faults: { Self → ℕ };

    /// The name at the last fault, and empty before the first.
    ghost blamed: { Self → List ℕ };

    /// How many bytes were read since the last `open`; it stands still at 2^64 - 1.
    ghost given: { Self → ℕ };

    /// Opens the file of this name, from its first byte, in place of the one that is open.
    ///
    /// The name is moved in and kept, so no memory is taken for it.
    fn open(&mut self, name: String) -> Result<(), Failed>
        ensures failed { OnErr result (Rose (faults self.old) (faults self.new)) }
        ensures quiet { OnOk result (faults self.new ≡ faults self.old) }
        ensures never_falls { faults self.old ≤ faults self.new }
        ensures counted { faults self.new < 2 ^ 64 }
        ensures blames { OnErr result (blamed self.new ≡ string_bytes name) }
        ensures blames_none { OnOk result (blamed self.new ≡ blamed self.old) }
        ensures files_stay { files self.new ≡ files self.old }
        ensures missing { IfSome (files self.old) (λ told.
            told (string_bytes name) ≡ None → IsErr result) }
        ensures opens { OnOk result (named self.new ≡ Some (string_bytes name)) }
        ensures whole { OnOk result (rest self.new
            ≡ content_of (files self.old) (string_bytes name)) }
        ensures closed { OnErr result (named self.new ≡ None) }
        ensures empty { OnErr result (IfSome (rest self.new) (λ left. left ≡ [])) }
        ensures none_given { given self.new ≡ 0 };

    /// Reads the next bytes of the open file into the buffer, and answers how many.
    ///
    /// An answer 0 with a buffer that isn't empty is the end. With no open file the answer is 0.
    fn read(&mut self, buffer: &mut [u8]) -> Result<usize, Failed>
        ensures failed { OnErr result (Rose (faults self.old) (faults self.new)) }
        ensures quiet { OnOk result (faults self.new ≡ faults self.old) }
        ensures never_falls { faults self.old ≤ faults self.new }
        ensures counted { faults self.new < 2 ^ 64 }
        ensures blames { OnErr result (named self.old ≡ Some (blamed self.new)) }
        ensures blames_none { OnOk result (blamed self.new ≡ blamed self.old) }
        ensures files_stay { files self.new ≡ files self.old }
        ensures within { IfOk result (λ n. n ≤ length buffer.old) }
        ensures moves { IfOk result (λ n.
            Gives (rest self.old) (rest self.new) (take n buffer.new)) }
        ensures end { result ≡ Ok 0 → 0 < length buffer.old
            → IfSome (rest self.old) (λ left. left ≡ []) }
        ensures stays_open { OnOk result (named self.new ≡ named self.old) }
        ensures closed { OnErr result (named self.new ≡ None) }
        ensures empty { OnErr result (IfSome (rest self.new) (λ left. left ≡ [])) }
        ensures nothing_open { named self.old ≡ None → result ≡ Ok 0 }
        ensures gives { IfOk result (λ n. given self.new ≡ min (given self.old + n) (2 ^ 64 - 1)) }
        ensures gives_none { OnErr result (given self.new ≡ given self.old) };

    /// What is left of the open file is told exactly where the files are.
    ghost told_together: { (s : Self) → is_some (rest s) ≡ is_some (files s) };

    /// Where no file is open nothing is left.
    ghost none_left: { (s : Self) → named s ≡ None → IfSome (rest s) (λ left. left ≡ []) };
}

/// Takes bytes, in their order.
///
/// A count of faults never falls, and stands still at 2^64 - 1.
pub trait Sink {
    /// All bytes that were taken, where the sink tells them.
    ghost written: { Self → Option (List ℕ) };

    /// How many faults were counted.
    ghost faults: { Self → ℕ };

    /// Takes first bytes of the piece, and answers how many: at least one where the piece isn't
    /// empty. A sink that can take none of such a piece counts a fault.
    fn write(&mut self, piece: &[u8]) -> Result<usize, Failed>
        ensures failed { OnErr result (Rose (faults self.old) (faults self.new)) }
        ensures quiet { OnOk result (faults self.new ≡ faults self.old) }
        ensures never_falls { faults self.old ≤ faults self.new }
        ensures counted { faults self.new < 2 ^ 64 }
        ensures within { IfOk result (λ n. n ≤ length piece.now) }
        ensures takes { IfOk result (λ n. 0 < length piece.now → 0 < n) }
        ensures empty { length piece.now ≡ 0 → result ≡ Ok 0 }
        ensures appends { IfOk result (λ n.
            Gains (written self.old) (written self.new) (take n piece.now)) }
        ensures keeps { OnErr result (written self.new ≡ written self.old) };
}

/// What a worker passes after each claim of a block, before the block is run. Workers are
/// numbered from 0.
pub trait Gate {
    /// Promises nothing but its return.
    fn enter(&self, worker: u32, block: u32);
}
