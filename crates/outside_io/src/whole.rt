ghost use Rattle.std.specs.Prelude.{◌≡◌, ◌+◌, ◌^◌, ◌<◌, ◌≤◌, ◌⊎◌, ◌++◌, ℕ, List, [], length, Some, None, Ok, IfOk, OnOk, OnErr, IfSome, IsSomeAnd, IsOk, vec_len};
ghost use Rattle.outside_io.specs.Outside.{Rose, Gains, GainsPrefix, Gives, content_of};
ghost use Rattle.outside_io.specs.Answers.{OnRead, OnTooLong, OnMemory, UnlessRead};

use crate::outside::{Shelf, Sink};
use byte_lists::Bytes;
use std::alloc::Global;
use thiserror::Error;

/// Why a file wasn't read whole.
#[derive(Clone, Copy, Debug, PartialEq, Eq, Hash, Error)]
pub enum TakeFault {
    /// A call on the shelf failed. The shelf counted it and blames the name.
    #[error("the file can't be read")]
    Read,
    /// The file is longer than the limit.
    #[error("the file is too long")]
    TooLong,
    /// There is no memory for the name or the bytes.
    #[error("out of memory")]
    Memory,
}

/// Why a text wasn't written whole.
#[derive(Clone, Copy, Debug, PartialEq, Eq, Hash, Error)]
pub enum PutFault {
    /// A call on the sink failed. The sink counted it.
    #[error("the text can't be written")]
    Write,
}

/// How many bytes are read at once, at most.
const PIECE: u64 = 8192;

/// Reads all bytes of the file of this name, at most `limit` of them.
///
/// It opens a copy of the name and no other file. `Read` comes where a call on the shelf failed,
/// `TooLong` exactly where `limit + 1` bytes were taken, `Memory` for want of memory.
pub fn read_whole<F: Shelf>(
    alloc: Global,
    shelf: &mut F,
    name: &str,
    limit: u64,
) -> Result<Bytes, TakeFault>
    requires { limit ≤ 2 ^ 40 }
    ensures files_stay { F.files shelf.new ≡ F.files shelf.old }

    // Ok: the bytes are those of the file, where the shelf tells them.
    ensures whole { IfOk result (λ bytes. IfSome (F.files shelf.old) (λ told.
        told name.now ≡ Some bytes)) }
    ensures within { IfOk result (λ bytes. length bytes ≤ limit) }
    ensures taken { IfOk result (λ bytes. F.given shelf.new ≡ length bytes) }
    ensures opened { OnOk result (F.named shelf.new ≡ Some name.now) }

    // Read: a fault was counted, and the name is blamed.
    ensures read_rose { OnRead result (Rose (F.faults shelf.old) (F.faults shelf.new)) }
    ensures read_blames { OnRead result (F.blamed shelf.new ≡ name.now) }
    ensures read_given { OnRead result (F.given shelf.new ≤ limit) }
    ensures read_closed { OnRead result (F.named shelf.new ≡ None) }

    // TooLong: one byte more than the limit was taken.
    ensures too_long_given { OnTooLong result (F.given shelf.new ≡ limit + 1) }
    ensures too_long_opened { OnTooLong result (F.named shelf.new ≡ Some name.now) }
    ensures too_long { OnTooLong result (IfSome (F.files shelf.old) (λ told.
        IsSomeAnd (told name.now) (λ bytes. limit < length bytes))) }

    // Memory: before the shelf was asked, or in the middle of this file.
    ensures memory { OnMemory result ((shelf.new ≡ shelf.old)
        ⊎ ((F.named shelf.new ≡ Some name.now) × (F.given shelf.new ≤ limit))) }

    // No other answer than Read comes with a fault.
    ensures quiet { UnlessRead result (F.faults shelf.new ≡ F.faults shelf.old) }
    ensures blames_none { UnlessRead result (F.blamed shelf.new ≡ F.blamed shelf.old) }
{
    let Ok(copy) = String::from_str(alloc, name) else {
        return Err(TakeFault::Memory);
    };
    if shelf.open(copy).is_err() {
        return Err(TakeFault::Read);
    }
    let mut buffer = [0; PIECE as usize];
    let mut bytes = Vec::new(alloc);
    loop {
        let room = PIECE.min(limit + 1 - bytes.len() as u64);
        let n = take_piece(shelf, &mut buffer[..room as usize], &mut bytes, limit)?;
        if n == 0 {
            return Ok(Bytes::from_vec(bytes));
        }
    }
}

/// Takes the next bytes of the open file, and answers how many: 0 at its end.
fn take_piece<F: Shelf>(
    shelf: &mut F,
    piece: &mut [u8],
    bytes: &mut Vec<u8>,
    limit: u64,
) -> Result<usize, TakeFault>
    requires bounded { limit ≤ 2 ^ 40 }
    requires fits { vec_len bytes.old + length piece.old ≤ limit + 1 }
    requires some { 0 < length piece.old }
    requires taken { F.given shelf.old ≡ vec_len bytes.old }
    ensures files_stay { F.files shelf.new ≡ F.files shelf.old }
    ensures opened { UnlessRead result (F.named shelf.new ≡ F.named shelf.old) }
    ensures quiet { UnlessRead result (F.faults shelf.new ≡ F.faults shelf.old) }
    ensures blames_none { UnlessRead result (F.blamed shelf.new ≡ F.blamed shelf.old) }
    ensures counts { IfOk result (λ n. vec_len bytes.new ≡ vec_len bytes.old + n) }
    ensures within { OnOk result (vec_len bytes.new ≤ limit) }
    ensures taken { OnOk result (F.given shelf.new ≡ vec_len bytes.new) }
    ensures gives { OnOk result ((piece : List ℕ) × (bytes.new.items ≡ bytes.old.items ++ piece)
        × Gives (F.rest shelf.old) (F.rest shelf.new) piece) }
    ensures end { result ≡ Ok 0 → IfSome (F.rest shelf.old) (λ left. left ≡ []) }
    ensures read_rose { OnRead result (Rose (F.faults shelf.old) (F.faults shelf.new)) }
    ensures read_blames { OnRead result (F.named shelf.old ≡ Some (F.blamed shelf.new)) }
    ensures read_given { OnRead result (F.given shelf.new ≡ F.given shelf.old) }
    ensures read_closed { OnRead result (F.named shelf.new ≡ None) }
    ensures too_long_given { OnTooLong result (F.given shelf.new ≡ limit + 1) }
    ensures too_long { OnTooLong result (IfSome (F.rest shelf.old) (λ left.
        limit < vec_len bytes.old + length left)) }
    ensures memory_given { OnMemory result (F.given shelf.new ≤ limit) }
{
    let Ok(n) = shelf.read(piece) else {
        return Err(TakeFault::Read);
    };
    if bytes.len() + n > limit as usize {
        return Err(TakeFault::TooLong);
    }
    match bytes.extend_from_slice(&piece[..n]) {
        Ok(()) => Ok(n),
        Err(_) => Err(TakeFault::Memory),
    }
}

/// Writes all bytes, in their order.
///
/// `Write` comes only where a call on the sink failed; a prefix of the bytes was then written.
/// It takes no memory.
pub fn write_whole<O: Sink>(sink: &mut O, bytes: &[u8]) -> Result<(), PutFault>
    ensures whole { OnOk result (Gains (O.written sink.old) (O.written sink.new) bytes.now) }
    ensures quiet { OnOk result (O.faults sink.new ≡ O.faults sink.old) }
    ensures rose { OnErr result (Rose (O.faults sink.old) (O.faults sink.new)) }
    ensures prefix { OnErr result
        (GainsPrefix (O.written sink.old) (O.written sink.new) bytes.now) }
    ensures empty { length bytes.now ≡ 0 → IsOk result }
{
    let mut at = 0;
    while at < bytes.len() {
        let Ok(n) = sink.write(&bytes[at..]) else {
            return Err(PutFault::Write);
        };
        at += n;
    }
    Ok(())
}
