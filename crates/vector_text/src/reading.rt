ghost use Rattle.std.specs.Prelude.{◌≡◌, ◌+◌, ◌≤◌, length, IfOk, Some, None, MatchOption};
ghost use Rattle.line_text.specs.Lines.{lines_behind};
ghost use Rattle.vector_text.specs.Text.{outputs_in, body_in, behind_inputs, behind_version, vectors_of};
ghost use Rattle.vector_text.specs.Form.{IsVectors};
ghost use Rattle.vector_text.specs.Lawful.{AreInOrder};
ghost use Rattle.vector_text.specs.Answers.{Reads};

use crate::body::Body;
use crate::fault::VecFault;
use crate::head::{listed_in, version_in};
use crate::said::Version;
use crate::vectors::{VectorLineList, Vectors};
use byte_lists::NameList;
use line_text::next_line;
use std::alloc::{AllocError, Global};

/// What the lines behind the head write out, and the time of the end.
fn body_in(
    alloc: Global,
    version: Version,
    before: u64,
    text: &[u8],
) -> Result<(VectorLineList, u64), VecFault>
    requires { before + length text.now ≤ 16777216 }
    ensures { Reads (λ x. (x.0, x.1)) result (body_in version (lines_behind before text.now)) }
{
    let mut body = Body::new(alloc);
    let mut number = before;
    let mut rest = text;
    while let Some(line) = next_line(number, rest) {
        body = body.read(alloc, version, line.number as u32, line.bytes)?;
        number = line.number;
        rest = line.rest;
    }
    body.finish()
}

/// The names of the outputs, with how many lines then stand before the text and the text, where
/// the first line of a text lists them.
fn outputs_in(
    alloc: Global,
    before: u64,
    text: &[u8],
) -> Result<Option<(NameList, u64, &[u8])>, AllocError>
    requires { before + length text.now ≤ 16777216 }
    ensures { IfOk result (λ found. MatchOption found
        (outputs_in (lines_behind before text.now)
        ≡ record { names = None; line = 0; rest = lines_behind before text.now })
        (λ x. (outputs_in (lines_behind before text.now)
        ≡ record { names = Some x.0; line = x.1; rest = lines_behind x.1 x.2.now })
        × (x.1 + length x.2.now ≤ before + length text.now))) }
{
    if let Some(line) = next_line(before, text)
        && let Some(names) = listed_in(alloc, b"outputs", line.bytes)?
    {
        return Ok(Some((names, line.number, line.rest)));
    }
    Ok(None)
}

/// What the lines behind that of the inputs mean.
fn behind_inputs(
    alloc: Global,
    version: Version,
    inputs: NameList,
    before: u64,
    text: &[u8],
) -> Result<Vectors, VecFault>
    requires { before + length text.now ≤ 16777216 }
    ensures { Reads (λ vectors. vectors) result
        (behind_inputs version inputs before (outputs_in (lines_behind before text.now))) }
{
    let (outputs, outputs_line, number, rest) = match outputs_in(alloc, before, text)? {
        Some((names, number, rest)) => (Some(names), number as u32, number, rest),
        None => (None, 0, before, text),
    };
    let (lines, end) = body_in(alloc, version, number, rest)?;
    Ok(Vectors {
        inputs,
        inputs_line: before as u32,
        outputs,
        outputs_line,
        lines,
        end,
    })
}

/// What the lines behind the first one mean.
fn behind_version(
    alloc: Global,
    version: Version,
    before: u64,
    text: &[u8],
) -> Result<Vectors, VecFault>
    requires { before + length text.now ≤ 16777216 }
    ensures { Reads (λ vectors. vectors) result
        (behind_version version (lines_behind before text.now)) }
{
    let Some(line) = next_line(before, text) else {
        return Err(VecFault::NoEnd);
    };
    match listed_in(alloc, b"inputs", line.bytes)? {
        Some(inputs) => behind_inputs(alloc, version, inputs, line.number, line.rest),
        None => Err(VecFault::BadLine(line.number)),
    }
}

/// Reads a vector text of at most 16 MiB, of either version. The first line with a fault is
/// answered, and in one line a bad line before a limit and that before the order.
pub fn read_vectors(alloc: Global, text: &[u8]) -> Result<Vectors, VecFault>
    requires { length text.now ≤ 16777216 }
    // The result is what the text means, or its first fault.
    ensures exact { Reads (λ vectors. vectors) result (vectors_of text.now) }
    // The text has the form of a vector text, and means what is read.
    ensures form { IfOk result (λ vectors. IsVectors text.now vectors) }
    // The lines of what is read are in order.
    ensures ordered { IfOk result (λ vectors. AreInOrder vectors) }
{
    let Some(line) = next_line(0, text) else {
        return Err(VecFault::NoEnd);
    };
    match version_in(line.bytes) {
        Some(version) => behind_version(alloc, version, line.number, line.rest),
        None => Err(VecFault::BadLine(line.number)),
    }
}
