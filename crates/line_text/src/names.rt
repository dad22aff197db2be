ghost use Rattle.std.specs.Prelude.{◌≡◌, [], ◌∷◌, ◌++◌, IfOk, OnOk, if◌then◌else◌, option_to_list};
ghost use Rattle.line_text.specs.Names.{behind_plain, behind_first, blank_step, byte_step, step_of, names_of};

use crate::fields::is_blank;
use byte_lists::{Bytes, NameList};
use std::alloc::{AllocError, Global};
use std::mem;

/// Where in the names of a line a byte stands.
#[derive(Clone, Copy, Debug, PartialEq, Eq)]
pub enum Place {
    /// In no name.
    Between,
    /// At the first byte of a component, behind a dot.
    Begun,
    /// Inside a plain component.
    Inside,
    /// Inside an escaped component.
    Escaped,
    /// Directly behind the blank that ends an escaped component.
    Closed,
}

/// What a byte is to the names of its line.
#[derive(Clone, Copy, Debug)]
pub struct Step {
    /// A name ends before it.
    pub ends: bool,
    /// The byte that it adds to a name.
    pub byte: Option<u8>,
    /// The place behind it.
    pub place: Place,
}

/// The place behind a byte of a plain component.
fn behind_plain(byte: u8) -> Place
    ensures { result ≡ behind_plain byte }
{
    if byte == b'.' {
        Place::Begun
    } else {
        Place::Inside
    }
}

/// The place behind the first byte of a component.
fn behind_first(byte: u8) -> Place
    ensures { result ≡ behind_first byte }
{
    if byte == b'\\' {
        Place::Escaped
    } else {
        behind_plain(byte)
    }
}

/// What a blank is at a place.
fn blank_step(place: Place) -> Step
    ensures { result ≡ blank_step place }
{
    match place {
        Place::Between => Step {
            ends: false,
            byte: None,
            place: Place::Between,
        },
        Place::Escaped => Step {
            ends: false,
            byte: Some(b' '),
            place: Place::Closed,
        },
        Place::Begun | Place::Inside | Place::Closed => Step {
            ends: true,
            byte: None,
            place: Place::Between,
        },
    }
}

/// What a byte that is no blank is at a place.
fn byte_step(place: Place, byte: u8) -> Step
    ensures { result ≡ byte_step place byte }
{
    let (ends, behind) = match place {
        Place::Between | Place::Begun => (false, behind_first(byte)),
        Place::Inside => (false, behind_plain(byte)),
        Place::Escaped => (false, Place::Escaped),
        Place::Closed if byte == b'.' || byte == b'[' => (false, behind_plain(byte)),
        Place::Closed => (true, behind_first(byte)),
    };
    Step {
        ends,
        byte: Some(byte),
        place: behind,
    }
}

/// What a byte is to the names of its line at a place.
fn step_at(place: Place, byte: u8) -> Step
    ensures { result ≡ step_of place byte }
{
    if is_blank(byte) {
        blank_step(place)
    } else {
        byte_step(place, byte)
    }
}

/// Ends a name where a step says so, and gives the next its byte.
fn take_step(
    alloc: Global,
    names: &mut Vec<Bytes>,
    name: &mut Vec<u8>,
    step: Step,
) -> Result<(), AllocError>
    ensures names { OnOk result
        (names.new.items ≡ (if step.ends then names.old.items ++ name.old.items ∷ []
        else names.old.items)) }
    ensures name { OnOk result
        (name.new.items ≡ (if step.ends then [] else name.old.items)
        ++ option_to_list step.byte) }
{
    if step.ends {
        let ended = mem::replace(name, Vec::new(alloc));
        names.push(Bytes::from_vec(ended))?;
    }
    if let Some(byte) = step.byte {
        name.push(byte)?;
    }
    Ok(())
}

/// The names in a line, whose fields all are names. A backslash at the beginning of a name or behind
/// a dot begins an escaped component (IEEE 1364-2005, 3.7.1). It goes up to the next space or tab or
/// the end of the line, and gets one space there; where `.` or `[` directly follows, the name goes
/// on.
pub fn names_in(alloc: Global, line: &[u8]) -> Result<NameList, AllocError>
    ensures { IfOk result (λ names. names ≡ names_of line.now) }
{
    let mut names = Vec::new(alloc);
    let mut name = Vec::new(alloc);
    let mut place = Place::Between;
    for byte in line {
        let step = step_at(place, *byte);
        take_step(alloc, &mut names, &mut name, step)?;
        place = step.place;
    }
    match place {
        Place::Between => return Ok(NameList::from_vec(names)),
        Place::Escaped => name.push(b' ')?,
        Place::Begun | Place::Inside | Place::Closed => {}
    }
    names.push(Bytes::from_vec(name))?;
    Ok(NameList::from_vec(names))
}
