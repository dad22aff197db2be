//! The flat names of things in an instance, whose path is given as it is written before them.
ghost use Rattle.std.specs.Prelude.{◌≡◌, ◌<◌, ◌++◌, IfOk, OnOk};
ghost use Rattle.flat_names.specs.Spelling.{index_spelling, own_spelling, part_spelling};
ghost use Rattle.item_parts.specs.Widths.{range_width};
ghost use Rattle.netlist_plan.specs.Flattening.{bit_index, half_name, own_name};
ghost use Rattle.flattening.specs.Spelled.{element_text, spelled_name};

use byte_lists::Bytes;
use flat_names::{push_bit, push_name, push_unnamed};
use netlist_plan::{ElementName, OwnName};
use std::alloc::{AllocError, Global};
use v_lexer::ReservedWords;
use v_tree::RangeBounds;

/// Appends a thing's own name.
fn push_own(text: &mut Vec<u8>, words: &ReservedWords, own: &OwnName) -> Result<(), AllocError>
    ensures { OnOk result (text.new.items ≡ text.old.items ++ own_spelling (own_name own.now)) }
{
    match own {
        OwnName::Written(name) => push_name(text, words, name.as_slice()),
        OwnName::Unnamed(number) => push_unnamed(text, *number),
    }
}

/// Appends the index of a bit, where there is one.
fn push_index(text: &mut Vec<u8>, index: Option<u32>) -> Result<(), AllocError>
    ensures { OnOk result (text.new.items ≡ text.old.items ++ index_spelling index) }
{
    match index {
        Some(index) => push_bit(text, index),
        None => Ok(()),
    }
}

/// The name of a thing, or of a bit of it.
pub fn flat_name(
    alloc: Global,
    words: &ReservedWords,
    prefix: &[u8],
    own: &OwnName,
    index: Option<u32>,
) -> Result<Bytes, AllocError>
    ensures { IfOk result (λ name. name ≡ spelled_name prefix.now (own_name own.now) index) }
{
    let mut text = Vec::from_slice(alloc, prefix)?;
    push_own(&mut text, words, own)?;
    push_index(&mut text, index)?;
    Ok(Bytes::from_vec(text))
}

/// A path and a part of it behind it.
fn longer_prefix(
    alloc: Global,
    words: &ReservedWords,
    prefix: &[u8],
    own: &OwnName,
) -> Result<Vec<u8>, AllocError>
    ensures { IfOk result
        (λ text. text.items ≡ prefix.now ++ part_spelling (own_name own.now)) }
{
    let mut text = Vec::from_slice(alloc, prefix)?;
    push_own(&mut text, words, own)?;
    text.push(b'.')?;
    Ok(text)
}

/// What a half of a complementary switch is inside of it.
fn half_name(on_one: bool) -> &'static [u8]
    ensures { result.now ≡ half_name on_one }
{
    if on_one { b"n" } else { b"p" }
}

/// The name of a half of a complementary switch.
fn half_text(
    alloc: Global,
    words: &ReservedWords,
    prefix: &[u8],
    own: &OwnName,
    on_one: bool,
) -> Result<Bytes, AllocError>
    ensures { IfOk result
        (λ name. name ≡ element_text prefix.now (ElementName.Half own.now on_one)) }
{
    let mut text = longer_prefix(alloc, words, prefix, own)?;
    push_name(&mut text, words, half_name(on_one))?;
    Ok(Bytes::from_vec(text))
}

/// The name of a bit of a thing without name.
fn bit_text(alloc: Global, prefix: &[u8], number: u32, index: u32) -> Result<Bytes, AllocError>
    ensures { IfOk result
        (λ name. name ≡ element_text prefix.now (ElementName.Bit number index)) }
{
    let mut text = Vec::from_slice(alloc, prefix)?;
    push_unnamed(&mut text, number)?;
    push_bit(&mut text, index)?;
    Ok(Bytes::from_vec(text))
}

/// The name of an element.
pub fn element_text(
    alloc: Global,
    words: &ReservedWords,
    prefix: &[u8],
    name: &ElementName,
) -> Result<Bytes, AllocError>
    ensures { IfOk result (λ text. text ≡ element_text prefix.now name.now) }
{
    match name {
        ElementName::Gate(own) => flat_name(alloc, words, prefix, own, None),
        ElementName::Half(own, on_one) => half_text(alloc, words, prefix, own, *on_one),
        ElementName::Bit(number, index) => bit_text(alloc, prefix, *number, *index),
    }
}

/// The index of a bit by its place from the left, where the net is a vector.
pub fn bit_index(range: Option<RangeBounds>, place: u32) -> Option<u32>
    requires { place < range_width range }
    ensures { result ≡ bit_index range place }
{
    match range {
        Some(range) if range.right <= range.left => Some(range.left - place),
        Some(range) => Some(range.left + place),
        None => None,
    }
}
