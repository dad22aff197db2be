//! The flat names of the things of the top module.
ghost use Rattle.std.specs.Prelude.{◌≡◌, map, IfOk};
ghost use Rattle.std.specs.Option.{option_map};
ghost use Rattle.first_netlist.specs.FlatNames.{flat_name};
ghost use Rattle.first_netlist.specs.Form.{named_flat, flat_names};

use byte_lists::Bytes;
use std::alloc::{AllocError, Global};
use v_lexer::ReservedWords;
use v_tree::Name;

/// The name as it is, where it is plain, and else `\`, the name and a space.
#[tactic(auto, unfolding(crate::specs::FlatNames::flat_name))]
pub fn flat_name(alloc: Global, words: &ReservedWords, text: &[u8]) -> Result<Bytes, AllocError>
    ensures { IfOk result (λ name. name ≡ flat_name text.now) }
{
    if words.is_plain(text) {
        return Ok(Bytes::from_vec(Vec::from_slice(alloc, text)?));
    }
    let mut name = Vec::new(alloc);
    name.push(b'\\')?;
    name.extend_from_slice(text)?;
    name.push(b' ')?;
    Ok(Bytes::from_vec(name))
}

/// The flat name of a name, where there is one.
pub fn name_if_there(
    alloc: Global,
    words: &ReservedWords,
    name: &Option<Name>,
) -> Result<Option<Bytes>, AllocError>
    ensures { IfOk result (λ flat. flat ≡ option_map named_flat name.now) }
{
    match name {
        Some(name) => Ok(Some(flat_name(alloc, words, name.text.as_slice())?)),
        None => Ok(None),
    }
}

/// The flat names of the names.
pub fn flat_names(
    alloc: Global,
    words: &ReservedWords,
    names: &[Name],
) -> Result<Vec<Bytes>, AllocError>
    ensures { IfOk result (λ flat. flat.items ≡ flat_names names.now) }
{
    let mut flat = Vec::new(alloc);
    for name in names {
        flat.push(flat_name(alloc, words, name.text.as_slice())?)?;
    }
    Ok(flat)
}
