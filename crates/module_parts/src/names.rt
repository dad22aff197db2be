//! The names that headers and declarations have.
ghost use Rattle.std.specs.Prelude.{◌≡◌, ◌∷◌, ◌++◌, map, IfOk};
ghost use Rattle.module_ports.specs.Ports.{entry_name, port_names};
ghost use Rattle.module_parts.specs.Parts.{name_text, name_texts};

use byte_lists::{Bytes, NameList};
use std::alloc::{AllocError, Global};
use v_tree::{AnsiEntry, Name, Ports};

/// The text of a name.
pub fn text_of(alloc: Global, name: &Name) -> Result<Bytes, AllocError>
    ensures { IfOk result (λ text. text ≡ name.now.text) }
{
    Ok(Bytes::from_vec(Vec::from_slice(alloc, name.text.as_slice())?))
}

/// The text of a name, where there is one.
pub fn name_text(alloc: Global, name: &Option<Name>) -> Result<Option<Bytes>, AllocError>
    ensures { IfOk result (λ text. text ≡ name_text name.now) }
{
    match name {
        Some(name) => Ok(Some(text_of(alloc, name)?)),
        None => Ok(None),
    }
}

/// The texts of names.
pub fn name_texts(alloc: Global, names: &[Name]) -> Result<NameList, AllocError>
    ensures { IfOk result (λ texts. texts ≡ name_texts names.now) }
{
    let mut texts = Vec::new(alloc);
    for name in names {
        texts.push(text_of(alloc, name)?)?;
    }
    Ok(NameList::from_vec(texts))
}

/// The name of an entry.
fn entry_name(entry: &AnsiEntry) -> &Name
    ensures { result.now ≡ entry_name entry.now }
{
    match entry {
        AnsiEntry::Port(port) => &port.name,
        AnsiEntry::Name(name) => name,
    }
}

/// The text of a name, and those of the entries behind it.
fn entry_texts(alloc: Global, first: &Name, others: &[AnsiEntry]) -> Result<NameList, AllocError>
    ensures { IfOk result (λ texts. texts ≡ name_texts (first.now ∷ map entry_name others.now)) }
{
    let mut texts = Vec::new(alloc);
    texts.push(text_of(alloc, first)?)?;
    for other in others {
        texts.push(text_of(alloc, entry_name(other))?)?;
    }
    Ok(NameList::from_vec(texts))
}

/// The names of the ports in a header.
pub fn port_names(alloc: Global, ports: &Ports) -> Result<NameList, AllocError>
    ensures { IfOk result (λ names. names ≡ port_names ports.now) }
{
    match ports {
        Ports::Absent | Ports::Empty => Ok(NameList::from_vec(Vec::new(alloc))),
        Ports::Names(names) => name_texts(alloc, names.as_slice()),
        Ports::Ansi(first, others) => entry_texts(alloc, &first.name, others.as_slice()),
    }
}
