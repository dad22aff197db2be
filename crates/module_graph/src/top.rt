//! The module that no module instantiates.
ghost use Rattle.std.specs.Prelude.{◌≡◌, IfOk};
ghost use Rattle.name_table.specs.Names.{index_of};
ghost use Rattle.module_graph.specs.Marks.{AreInstantiated, AreMarked};
ghost use Rattle.module_graph.specs.Reach.{is_module, refers_to};
ghost use Rattle.module_graph.specs.Top.{is_instantiated, last_root};

use crate::marks::{mark, no_marks};
use crate::references::{Master, Reference, ReferenceList};
use byte_lists::Bytes;
use sqlite_items::Items;
use std::alloc::{AllocError, Global};

/// Marks the module that a reference is to.
fn mark_master(marks: &mut Items<bool>, reference: &Reference)
    ensures { AreMarked (λ k. is_module k reference.now.master) marks.old marks.new }
{
    if let Master::Module(module) = reference.master {
        mark(marks, module);
    }
}

/// Marks the modules that the references of one module are to.
fn mark_list(marks: &mut Items<bool>, references: &[Reference])
    ensures { AreMarked (λ k. refers_to k references.now) marks.old marks.new }
{
    for reference in references {
        mark_master(marks, reference);
    }
}

/// Marks the modules that the references of all modules are to.
fn mark_all(marks: &mut Items<bool>, references: &[ReferenceList])
    ensures { AreMarked (λ k. is_instantiated references.now k) marks.old marks.new }
{
    for list in references {
        mark_list(marks, list.as_slice());
    }
}

/// For each module whether some module instantiates it.
fn instantiated(alloc: Global, references: &[ReferenceList]) -> Result<Items<bool>, AllocError>
    ensures { IfOk result (AreInstantiated references.now) }
{
    let mut marks = no_marks(alloc, references.len())?;
    mark_all(&mut marks, references);
    Ok(marks)
}

/// The last module that isn't marked.
fn last_unmarked(references: &[ReferenceList], marks: &[bool]) -> Option<usize>
    requires { AreInstantiated references.now marks.now }
    ensures { result ≡ last_root references.now }
{
    let mut last = None;
    for index in 0..marks.len() {
        if !marks[index] {
            last = Some(index);
        }
    }
    last
}

/// The last module that no module instantiates.
pub(crate) fn last_root(
    alloc: Global,
    references: &[ReferenceList],
) -> Result<Option<usize>, AllocError>
    ensures { IfOk result (λ last. last ≡ last_root references.now) }
{
    let marks = instantiated(alloc, references)?;
    Ok(last_unmarked(references, marks.as_slice()))
}

/// The index of the first name that equals one.
pub(crate) fn first_of(names: &[Bytes], name: &[u8]) -> Option<usize>
    ensures { result ≡ index_of name.now names.now }
{
    for (index, other) in names.iter().enumerate() {
        if name == other.as_slice() {
            return Some(index);
        }
    }
    None
}
