//! The modules that a module leads to.
ghost use Rattle.std.specs.Prelude.{◌≡◌, [], ◌∷◌, false, slice_index_or, IfOk, OnOk};
ghost use Rattle.module_graph.specs.Reach.{reached_modules};
ghost use Rattle.module_graph.specs.Searches.{Found, Followed, IsStart};

use crate::marks::no_marks;
use crate::references::{Master, Reference, ReferenceList};
use sqlite_items::Items;
use std::alloc::{AllocError, Global};

/// For each module whether it is reached.
pub type ReachedList = Items<bool>;

/// Modules that were found, and those of them whose references have still to be followed.
#[derive(Drop)]
struct Search {
    reached: Items<bool>,
    waiting: Items<usize>,
}

/// A search among so many modules, of which none is found.
fn start(alloc: Global, count: usize) -> Result<Search, AllocError>
    ensures { IfOk result (IsStart count) }
{
    Ok(Search {
        reached: no_marks(alloc, count)?,
        waiting: Items::new(alloc),
    })
}

/// Finds a module, where it is there and wasn't found before.
fn find(search: &mut Search, module: usize) -> Result<(), AllocError>
    ensures { OnOk result (Found «module» search.old search.new) }
{
    if module < search.reached.len() && !search.reached.as_slice()[module] {
        search.reached.set(module, true);
        search.waiting.push(module)?;
    }
    Ok(())
}

/// Finds the module that a reference is to.
fn find_master(search: &mut Search, reference: &Reference) -> Result<(), AllocError>
    ensures { OnOk result (Followed (reference.now ∷ []) search.old search.new) }
{
    match reference.master {
        Master::Module(module) => find(search, module),
        Master::Udp(_) | Master::Unknown => Ok(()),
    }
}

/// Finds the modules that references are to.
fn follow(search: &mut Search, references: &[Reference]) -> Result<(), AllocError>
    ensures { OnOk result (Followed references.now search.old search.new) }
{
    for reference in references {
        find_master(search, reference)?;
    }
    Ok(())
}

/// For each module whether it is the top or the top leads to it.
pub(crate) fn reached_from(
    alloc: Global,
    references: &[ReferenceList],
    top: usize,
) -> Result<ReachedList, AllocError>
    ensures { IfOk result (λ reached. reached ≡ reached_modules references.now top) }
{
    let mut search = start(alloc, references.len())?;
    find(&mut search, top)?;
    while let Some(module) = search.waiting.pop() {
        follow(&mut search, references[module].as_slice())?;
    }
    Ok(search.reached)
}

/// Whether a module is reached.
pub(crate) fn is_reached(reached: &[bool], module: usize) -> bool
    ensures { result ≡ slice_index_or reached.now «module» false }
{
    module < reached.len() && reached[module]
}
