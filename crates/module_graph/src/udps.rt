//! The primitives that reached modules instantiate.
ghost use Rattle.std.specs.Prelude.{◌≡◌, ◌&&◌, false, slice_index_or, IfOk};
ghost use Rattle.module_graph.specs.Marks.{AreMarked};
ghost use Rattle.module_graph.specs.Reach.{is_udp, is_udp_reached, reached_udps, refers_to_udp};

use crate::marks::{mark, no_marks};
use crate::reach::{ReachedList, is_reached};
use crate::references::{Master, Reference, ReferenceList};
use sqlite_items::Items;
use std::alloc::{AllocError, Global};

/// Marks the primitive that a reference is to.
fn mark_master(marks: &mut Items<bool>, reference: &Reference)
    ensures { AreMarked (λ k. is_udp k reference.now.master) marks.old marks.new }
{
    if let Master::Udp(udp) = reference.master {
        mark(marks, udp);
    }
}

/// Marks the primitives that the references of one module are to.
fn mark_list(marks: &mut Items<bool>, references: &[Reference])
    ensures { AreMarked (λ k. refers_to_udp k references.now) marks.old marks.new }
{
    for reference in references {
        mark_master(marks, reference);
    }
}

/// The same, where the module is reached.
fn mark_reached(marks: &mut Items<bool>, reached: &[bool], module: usize, references: &[Reference])
    ensures { AreMarked (λ k. slice_index_or reached.now «module» false
        && refers_to_udp k references.now) marks.old marks.new }
{
    if is_reached(reached, module) {
        mark_list(marks, references);
    }
}

/// Marks the primitives that the references of reached modules are to.
fn mark_all(marks: &mut Items<bool>, reached: &[bool], references: &[ReferenceList])
    ensures { AreMarked (λ k. is_udp_reached references.now reached.now k) marks.old marks.new }
{
    for (module, list) in references.iter().enumerate() {
        mark_reached(marks, reached, module, list.as_slice());
    }
}

/// For each of so many primitives whether a reached module instantiates it.
pub(crate) fn reached_udps(
    alloc: Global,
    references: &[ReferenceList],
    reached: &[bool],
    count: usize,
) -> Result<ReachedList, AllocError>
    ensures { IfOk result (λ list. list ≡ reached_udps references.now reached.now count) }
{
    let mut marks = no_marks(alloc, count)?;
    mark_all(&mut marks, reached, references);
    Ok(marks)
}
