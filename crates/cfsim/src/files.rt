//! The files of a call.

ghost use Rattle.std.specs.Prelude.{◌≡◌, ◌≤◌, ◌⊎◌, Some, Ok, IfOk, IfErr, IfSome, IsTrue};
ghost use Rattle.gate_net.specs.Sound.{IsSound, IsLawful};
ghost use Rattle.name_table.specs.Names.{is_distinct};
ghost use Rattle.outside_io.specs.Outside.{Rose};
ghost use Rattle.cfsim.specs.Answer.{netlist_limit, vectors_limit, netlist_of_file, stimulus_of_file};
ghost use Rattle.cfsim.specs.Refusals.{Tells, OnMemory, OnRead, UnlessRead};

use crate::netlists::netlist_of_text;
use crate::refusal::Refusal;
use first_vectors::read_vectors;
use gate_net::{BuildFault, Netlist, Stimulus};
use outside_io::{Shelf, TakeFault, read_whole};
use std::alloc::Global;

/// The longest netlist, in bytes.
const NETLIST_LIMIT: u64 = 67_108_864;

/// The longest text of vectors, in bytes.
const VECTORS_LIMIT: u64 = 16_777_216;

/// The netlist of a file.
pub fn netlist_of_file<F: Shelf>(
    alloc: Global,
    shelf: &mut F,
    name: &str,
) -> Result<Netlist, Refusal>
    ensures files_stay { F.files shelf.new ≡ F.files shelf.old }
    ensures ok { IfOk result (λ netlist. IfSome (F.files shelf.old) (λ files.
        netlist_of_file (files name.now) ≡ Ok netlist)) }
    ensures sound { IfOk result IsSound }
    ensures distinct { IfOk result (λ netlist. IsTrue (is_distinct netlist.names)) }
    ensures refused { IfErr result (λ refusal. IfSome (F.files shelf.old) (λ files.
        Tells refusal (netlist_of_file (files name.now)))) }
    ensures rose { OnRead result (Rose (F.faults shelf.old) (F.faults shelf.new)) }
    ensures blames { OnRead result (F.blamed shelf.new ≡ name.now) }
    ensures quiet { UnlessRead result (F.faults shelf.new ≡ F.faults shelf.old) }

    // Memory: before the shelf was asked, or in this file, of which at most the limit was read.
    ensures memory { OnMemory result ((shelf.new ≡ shelf.old)
        ⊎ ((F.named shelf.new ≡ Some name.now) × (F.given shelf.new ≤ netlist_limit))) }
{
    match read_whole(alloc, shelf, name, NETLIST_LIMIT) {
        Err(TakeFault::Read) => Err(Refusal::Read),
        Err(TakeFault::TooLong) => Err(Refusal::TooLong),
        Err(TakeFault::Memory) => Err(Refusal::Memory),
        Ok(text) => netlist_of_text(alloc, text),
    }
}

/// The stimulus of a file, for the netlist.
pub fn stimulus_of_file<F: Shelf>(
    alloc: Global,
    shelf: &mut F,
    name: &str,
    netlist: &Netlist,
) -> Result<Stimulus, Refusal>
    requires sound { IsSound netlist.now }
    requires distinct { IsTrue (is_distinct netlist.now.names) }
    ensures files_stay { F.files shelf.new ≡ F.files shelf.old }
    ensures ok { IfOk result (λ stimulus. IfSome (F.files shelf.old) (λ files.
        stimulus_of_file netlist.now (files name.now) ≡ Ok stimulus)) }
    ensures lawful { IfOk result (IsLawful netlist.now) }
    ensures refused { IfErr result (λ refusal. IfSome (F.files shelf.old) (λ files.
        Tells refusal (stimulus_of_file netlist.now (files name.now)))) }
    ensures rose { OnRead result (Rose (F.faults shelf.old) (F.faults shelf.new)) }
    ensures blames { OnRead result (F.blamed shelf.new ≡ name.now) }
    ensures quiet { UnlessRead result (F.faults shelf.new ≡ F.faults shelf.old) }

    // Memory: before the shelf was asked, or in this file, of which at most the limit was read.
    ensures memory { OnMemory result ((shelf.new ≡ shelf.old)
        ⊎ ((F.named shelf.new ≡ Some name.now) × (F.given shelf.new ≤ vectors_limit))) }
{
    match read_whole(alloc, shelf, name, VECTORS_LIMIT) {
        Err(TakeFault::Read) => Err(Refusal::Read),
        Err(TakeFault::TooLong) => Err(Refusal::TooLong),
        Err(TakeFault::Memory) => Err(Refusal::Memory),
        Ok(text) => match read_vectors(alloc, text.as_slice(), netlist) {
            Ok(stimulus) => Ok(stimulus),
            Err(BuildFault::Memory) => Err(Refusal::Memory),
            Err(BuildFault::Unbuilt) => Err(Refusal::Unbuilt),
        },
    }
}
