//! The states with which cells start, and the room that their islands need.
ghost use Rattle.std.specs.Prelude.{◌≡◌, ◌<◌, ◌≤◌, ◌^◌, IfOk, length, map};
ghost use Rattle.std.specs.List.{range_with_len};
ghost use Rattle.flat_net.specs.declared.kinds.Cell.{Cell as AnyCell};
ghost use Rattle.machine.specs.Machine.{cell_start};
ghost use Rattle.plain_sim.specs.Lists.{AreElements, AreIslands, HasRoom};

use cell_step::{Bench, CellState, start_element, start_island};
use flat_net::{Cell, Flat};
use std::alloc::{AllocError, Global};

/// The states with which the elements start.
pub(crate) fn start_elements(alloc: Global, flat: &Flat) -> Result<Vec<CellState>, AllocError>
    ensures states { IfOk result (λ v. v.items
        ≡ map (λ number. cell_start flat.now (Cell.Element number))
        (range_with_len 0 (length flat.now.parts.elements))) }
    ensures fits { IfOk result (λ v. AreElements flat.now.parts v.items) }
{
    let mut states = Vec::new(alloc);
    for number in 0..flat.element_count() {
        let patch = flat.patch(Cell::Element(number));
        states.push(CellState::Element(start_element(flat, number, patch)))?;
    }
    Ok(states)
}

/// The states with which the islands start.
pub(crate) fn start_islands(alloc: Global, flat: &Flat) -> Result<Vec<CellState>, AllocError>
    ensures states { IfOk result (λ v. v.items
        ≡ map (λ number. cell_start flat.now (Cell.Island number))
        (range_with_len 0 (length flat.now.parts.islands))) }
    ensures fits { IfOk result (λ v. AreIslands flat.now.parts v.items) }
{
    let mut states = Vec::new(alloc);
    for number in 0..flat.island_count() {
        states.push(CellState::Island(start_island(alloc, flat, number)?))?;
    }
    Ok(states)
}

/// A length as a number of 32 bits. What is longer can't be had.
fn count_of(length: usize) -> Result<u32, AllocError>
    ensures { IfOk result (λ count. count ≡ length) }
{
    match u32::try_from(length) {
        Ok(count) => Ok(count),
        Err(_) => Err(AllocError),
    }
}

/// A bench with room for each island.
pub(crate) fn bench_for(alloc: Global, flat: &Flat) -> Result<Bench, AllocError>
    ensures { IfOk result (λ bench. HasRoom flat.now.parts bench) }
{
    let mut bench = Bench::new(alloc);
    for number in 0..flat.island_count() {
        let island = flat.island(number);
        let nets = count_of(island.nets.as_slice().len())?;
        let links = count_of(island.links.as_slice().len())?;
        bench.reserve(nets, links)?;
    }
    Ok(bench)
}
