//! The two phases of a pass, over the states of all cells.
ghost use Rattle.std.specs.Prelude.{◌≡◌, ◌+◌, ◌<◌, ◌≤◌, ◌^◌, ℕ, length};
ghost use Rattle.cell_step.specs.Fitting.{FitsCell};
ghost use Rattle.flat_net.specs.declared.kinds.Cell.{Cell as AnyCell};
ghost use Rattle.flat_net.specs.declared.parts.Parts.{Parts};
ghost use Rattle.machine.specs.Machine.{cell_count};
ghost use Rattle.machine.specs.Pass.{cell_after};
ghost use Rattle.plain_sim.specs.Lists.{FitEach, AreElements, AreIslands, AreForcedNets, HasRoom, HasRoomForIsland};
ghost use Rattle.plain_sim.specs.Phases.{ripe, islands_after, elements_after};

use crate::views::{ElementView, IslandView};
use cell_step::{Bench, CellState, Steps, View, element_step, island_step, mature};
use flat_net::{Cell, Flat};
use level_range::Range;
use std::sync::ledger::Ledger;

/// Every change of the cells that is due takes effect, and every timer that is due ends.
fn mature_all(cells: &mut [CellState], now: u64)
    ensures states { cells.new ≡ ripe now cells.old }
    ensures fits { (parts : Parts) (cell : ℕ → AnyCell) (count : ℕ)
        → FitEach parts cell count cells.old → FitEach parts cell count cells.new }
{
    for number in 0..cells.len() {
        mature(&mut cells[number], now);
    }
}

/// An island's part in a pass.
fn settle_island<V: View, L: Ledger>(
    flat: &Flat,
    number: u32,
    cell: &mut CellState,
    view: &V,
    now: u64,
    bench: &mut Bench,
    steps: &mut Steps<L>,
)
    requires island { number < length flat.now.parts.islands }
    requires view { V.netlist view.now ≡ flat.now }
    requires time { now ≤ 2 ^ 48 }
    requires fits { FitsCell flat.now.parts (Cell.Island number) cell.old }
    requires room { HasRoomForIsland flat.now.parts bench.old number }
    ensures state { cell.new
        ≡ cell_after flat.now (Cell.Island number) now (V.readings view.now) cell.old }
    ensures fits { FitsCell flat.now.parts (Cell.Island number) cell.new }
    ensures room { bench.new ≡ bench.old }
    ensures counted { steps.new ≡ steps.old + 1 }
{
    let patch = flat.patch(Cell::Island(number));
    match cell {
        CellState::Island(state) => {
            island_step(flat, number, patch, state, view, now, bench, steps)
        }
        CellState::Element(_) => unreachable!(),
    }
}

/// Every island settles from what the elements drive and conduct, and from the inputs in force.
fn settle_islands<L: Ledger>(
    flat: &Flat,
    elements: &[CellState],
    forced: &[Range],
    islands: &mut [CellState],
    now: u64,
    bench: &mut Bench,
    steps: &mut Steps<L>,
)
    requires elements { AreElements flat.now.parts elements.now }
    requires forced { AreForcedNets flat.now.parts forced.now }
    requires islands { AreIslands flat.now.parts islands.old }
    requires time { now ≤ 2 ^ 48 }
    requires room { HasRoom flat.now.parts bench.old }
    ensures states { islands.new ≡ islands_after flat.now now forced.now elements.now islands.old }
    ensures islands { AreIslands flat.now.parts islands.new }
    ensures room { bench.new ≡ bench.old }
    ensures counted { steps.new ≡ steps.old + length flat.now.parts.islands }
{
    let count = flat.island_count();
    let view = IslandView {
        flat,
        elements,
        forced,
    };
    for number in 0..count {
        let cell = &mut islands[number as usize];
        settle_island(flat, number, cell, &view, now, bench, steps);
    }
}

/// An element's part in a pass.
fn evaluate_element<V: View, L: Ledger>(
    flat: &Flat,
    number: u32,
    cell: &mut CellState,
    view: &V,
    now: u64,
    steps: &mut Steps<L>,
)
    requires element { number < length flat.now.parts.elements }
    requires view { V.netlist view.now ≡ flat.now }
    requires time { now ≤ 2 ^ 48 }
    requires fits { FitsCell flat.now.parts (Cell.Element number) cell.old }
    ensures state { cell.new
        ≡ cell_after flat.now (Cell.Element number) now (V.readings view.now) cell.old }
    ensures fits { FitsCell flat.now.parts (Cell.Element number) cell.new }
    ensures counted { steps.new ≡ steps.old + 1 }
{
    let patch = flat.patch(Cell::Element(number));
    match cell {
        CellState::Element(state) => element_step(flat, number, patch, state, view, now, steps),
        CellState::Island(_) => unreachable!(),
    }
}

/// Every element computes its target from the signals that are seen of the nets.
fn evaluate_elements<L: Ledger>(
    flat: &Flat,
    islands: &[CellState],
    elements: &mut [CellState],
    now: u64,
    steps: &mut Steps<L>,
)
    requires islands { AreIslands flat.now.parts islands.now }
    requires elements { AreElements flat.now.parts elements.old }
    requires time { now ≤ 2 ^ 48 }
    ensures states { elements.new ≡ elements_after flat.now now islands.now elements.old }
    ensures elements { AreElements flat.now.parts elements.new }
    ensures counted { steps.new ≡ steps.old + length flat.now.parts.elements }
{
    let count = flat.element_count();
    let view = ElementView { flat, islands };
    for number in 0..count {
        let cell = &mut elements[number as usize];
        evaluate_element(flat, number, cell, &view, now, steps);
    }
}

/// A pass over all cells. What is due takes effect, then the islands settle, and then the elements
/// compute their targets.
pub(crate) fn pass_over<L: Ledger>(
    flat: &Flat,
    elements: &mut [CellState],
    islands: &mut [CellState],
    forced: &[Range],
    now: u64,
    bench: &mut Bench,
    steps: &mut Steps<L>,
)
    requires elements { AreElements flat.now.parts elements.old }
    requires islands { AreIslands flat.now.parts islands.old }
    requires forced { AreForcedNets flat.now.parts forced.now }
    requires time { now ≤ 2 ^ 48 }
    requires room { HasRoom flat.now.parts bench.old }
    ensures islands { islands.new ≡ islands_after flat.now now forced.now
        (ripe now elements.old) (ripe now islands.old) }
    ensures elements { elements.new
        ≡ elements_after flat.now now islands.new (ripe now elements.old) }
    ensures island_fits { AreIslands flat.now.parts islands.new }
    ensures element_fits { AreElements flat.now.parts elements.new }
    ensures room { bench.new ≡ bench.old }
    ensures counted { steps.new ≡ steps.old + cell_count flat.now.parts }
{
    mature_all(elements, now);
    mature_all(islands, now);
    settle_islands(flat, elements, forced, islands, now, bench, steps);
    evaluate_elements(flat, islands, elements, now, steps);
}
