//! Islands by a view of their own.
ghost use Rattle.std.specs.Prelude.{◌≡◌, ◌<◌, ◌≤◌, ℕ, true, length, slice_index_or, IfOk};
ghost use Rattle.level_range.specs.Signal.{undriven};
ghost use Rattle.flat_net.specs.Patches.{Fits, FitsIsland as FitsPatch};
ghost use Rattle.cell_step.specs.Readings.{island_at};
ghost use Rattle.cell_step.specs.Fitting.{FitsIsland};
ghost use Rattle.flat_net.specs.declared.parts.Parts.{Parts};
ghost use Rattle.level_range.specs.declared.range.Conduct.{Conduct};
ghost use Rattle.flat_net.specs.declared.kinds.Cell.{Cell};

use super::island_parts::island_parts;
use super::island_rows::{IslandCase, IslandPass, islands};
use cell_step::{
    Bench, CellState, IslandState, NetState, Steps, View, island_step, mature, start_island,
};
use flat_net::{Flat, Island, Patch, sound};
use level_range::{Conduct, Range};
use std::alloc::{AllocError, Global};
use std::marker::Brand;
use std::process::Abort;
use std::sync::ledger::{Blank, Ledger};
use std::test::Fail;

/// What an island reads: drives and conduction by the numbers of elements, inputs by those of nets.
#[derive(Drop)]
struct Driven<'a> {
    flat: &'a Flat,
    drives: &'a [Range],
    on: &'a [Conduct],
    inputs: &'a [Range],
}

impl View for Driven<'_> {
    ghost netlist = { λ v. v.flat.now };

    ghost readings = { λ v. record {
      drive = λ element pin. slice_index_or v.drives.now element undriven;
      conduct = λ element. slice_index_or v.on.now element Conduct.Off;
      seen = λ net. undriven;
      input = λ net. slice_index_or v.inputs.now net undriven;
    } };

    fn drive(&self, element: u32, _pin: u32) -> Range {
        match self.drives.get(element as usize) {
            Some(signal) => *signal,
            None => Range::new(0, 0),
        }
    }

    fn conduct(&self, element: u32) -> Conduct {
        match self.on.get(element as usize) {
            Some(on) => *on,
            None => Conduct::Off,
        }
    }

    fn seen(&self, _net: u32) -> Range {
        Range::new(0, 0)
    }

    fn input(&self, net: u32) -> Range {
        match self.inputs.get(net as usize) {
            Some(signal) => *signal,
            None => Range::new(0, 0),
        }
    }
}

/// Whether a patch fits an island.
fn fits_island(island: &Island, patch: Patch) -> bool
    ensures { result ≡ true → FitsPatch patch island.now }
{
    match patch {
        Patch::Whole => true,
        Patch::NetStuck { net, .. } => island.nets.as_slice().contains(&net),
        _ => false,
    }
}

/// Whether a patch fits the first island of a netlist.
fn fits(flat: &Flat, patch: Patch) -> bool
    ensures { result ≡ true → Fits flat.now.parts (Cell.Island 0) patch }
{
    flat.island_count() > 0 && fits_island(flat.island(0), patch)
}

/// Signals of these bounds.
fn signals(rt: &impl Abort, alloc: Global, bounds: &[(i8, i8)]) -> Result<Vec<Range>, AllocError> {
    let mut signals = Vec::new(alloc);
    for (lo, hi) in bounds {
        assert!(rt; -7 <= *lo && *lo <= *hi && *hi <= 7);
        signals.push(Range::new(*lo, *hi))?;
    }
    Ok(signals)
}

/// What the switches conduct, by the numbers of elements: the drivers come first.
fn conduction(alloc: Global, first: usize, on: &[Conduct]) -> Result<Vec<Conduct>, AllocError> {
    let mut conduction = vec![in alloc; Conduct::Off; first]?;
    conduction.extend_from_slice(on)?;
    Ok(conduction)
}

/// The net of this index is as the row of the pass says.
fn is_as(rt: &impl Abort, state: NetState, pass: &IslandPass, index: usize, n: usize) {
    assert!(rt; index < pass.settled.len() && index < pass.seen.len() && index < pass.due.len());
    assert!(rt; index < pass.charges.len() && index < pass.timers.len());
    let signals = (
        (state.settled.lo, state.settled.hi),
        (state.seen.lo, state.seen.hi),
        (state.charge.lo, state.charge.hi),
    );
    let expected = (pass.settled[index], pass.seen[index], pass.charges[index]);
    assert_eq!(rt; signals, expected, "case {n}");
    assert_eq!(rt; state.timer, pass.timers[index], "case {n}");
    let due = match state.due {
        Some(change) => Some(change.at),
        None => None,
    };
    assert_eq!(rt; due, pass.due[index], "case {n}");
}

/// The nets are as the row of the pass says.
fn are_as(rt: &impl Abort, state: &IslandState, pass: &IslandPass, n: usize) {
    for (index, net) in state.nets.as_slice().iter().enumerate() {
        is_as(rt, *net, pass, index, n);
    }
}

/// The island when what is due at this tick has taken effect.
fn mature_state(rt: &impl Abort, state: IslandState, now: u64) -> IslandState
    ensures { (parts : Parts) (i : ℕ) → FitsIsland parts i state → FitsIsland parts i result }
{
    let mut cell = CellState::Island(state);
    mature(&mut cell, now);
    match cell {
        CellState::Island(island) => island,
        CellState::Element(_) => panic!(rt; "an element"),
    }
}

/// One pass of the island.
fn step<L: Ledger>(
    rt: &impl Abort,
    alloc: Global,
    flat: &Flat,
    case: &IslandCase,
    pass: &IslandPass,
    state: IslandState,
    bench: &mut Bench,
    steps: &mut Steps<L>,
    n: usize,
) -> Result<IslandState, Fail>
    requires island { 0 < length flat.now.parts.islands }
    requires patch { Fits flat.now.parts (Cell.Island 0) case.now.patch }
    requires state { FitsIsland flat.now.parts 0 state }
    requires nets { length (island_at flat.now.parts 0).nets ≤ bench.old.nets }
    requires links { length (island_at flat.now.parts 0).links ≤ bench.old.links }
    ensures fits { IfOk result (FitsIsland flat.now.parts 0) }
    ensures room { bench.new ≡ bench.old }
{
    assert!(rt; pass.now <= 1 << 48);
    let drives = signals(rt, alloc, pass.drives)?;
    let on = conduction(alloc, case.nets.len(), pass.on)?;
    let inputs = signals(rt, alloc, &[pass.input])?;
    let view = Driven {
        flat,
        drives: drives.as_slice(),
        on: on.as_slice(),
        inputs: inputs.as_slice(),
    };
    let mut state = mature_state(rt, state, pass.now);
    island_step(
        flat, 0, case.patch, &mut state, &view, pass.now, bench, steps,
    );
    are_as(rt, &state, pass, n);
    Ok(state)
}

/// A bench with room for the first island of a netlist.
fn bench_for(rt: &impl Abort, alloc: Global, flat: &Flat) -> Result<Bench, AllocError>
    requires island { 0 < length flat.now.parts.islands }
    ensures nets { IfOk result (λ bench. length (island_at flat.now.parts 0).nets ≤ bench.nets) }
    ensures links { IfOk result (λ bench. length (island_at flat.now.parts 0).links ≤ bench.links) }
{
    let island = flat.island(0);
    let nets = island.nets.as_slice().len();
    let links = island.links.as_slice().len();
    assert!(rt; nets <= 3 && links <= 3);
    let mut bench = Bench::new(alloc);
    bench.reserve(nets as u32, links as u32)?;
    Ok(bench)
}

/// The passes of the first island of a netlist.
fn passes<L: Ledger>(
    rt: &impl Abort,
    alloc: Global,
    flat: &Flat,
    case: &IslandCase,
    steps: &mut Steps<L>,
    n: usize,
) -> Result<(), Fail>
    requires island { 0 < length flat.now.parts.islands }
    requires patch { Fits flat.now.parts (Cell.Island 0) case.now.patch }
{
    let mut bench = bench_for(rt, alloc, flat)?;
    let mut state = start_island(alloc, flat, 0)?;
    for pass in case.passes {
        state = step(rt, alloc, flat, case, pass, state, &mut bench, steps, n)?;
    }
    Ok(())
}

/// The passes of a case in its netlist.
fn walk<L: Ledger>(
    rt: &impl Abort,
    alloc: Global,
    case: &IslandCase,
    steps: &mut Steps<L>,
    n: usize,
) -> Result<(), Fail> {
    let parts = island_parts(rt, alloc, case)?;
    assert!(rt; sound(alloc, &parts)?, "case {n}");
    let flat = Flat::new(alloc, parts)?;
    assert!(rt; flat.island_count() > 0);
    assert!(rt; fits(&flat, case.patch), "case {n}");
    passes(rt, alloc, &flat, case, steps, n)
}

/// The passes of all cases.
fn walk_all<L: Ledger>(rt: &impl Abort, alloc: Global, blank: Blank) -> Result<(), Fail>
    requires name { blank.name ≡ L.name }
    requires parts { blank.parts ≡ L.parts }
    requires some { 0 < blank.parts }
{
    let mut steps = Steps::<L>::new(blank);
    for (n, case) in islands().iter().enumerate() {
        walk(rt, alloc, case, &mut steps, n)?;
    }
    Ok(())
}

/// The passes of all cases, with a counter of steps.
fn count_steps(rt: &impl Abort, alloc: Global) -> Result<(), Fail> {
    walk_all::<Brand>(rt, alloc, Blank::new(1))
}

#[test]
fn nets_settle_decay_and_wait(rt: HostRuntime) -> Result<(), Fail> {
    count_steps(&rt, rt.alloc())
}
