ghost use Rattle.std.specs.Prelude.{◌≡◌, ◌<◌, ℕ, true, length, slice_index_or, IfOk};
ghost use Rattle.level_range.specs.Signal.{undriven};
ghost use Rattle.level_range.specs.declared.range.Conduct.{Conduct};
ghost use Rattle.flat_net.specs.Patches.{Fits, FitsElement as FitsPatch, first_input as first_input_of};
ghost use Rattle.flat_net.specs.declared.kinds.Cell.{Cell};
ghost use Rattle.flat_net.specs.declared.parts.Parts.{Parts};
ghost use Rattle.cell_step.specs.Readings.{IsOutput};
ghost use Rattle.cell_step.specs.Fitting.{FitsElement};

mod copies;
mod gate_rows;
mod island_parts;
mod island_rows;
mod islands;
mod models;
mod netlists;
mod run_rows;
mod switch_rows;

use cell_step::{
    CellState, ElementState, Steps, View, conduct_of, drive_of, element_step, mature, start_element,
};
use flat_net::{Element, ElementKind, Flat, Patch, sound};
use gate_rows::gates;
use level_range::{Conduct, Range};
use models::{Case, Output, Pass};
use netlists::parts_of;
use run_rows::runs;
use std::alloc::{AllocError, Global};
use std::marker::Brand;
use std::process::Abort;
use std::sync::ledger::{Blank, Ledger};
use std::test::Fail;
use switch_rows::switches;

/// What elements of a netlist see: a signal for each of its first nets, else z.
#[derive(Drop)]
struct Seen<'a> {
    flat: &'a Flat,
    signals: &'a [Range],
}

impl View for Seen<'_> {
    ghost netlist = { λ v. v.flat.now };

    ghost readings = { λ v. record {
      drive = λ element pin. undriven;
      conduct = λ element. Conduct.Off;
      seen = λ net. slice_index_or v.signals.now net undriven;
      input = λ net. undriven;
    } };

    fn drive(&self, _element: u32, _pin: u32) -> Range {
        Range::new(0, 0)
    }

    fn conduct(&self, _element: u32) -> Conduct {
        Conduct::Off
    }

    fn seen(&self, net: u32) -> Range {
        match self.signals.get(net as usize) {
            Some(signal) => *signal,
            None => Range::new(0, 0),
        }
    }

    fn input(&self, _net: u32) -> Range {
        Range::new(0, 0)
    }
}

/// The number of the first input pin: inputs follow the ends and the outputs.
fn first_input(e: &Element) -> usize
    ensures { result ≡ first_input_of e.now }
{
    let ends = if e.ends.is_some() { 2 } else { 0 };
    ends + e.outs.as_slice().len()
}

/// Whether a patch fits an element.
fn fits_element(e: &Element, patch: Patch) -> bool
    ensures { result ≡ true → FitsPatch patch e.now }
{
    let ins = e.ins.as_slice().len();
    let outs = e.outs.as_slice().len();
    match patch {
        Patch::Whole => true,
        Patch::NetStuck { .. } => false,
        Patch::InStuck { pin, .. } => {
            let first = first_input(e);
            first <= pin as usize && pin as usize - first < ins
        }
        Patch::OutStuck { pin, .. } => (pin as usize) < outs,
        Patch::Open | Patch::Closed => match e.kind {
            ElementKind::Mos { .. } | ElementKind::Tran | ElementKind::Tranif { .. } => true,
            _ => false,
        },
    }
}

/// Whether a patch fits the first element of a netlist.
fn fits(flat: &Flat, patch: Patch) -> bool
    ensures { result ≡ true → Fits flat.now.parts (Cell.Element 0) patch }
{
    flat.element_count() > 0 && fits_element(flat.element(0), patch)
}

/// Whether the first element of a netlist has an output pin.
fn has_output(flat: &Flat, pin: u32) -> bool
    ensures { result ≡ true → IsOutput flat.now.parts 0 pin }
{
    flat.element_count() > 0 && (pin as usize) < flat.element(0).outs.as_slice().len()
}

/// The element when the changes of this tick have taken effect.
fn mature_state(state: &ElementState, now: u64) -> ElementState
    ensures { (parts : Parts) (number : ℕ) → FitsElement parts number state.now
        → FitsElement parts number result }
{
    let mut cell = CellState::Element(*state);
    mature(&mut cell, now);
    match &cell {
        CellState::Element(after) => *after,
        CellState::Island(_) => *state,
    }
}

/// The tick of the change that is pending.
fn pending(state: &ElementState) -> Option<u64> {
    match (state.due, state.switch_due) {
        (Some(change), _) => Some(change.at),
        (None, Some(change)) => Some(change.at),
        (None, None) => None,
    }
}

/// z for so many nets, and then the signals of the bounds.
fn signals(
    rt: &impl Abort,
    alloc: Global,
    first: usize,
    seen: &[(i8, i8)],
) -> Result<Vec<Range>, AllocError> {
    let mut signals = vec![in alloc; Range::new(0, 0); first]?;
    for (lo, hi) in seen {
        assert!(rt; -7 <= *lo && *lo <= *hi && *hi <= 7);
        signals.push(Range::new(*lo, *hi))?;
    }
    Ok(signals)
}

/// The output of the element.
fn gives(rt: &impl Abort, flat: &Flat, case: &Case, state: &ElementState, output: Output, n: usize)
    requires { Fits flat.now.parts (Cell.Element 0) case.now.patch }
{
    match output {
        Output::Conducts(on) => {
            assert_eq!(rt; conduct_of(case.patch, state), on, "case {n}");
        }
        Output::Drives(lo, hi) => {
            let pin = u32::from(case.pin);
            assert!(rt; has_output(flat, pin));
            let drive = drive_of(flat, 0, case.patch, pin, state);
            assert_eq!(rt; (drive.lo, drive.hi), (lo, hi), "case {n}");
        }
    }
}

/// One pass of the element.
fn step<L: Ledger>(
    rt: &impl Abort,
    alloc: Global,
    flat: &Flat,
    case: &Case,
    pass: &Pass,
    state: &ElementState,
    steps: &mut Steps<L>,
    n: usize,
) -> Result<ElementState, AllocError>
    requires element { 0 < length flat.now.parts.elements }
    requires patch { Fits flat.now.parts (Cell.Element 0) case.now.patch }
    requires state { FitsElement flat.now.parts 0 state.now }
    ensures { IfOk result (FitsElement flat.now.parts 0) }
{
    assert!(rt; pass.now <= 1 << 48);
    let signals = signals(rt, alloc, first_input(flat.element(0)), pass.seen)?;
    let view = Seen {
        flat,
        signals: signals.as_slice(),
    };
    let mut state = mature_state(state, pass.now);
    element_step(flat, 0, case.patch, &mut state, &view, pass.now, steps);
    assert_eq!(rt; pending(&state), pass.pending, "case {n}");
    Ok(mature_state(&state, pass.now))
}

/// The start of the element, and its passes.
fn passes<L: Ledger>(
    rt: &impl Abort,
    alloc: Global,
    flat: &Flat,
    case: &Case,
    steps: &mut Steps<L>,
    n: usize,
) -> Result<(), Fail>
    requires element { 0 < length flat.now.parts.elements }
    requires patch { Fits flat.now.parts (Cell.Element 0) case.now.patch }
{
    let mut state = start_element(flat, 0, case.patch);
    gives(rt, flat, case, &state, case.start, n);
    for pass in case.passes {
        state = step(rt, alloc, flat, case, pass, &state, steps, n)?;
        gives(rt, flat, case, &state, pass.output, n);
    }
    Ok(())
}

/// The passes of a case in its netlist.
fn walk<L: Ledger>(
    rt: &impl Abort,
    alloc: Global,
    case: &Case,
    steps: &mut Steps<L>,
    n: usize,
) -> Result<(), Fail> {
    let parts = parts_of(rt, alloc, &case.model)?;
    assert!(rt; sound(alloc, &parts)?, "case {n}");
    let flat = Flat::new(alloc, parts)?;
    assert!(rt; flat.element_count() > 0);
    assert!(rt; fits(&flat, case.patch), "case {n}");
    passes(rt, alloc, &flat, case, steps, n)
}

/// The passes of all cases.
fn walk_all<L: Ledger>(
    rt: &impl Abort,
    alloc: Global,
    blank: Blank,
    cases: &[Case],
) -> Result<(), Fail>
    requires name { blank.name ≡ L.name }
    requires parts { blank.parts ≡ L.parts }
    requires some { 0 < blank.parts }
{
    let mut steps = Steps::<L>::new(blank);
    for (n, case) in cases.iter().enumerate() {
        walk(rt, alloc, case, &mut steps, n)?;
    }
    Ok(())
}

/// The passes of all cases, with a counter of steps.
fn count_steps(rt: &impl Abort, alloc: Global, cases: &[Case]) -> Result<(), Fail> {
    walk_all::<Brand>(rt, alloc, Blank::new(1), cases)
}

#[test]
fn each_kind_of_element_with_each_patch(rt: HostRuntime) -> Result<(), Fail> {
    count_steps(&rt, rt.alloc(), gates())?;
    count_steps(&rt, rt.alloc(), switches())
}

#[test]
fn delays_and_the_order_of_inputs(rt: HostRuntime) -> Result<(), Fail> {
    count_steps(&rt, rt.alloc(), runs())
}
