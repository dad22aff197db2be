ghost use Rattle.std.specs.Prelude.{◌≡◌, ◌<◌, ◌≤◌, ◌+◌, ◌^◌, length};
ghost use Rattle.logic_tables.specs.Enable.{enable_of, enable_span_of, conduct_of};
ghost use Rattle.logic_tables.specs.declared.kinds.EnableKind.{EnableKind};
ghost use Rattle.level_range.specs.Signal.{reads};
ghost use Rattle.level_range.specs.Reduce.{reduction_of};
ghost use Rattle.flat_net.specs.Elements.{HasPinsOf};
ghost use Rattle.flat_net.specs.Patches.{Fits};
ghost use Rattle.flat_net.specs.declared.kinds.Cell.{Cell};
ghost use Rattle.cell_step.specs.Readings.{AreNetsOf, primitive_at};
ghost use Rattle.cell_step.specs.Elements.{input_signals, input_at, conduction as conduction_of, mos_signal as mos_signal_of, primitive_inputs, primitive_value as primitive_value_of, remember, signal_of_kind as signal_of_kind_of, remember_of_kind, aim_signal as aim_signal_of, aim_switch as aim_switch_of, next_element as next_element_of, element_after};
ghost use Rattle.cell_step.specs.Fitting.{FitsKind, FitsElement, IsKnown};

use crate::gates::{gate_value, read_value};
use crate::pins::{bit_value, read_pin};
use crate::primitives::primitive_value;
use crate::states::ElementState;
use crate::steps::Steps;
use crate::view::View;
use delay_rule::{retarget, retarget_switch};
use flat_net::{Element, ElementKind, Flat, Patch};
use level_range::{Conduct, Logic, Range, maybe, reduce, span};
use logic_tables::{EnableKind, conduct, enable, enable_span};
use std::sync::ledger::Ledger;

/// What a switch conducts with its patch: an open one never conducts, and a closed one always does.
pub(crate) fn conduction(patch: Patch, on: Conduct) -> Conduct
    ensures { result ≡ conduction_of patch on }
{
    match patch {
        Patch::Open => Conduct::Off,
        Patch::Closed => Conduct::On,
        _ => on,
    }
}

/// What a MOS switch passes of its reduced data.
fn mos_signal(on: Conduct, reduced: Range) -> Range
    ensures { result ≡ mos_signal_of on reduced }
{
    match on {
        Conduct::On => reduced,
        Conduct::Off => Range::new(0, 0),
        Conduct::Unknown => maybe(reduced),
    }
}

/// The signal of a MOS switch on what its data and its control read.
fn mos_target<V: View>(on_one: bool, resistive: bool, e: &Element, patch: Patch, view: &V) -> Range
    requires pins { length e.now.ins ≡ 2 }
    requires nets { AreNetsOf (V.netlist view.now).parts e.now.ins }
    ensures { result ≡ mos_signal_of
        (conduction_of patch (conduct_of on_one
        (reads (input_at (input_signals (V.readings view.now) patch e.now) 1))))
        (reduction_of resistive (input_at (input_signals (V.readings view.now) patch e.now) 0)) }
{
    let on = conduction(patch, conduct(on_one, read_value(e, patch, 1, view)));
    mos_signal(on, reduce(read_pin(e, patch, 0, view), resistive))
}

/// The signal of a three-state gate on what its data and its control read.
fn enable_target<V: View>(kind: EnableKind, e: &Element, patch: Patch, view: &V) -> Range
    requires pins { length e.now.ins ≡ 2 }
    requires nets { AreNetsOf (V.netlist view.now).parts e.now.ins }
    requires zero_level { e.now.s0 ≤ 7 }
    requires one_level { e.now.s1 ≤ 7 }
    ensures { result ≡ enable_span_of (enable_of kind
        (reads (input_at (input_signals (V.readings view.now) patch e.now) 0))
        (reads (input_at (input_signals (V.readings view.now) patch e.now) 1)))
        e.now.s0 e.now.s1 }
{
    let data = read_value(e, patch, 0, view);
    let control = read_value(e, patch, 1, view);
    enable_span(enable(kind, data, control), e.s0, e.s1)
}

/// The value of a primitive of the netlist on what its input pins read, and what it remembers.
fn udp_value<V: View>(
    flat: &Flat,
    number: u32,
    e: &Element,
    patch: Patch,
    view: &V,
    state: &mut ElementState,
) -> Logic
    requires pins { HasPinsOf flat.now.parts.udps (ElementKind.Udp number)
        (length e.now.outs) (length e.now.ins) }
    requires nets { AreNetsOf (V.netlist view.now).parts e.now.ins }
    requires seen { length state.old.seen ≡ 10 }
    requires known { IsKnown (primitive_at flat.now.parts number) state.old }
    ensures value { result ≡ primitive_value_of (primitive_at flat.now.parts number) state.old
        (primitive_inputs (input_signals (V.readings view.now) patch e.now)) }
    ensures state { state.new ≡ remember (primitive_at flat.now.parts number)
        (primitive_inputs (input_signals (V.readings view.now) patch e.now)) state.old }
    ensures seen { length state.new.seen ≡ 10 }
    ensures known { IsKnown (primitive_at flat.now.parts number) state.new }
{
    primitive_value(flat.udp(number), e, patch, view, state)
}

/// The signal that an element aims at on what its input pins read. A sequential primitive remembers
/// them.
fn signal_of_kind<V: View>(
    flat: &Flat,
    e: &Element,
    patch: Patch,
    view: &V,
    state: &mut ElementState,
) -> Range
    requires pins { HasPinsOf flat.now.parts.udps e.now.kind
        (length e.now.outs) (length e.now.ins) }
    requires nets { AreNetsOf (V.netlist view.now).parts e.now.ins }
    requires zero_level { e.now.s0 ≤ 7 }
    requires one_level { e.now.s1 ≤ 7 }
    requires seen { length state.old.seen ≡ 10 }
    requires fits { FitsKind flat.now.parts e.now.kind state.old }
    ensures signal { result
        ≡ signal_of_kind_of flat.now.parts e.now.kind e.now.s0 e.now.s1 patch state.old
        (input_signals (V.readings view.now) patch e.now) }
    ensures state { state.new
        ≡ remember_of_kind flat.now.parts e.now.kind
        (input_signals (V.readings view.now) patch e.now) state.old }
    ensures seen { length state.new.seen ≡ 10 }
    ensures fits { FitsKind flat.now.parts e.now.kind state.new }
{
    match e.kind {
        ElementKind::Fold(kind) => span(gate_value(kind, e, patch, view), e.s0, e.s1),
        ElementKind::Enable(kind) => enable_target(kind, e, patch, view),
        ElementKind::Mos { on_one, resistive } => mos_target(on_one, resistive, e, patch, view),
        ElementKind::Udp(number) => {
            span(udp_value(flat, number, e, patch, view, state), e.s0, e.s1)
        }
        ElementKind::Copy => span(read_value(e, patch, 0, view), e.s0, e.s1),
        ElementKind::Constant(value) => span(value, e.s0, e.s1),
        ElementKind::Pull(value) => span(bit_value(value), e.s0, e.s1),
        ElementKind::Tran | ElementKind::Tranif { .. } => Range::new(0, 0),
    }
}

/// A new target for the output of an element.
fn aim_signal(e: &Element, now: u64, target: Range, state: &mut ElementState)
    requires { now ≤ 2 ^ 48 }
    ensures { state.new ≡ aim_signal_of e.now now target state.old }
{
    state.due = retarget(state.out, state.due, target, now, &e.delays);
}

/// A new target for what a switch conducts.
fn aim_switch(e: &Element, now: u64, target: Conduct, state: &mut ElementState)
    requires { now ≤ 2 ^ 48 }
    ensures { state.new ≡ aim_switch_of e.now now target state.old }
{
    state.switch_due = retarget_switch(state.on, state.switch_due, target, now, &e.delays);
}

/// An element on what its input pins read: a switch has a new target for what it conducts, and any
/// other element one for its output.
fn next_element<V: View>(
    flat: &Flat,
    e: &Element,
    patch: Patch,
    state: &mut ElementState,
    view: &V,
    now: u64,
)
    requires time { now ≤ 2 ^ 48 }
    requires pins { HasPinsOf flat.now.parts.udps e.now.kind
        (length e.now.outs) (length e.now.ins) }
    requires nets { AreNetsOf (V.netlist view.now).parts e.now.ins }
    requires zero_level { e.now.s0 ≤ 7 }
    requires one_level { e.now.s1 ≤ 7 }
    requires seen { length state.old.seen ≡ 10 }
    requires fits { FitsKind flat.now.parts e.now.kind state.old }
    ensures state { state.new
        ≡ next_element_of flat.now.parts e.now patch now
        (input_signals (V.readings view.now) patch e.now) state.old }
    ensures seen { length state.new.seen ≡ 10 }
    ensures fits { FitsKind flat.now.parts e.now.kind state.new }
{
    match e.kind {
        ElementKind::Tran => aim_switch(e, now, conduction(patch, Conduct::On), state),
        ElementKind::Tranif { on_one } => {
            let on = conduct(on_one, read_value(e, patch, 0, view));
            aim_switch(e, now, conduction(patch, on), state);
        }
        _ => {
            let target = signal_of_kind(flat, e, patch, view, state);
            aim_signal(e, now, target, state);
        }
    }
}

/// The part of an element in a pass. The state is that of the element with the patch, the view reads
/// for the netlist, and `now` is the tick of the pass.
///
/// What the element aims at on what its input pins read becomes its output, or what a switch
/// conducts, by its delay (IEEE 1364-2005, clause 7); a sequential primitive remembers what it read
/// (8.3).
pub fn element_step<V: View, L: Ledger>(
    flat: &Flat,
    e: u32,
    patch: Patch,
    state: &mut ElementState,
    view: &V,
    now: u64,
    steps: &mut Steps<L>,
)
    requires element { e < length flat.now.parts.elements }
    requires patch { Fits flat.now.parts (Cell.Element e) patch }
    requires state { FitsElement flat.now.parts e state.old }
    requires view { V.netlist view.now ≡ flat.now }
    requires time { now ≤ 2 ^ 48 }
    ensures state { state.new
        ≡ element_after flat.now.parts e patch now (V.readings view.now) state.old }
    ensures fits { FitsElement flat.now.parts e state.new }
    ensures counted { steps.new ≡ steps.old + 1 }
{
    steps.tick();
    prove!(e < flat.element_count());
    next_element(flat, flat.element(e), patch, state, view, now);
}
