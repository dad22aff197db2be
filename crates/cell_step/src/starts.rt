ghost use Rattle.std.specs.Prelude.{◌≡◌, ◌≢◌, ◌<◌, ◌≤◌, length, if◌then◌else◌};
ghost use Rattle.level_range.specs.declared.range.Logic.TheVariants.{X, Z};
ghost use Rattle.flat_net.specs.Elements.{HasPinsOf};
ghost use Rattle.flat_net.specs.Patches.{Fits};
ghost use Rattle.flat_net.specs.declared.kinds.Cell.{Cell};
ghost use Rattle.cell_step.specs.Elements.{element_start, start_value as start_value_of, start_signal as start_signal_of, start_conduct as start_conduct_of, start_state as start_state_of};
ghost use Rattle.cell_step.specs.Fitting.{FitsElement};

use crate::elements::conduction;
use crate::pins::bit_value;
use crate::states::ElementState;
use flat_net::{Element, ElementKind, Flat, Patch};
use level_range::{Conduct, Logic, Range, span};
use udp_table::Udp;

/// The value with which a primitive starts: a sequential one has its own.
fn udp_start(udp: &Udp) -> Logic
    ensures value { result ≡ (if udp.now.sequential then udp.now.start else X) }
    ensures known { result ≢ Z }
{
    prove!(udp.inputs() > 0);
    if udp.sequential() {
        udp.start()
    } else {
        Logic::X
    }
}

/// The value with which an element starts.
fn start_value(flat: &Flat, e: &Element) -> Logic
    requires pins { HasPinsOf flat.now.parts.udps e.now.kind
        (length e.now.outs) (length e.now.ins) }
    ensures { result ≡ start_value_of flat.now.parts e.now.kind }
{
    match e.kind {
        ElementKind::Udp(number) => udp_start(flat.udp(number)),
        ElementKind::Constant(value) => value,
        ElementKind::Pull(value) => bit_value(value),
        ElementKind::Tran | ElementKind::Tranif { .. } => Logic::Z,
        _ => Logic::X,
    }
}

/// The signal with which an element starts: x of its strengths, or its own value.
fn start_signal(flat: &Flat, e: &Element) -> Range
    requires pins { HasPinsOf flat.now.parts.udps e.now.kind
        (length e.now.outs) (length e.now.ins) }
    requires zero_level { e.now.s0 ≤ 7 }
    requires one_level { e.now.s1 ≤ 7 }
    ensures { result ≡ start_signal_of flat.now.parts e.now.kind e.now.s0 e.now.s1 }
{
    match e.kind {
        ElementKind::Mos { resistive, .. } => {
            let strength = if resistive { 5 } else { 6 };
            span(Logic::X, strength, strength)
        }
        _ => span(start_value(flat, e), e.s0, e.s1),
    }
}

/// What a switch conducts at the start; any other element conducts nothing.
fn start_conduct(kind: ElementKind, patch: Patch) -> Conduct
    ensures { result ≡ start_conduct_of kind patch }
{
    match kind {
        ElementKind::Tran => conduction(patch, Conduct::On),
        ElementKind::Tranif { .. } => Conduct::Unknown,
        _ => Conduct::Off,
    }
}

/// The state with which a sequential primitive starts; that of any other element is x.
fn start_state(flat: &Flat, e: &Element) -> Logic
    requires pins { HasPinsOf flat.now.parts.udps e.now.kind
        (length e.now.outs) (length e.now.ins) }
    ensures value { result ≡ start_state_of flat.now.parts e.now.kind }
    ensures known { result ≢ Z }
{
    match e.kind {
        ElementKind::Udp(number) => udp_start(flat.udp(number)),
        _ => Logic::X,
    }
}

/// The state with which an element starts: nothing is pending, the output is x of the element's
/// strengths or its own value, and the remembered inputs are x.
pub fn start_element(flat: &Flat, e: u32, patch: Patch) -> ElementState
    requires element { e < length flat.now.parts.elements }
    requires patch { Fits flat.now.parts (Cell.Element e) patch }
    ensures state { result ≡ element_start flat.now.parts e patch }
    ensures fits { FitsElement flat.now.parts e result }
{
    prove!(e < flat.element_count());
    let element = flat.element(e);
    ElementState {
        out: start_signal(flat, element),
        on: start_conduct(element.kind, patch),
        due: None,
        switch_due: None,
        state: start_state(flat, element),
        seen: [Logic::X; 10],
    }
}
