ghost use Rattle.std.specs.Prelude.{◌≡◌, map};
ghost use Rattle.cell_step.specs.Changes.{mature_value as mature_value_of, mature_due as mature_due_of, is_timer_due as is_timer_due_of, decay as decay_of, mature_element as mature_element_of, mature_net as mature_net_of, mature_cell as mature_cell_of};
ghost use Rattle.cell_step.specs.Fitting.{FitsCell};
ghost use Rattle.flat_net.specs.declared.kinds.Cell.{Cell};
ghost use Rattle.flat_net.specs.declared.parts.Parts.{Parts};

use crate::lists::NetStateList;
use crate::states::{CellState, ElementState, NetState, Timer};
use delay_rule::Pending;
use level_range::Range;

/// The value after a change that is due.
fn mature_value<V: Copy>(now: u64, present: V, pending: Option<Pending<V>>) -> V
    ensures { result ≡ mature_value_of now present pending }
{
    match pending {
        Some(change) => {
            if change.at <= now {
                change.value
            } else {
                present
            }
        }
        None => present,
    }
}

/// What is pending after a change that is due.
fn mature_due<V: Copy>(now: u64, pending: Option<Pending<V>>) -> Option<Pending<V>>
    ensures { result ≡ mature_due_of now pending }
{
    match pending {
        Some(change) => { if change.at <= now { None } else { Some(change) } }
        None => None,
    }
}

/// Whether a decay is due.
fn is_timer_due(now: u64, timer: Timer) -> bool
    ensures { result ≡ is_timer_due_of now timer }
{
    match timer {
        Timer::Running(at) => at <= now,
        Timer::Idle | Timer::Ended => false,
    }
}

/// A charge after its decay: its value isn't known.
fn decay(charge: Range) -> Range
    ensures { result ≡ decay_of charge }
{
    let strength = charge.lo.abs();
    Range::new(-strength, strength)
}

/// An element whose changes take effect that are due.
fn mature_element(state: &mut ElementState, now: u64)
    ensures { state.new ≡ mature_element_of now state.old }
{
    let before = *state;
    state.out = mature_value(now, before.out, before.due);
    state.on = mature_value(now, before.on, before.switch_due);
    state.due = mature_due(now, before.due);
    state.switch_due = mature_due(now, before.switch_due);
}

/// A net whose change takes effect and whose timer ends where they are due.
fn mature_net(state: NetState, now: u64) -> NetState
    ensures { result ≡ mature_net_of now state }
{
    let ends = is_timer_due(now, state.timer);
    NetState {
        settled: state.settled,
        seen: mature_value(now, state.seen, state.due),
        due: mature_due(now, state.due),
        charge: if ends {
            decay(state.charge)
        } else {
            state.charge
        },
        timer: if ends { Timer::Ended } else { state.timer },
    }
}

/// The nets of an island, each after what is due of it.
fn mature_nets(nets: &mut NetStateList, now: u64)
    ensures { nets.new ≡ map (mature_net_of now) nets.old }
{
    for place in 0..nets.len() {
        let state = nets.at(place);
        nets.set(place, mature_net(state, now));
    }
}

/// Lets the changes and decays of a cell take effect that are due at `now`: those pending for this
/// tick or an earlier one.
pub fn mature(state: &mut CellState, now: u64)
    ensures state { state.new ≡ mature_cell_of now state.old }
    ensures fits { (parts : Parts) (cell : Cell) → FitsCell parts cell state.old
        → FitsCell parts cell state.new }
{
    match state {
        CellState::Element(element) => mature_element(element, now),
        CellState::Island(island) => mature_nets(&mut island.nets, now),
    }
}
