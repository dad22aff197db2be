//! The times for which something is pending, in a wheel.
ghost use Rattle.std.specs.Prelude.{◌≡◌, ◌≢◌, ◌<◌, ◌≤◌, ◌^◌, ℕ, IfOk, IfSome, length, true};
ghost use Rattle.std.specs.FinMap.{empty, get};
ghost use Rattle.timing_wheel.specs.Wheel.{HasRoomFor};
ghost use Rattle.machine.specs.Pass.{change_times, timer_times, cell_times};
ghost use Rattle.machine.specs.Run.{least};
ghost use Rattle.plain_sim.specs.Lists.{AreElements, AreIslands, HasNets, is_element};
ghost use Rattle.plain_sim.specs.Times.{earlier as earlier_of};
ghost use Rattle.plain_sim.specs.Due.{AreSoon, AreDueTimes, HasElementTimes, HasKeyRoom, HasNetTimes, SetsTime, change_key, timer_key, key_count, room_of};

use crate::views::net_of;
use cell_step::{CellState, Timer};
use delay_rule::Pending;
use flat_net::Flat;
use std::alloc::{AllocError, Global};
use timing_wheel::Wheel;

/// A wheel with room for each element, and for the change and the timer of each net.
pub(crate) fn wheel_for(alloc: Global, flat: &Flat) -> Result<Wheel, AllocError>
    ensures times { IfOk result (λ wheel. wheel.times ≡ empty) }
    ensures room { IfOk result (λ wheel. key_count flat.now.parts ≤ wheel.spare) }
{
    let mut wheel = Wheel::new(alloc);
    wheel.reserve(flat.element_count() + 2 * flat.net_count())?;
    Ok(wheel)
}

/// A key has this time from now on, or is not there.
fn put_or_cancel(wheel: &mut Wheel, key: u32, time: Option<u64>)
    requires room { HasRoomFor wheel.old key }
    requires time { IfSome time (λ at. at < 2 ^ 49) }
    ensures times { SetsTime wheel.old.times wheel.new.times key time }
    ensures room { room_of wheel.new ≡ room_of wheel.old }
{
    match time {
        Some(at) => wheel.put(key, at),
        None => wheel.cancel(key),
    }
}

/// The lesser of two times, of which neither need be there.
fn earlier(a: Option<u64>, b: Option<u64>) -> Option<u64>
    ensures { result ≡ earlier_of a b }
{
    match (a, b) {
        (Some(a), Some(b)) => Some(a.min(b)),
        (Some(a), None) => Some(a),
        (None, _) => b,
    }
}

/// The time of a pending change.
fn change_time<V: Copy>(change: Option<Pending<V>>) -> Option<u64>
    ensures { result ≡ least (change_times change) }
{
    match change {
        Some(change) => Some(change.at),
        None => None,
    }
}

/// The time of a running timer.
fn timer_time(timer: Timer) -> Option<u64>
    ensures { result ≡ least (timer_times timer) }
{
    match timer {
        Timer::Running(at) => Some(at),
        Timer::Idle | Timer::Ended => None,
    }
}

/// The least time for which something is pending in an element.
fn element_time(cell: &CellState) -> Option<u64>
    requires { is_element cell.now ≡ true }
    ensures { result ≡ least (cell_times cell.now) }
{
    match cell {
        CellState::Element(state) => {
            earlier(change_time(state.due), change_time(state.switch_due))
        }
        CellState::Island(_) => unreachable!(),
    }
}

/// Each element has its time in the wheel from now on, and the nets are as before.
fn follow_elements(flat: &Flat, elements: &[CellState], due: &mut Wheel)
    requires elements { AreElements flat.now.parts elements.now }
    requires soon { AreSoon elements.now }
    requires keys { HasKeyRoom (key_count flat.now.parts) due.old }
    ensures times { HasElementTimes flat.now.parts elements.now due.new.times }
    ensures keys { HasKeyRoom (key_count flat.now.parts) due.new }
{
    for number in 0..flat.element_count() {
        put_or_cancel(due, number, element_time(&elements[number as usize]));
    }
}

/// A net has its times in the wheel from now on, and the other keys are as before.
fn follow_net(flat: &Flat, islands: &[CellState], net: u32, due: &mut Wheel)
    requires net { net < length flat.now.parts.nets }
    requires states { HasNets flat.now.parts islands.now }
    requires soon { AreSoon islands.now }
    requires keys { HasKeyRoom (key_count flat.now.parts) due.old }
    ensures times { HasNetTimes flat.now.parts islands.now due.new.times net }
    ensures others { (key : ℕ) → key ≢ change_key flat.now.parts net
        → key ≢ timer_key flat.now.parts net → get due.new.times key ≡ get due.old.times key }
    ensures keys { HasKeyRoom (key_count flat.now.parts) due.new }
{
    let state = net_of(flat, islands, net);
    let change = flat.element_count() + net;
    put_or_cancel(due, change, change_time(state.due));
    put_or_cancel(due, change + flat.net_count(), timer_time(state.timer));
}

/// Each net has its times in the wheel from now on, and the elements are as before.
fn follow_nets(flat: &Flat, islands: &[CellState], due: &mut Wheel)
    requires islands { AreIslands flat.now.parts islands.now }
    requires soon { AreSoon islands.now }
    requires keys { HasKeyRoom (key_count flat.now.parts) due.old }
    ensures times { (net : ℕ) → net < length flat.now.parts.nets
        → HasNetTimes flat.now.parts islands.now due.new.times net }
    ensures elements { (key : ℕ) → key < length flat.now.parts.elements
        → get due.new.times key ≡ get due.old.times key }
    ensures keys { HasKeyRoom (key_count flat.now.parts) due.new }
{
    for net in 0..flat.net_count() {
        follow_net(flat, islands, net, due);
    }
}

/// The wheel has the times for which something is pending in these states. It takes no memory.
pub(crate) fn follow(flat: &Flat, elements: &[CellState], islands: &[CellState], due: &mut Wheel)
    requires elements { AreElements flat.now.parts elements.now }
    requires islands { AreIslands flat.now.parts islands.now }
    requires soon_elements { AreSoon elements.now }
    requires soon_islands { AreSoon islands.now }
    requires keys { HasKeyRoom (key_count flat.now.parts) due.old }
    ensures times { AreDueTimes flat.now.parts elements.now islands.now due.new.times }
    ensures keys { HasKeyRoom (key_count flat.now.parts) due.new }
{
    follow_elements(flat, elements, due);
    follow_nets(flat, islands, due);
}
