ghost use Rattle.std.specs.Prelude.{◌≡◌, ◌≤◌, ◌^◌, ◌↔◌, IsNone};
ghost use Rattle.level_range.specs.Signal.{reads};
ghost use Rattle.delay_rule.specs.Delay.{due, switch_value as switch_value_of};
ghost use Rattle.delay_rule.specs.Inertia.{IsPending, IsRetarget, is_pending, pending_after, same_signal, same_conduct};

use crate::choice::pick;
use crate::delays::Delays;
use level_range::{Conduct, Logic, Range, read};

/// A change that is to come: the new value, and the time at which it takes effect.
#[derive(Clone, Copy, Debug, PartialEq, Eq)]
pub struct Pending<V> {
    pub value: V,
    pub at: u64,
}

/// Whether the value is pending.
fn awaits<V: Copy + PartialEq>(pending: &Option<Pending<V>>, value: &V) -> bool
    ensures { result ≡ is_pending V.eq pending.now value.now }
{
    match pending {
        Some(change) => change.value == *value,
        None => false,
    }
}

/// What is pending after a target: an equal pending value keeps its time; else a target equal to
/// the present value leaves nothing pending; else the target is pending for the time `at`.
fn after_target<V: Copy + PartialEq>(
    present: V,
    pending: Option<Pending<V>>,
    target: V,
    at: u64,
) -> Option<Pending<V>>
    ensures { result ≡ pending_after V.eq present pending target at }
{
    if awaits(&pending, &target) {
        pending
    } else if target == present {
        None
    } else {
        Some(Pending { value: target, at })
    }
}

/// What is pending for an output at `now`, after a new target: the delay is that of what the
/// target reads as.
pub fn retarget(
    present: Range,
    pending: Option<Pending<Range>>,
    target: Range,
    now: u64,
    delays: &Delays,
) -> Option<Pending<Range>>
    requires { now ≤ 2 ^ 48 }
    ensures inertia { IsRetarget present pending target (due now delays.now (reads target)) result }
    ensures value { result
        ≡ pending_after same_signal present pending target (due now delays.now (reads target)) }
    ensures none { IsNone result ↔ ((target ≡ present) × ¬ IsPending pending target) }
{
    after_target(
        present,
        pending,
        target,
        now + u64::from(pick(delays, read(target))),
    )
}

/// The value by which a switch chooses its delay.
fn switch_value(target: Conduct) -> Logic
    ensures { result ≡ switch_value_of target }
{
    match target {
        Conduct::On => Logic::One,
        Conduct::Off => Logic::Zero,
        Conduct::Unknown => Logic::X,
    }
}

/// What is pending for a switch at `now`, after a new target: it turns on by the delay to 1, off by
/// that to 0, to unknown by that to x.
pub fn retarget_switch(
    present: Conduct,
    pending: Option<Pending<Conduct>>,
    target: Conduct,
    now: u64,
    delays: &Delays,
) -> Option<Pending<Conduct>>
    requires { now ≤ 2 ^ 48 }
    ensures inertia { IsRetarget present pending target
        (due now delays.now (switch_value_of target)) result }
    ensures value { result
        ≡ pending_after same_conduct present pending target
        (due now delays.now (switch_value_of target)) }
    ensures none { IsNone result ↔ ((target ≡ present) × ¬ IsPending pending target) }
{
    after_target(
        present,
        pending,
        target,
        now + u64::from(pick(delays, switch_value(target))),
    )
}
