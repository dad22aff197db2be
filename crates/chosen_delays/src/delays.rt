//! The delays of an item.
ghost use Rattle.std.specs.Prelude.{◌≡◌, ◌<◌, ◌^◌, [], ◌∷◌, map, take};
ghost use Rattle.std.specs.Option.{option_map};
ghost use Rattle.chosen_delays.specs.Chosen.{all_or_none, delays_of, value_ticks};
ghost use Rattle.chosen_delays.specs.Made.{delays_from, no_delays};

use crate::amounts::amount_ticks;
use crate::choice::Mtm;
use crate::scale::DelayScale;
use delay_rule::Delays;
use v_tree::{Delay, DelaySpec, DelayValue};

/// The amount that is chosen of a value in ticks, unless it is past the greatest delay.
fn value_ticks(choice: Mtm, scale: DelayScale, value: &DelayValue) -> Option<u32>
    ensures { result ≡ value_ticks choice scale.unit scale.precision scale.tick value.now }
{
    match (value, choice) {
        (DelayValue::One(amount), _)
        | (DelayValue::Three(amount, _, _), Mtm::Min)
        | (DelayValue::Three(_, amount, _), Mtm::Typ)
        | (DelayValue::Three(_, _, amount), Mtm::Max) => amount_ticks(scale, amount),
    }
}

/// No delay.
pub fn no_delays() -> Delays
    ensures { result ≡ no_delays }
{
    Delays {
        count: 0,
        d: [0, 0, 0],
    }
}

/// A delay for all changes.
fn one_delay(all: u32) -> Delays
    requires { all < 2 ^ 31 }
    ensures { result ≡ delays_from (all ∷ []) }
{
    Delays {
        count: 1,
        d: [all, 0, 0],
    }
}

/// Delays of a rise and a fall.
fn two_delays(rise: u32, fall: u32) -> Delays
    requires rise { rise < 2 ^ 31 }
    requires fall { fall < 2 ^ 31 }
    ensures { result ≡ delays_from (rise ∷ fall ∷ []) }
{
    Delays {
        count: 2,
        d: [rise, fall, 0],
    }
}

/// Delays of a rise, a fall and a change to z.
fn three_delays(rise: u32, fall: u32, off: u32) -> Delays
    requires rise { rise < 2 ^ 31 }
    requires fall { fall < 2 ^ 31 }
    requires off { off < 2 ^ 31 }
    ensures { result ≡ delays_from (rise ∷ fall ∷ off ∷ []) }
{
    Delays {
        count: 3,
        d: [rise, fall, off],
    }
}

/// The delays that the first three values give.
fn values_delays(choice: Mtm, scale: DelayScale, values: &[DelayValue]) -> Option<Delays>
    ensures { result ≡ option_map delays_from
        (all_or_none (map (value_ticks choice scale.unit scale.precision scale.tick)
        (take 3 values.now))) }
{
    match values {
        [] => Some(no_delays()),
        [all] => Some(one_delay(value_ticks(choice, scale, all)?)),
        [rise, fall] => Some(two_delays(
            value_ticks(choice, scale, rise)?,
            value_ticks(choice, scale, fall)?,
        )),
        [rise, fall, off, ..] => Some(three_delays(
            value_ticks(choice, scale, rise)?,
            value_ticks(choice, scale, fall)?,
            value_ticks(choice, scale, off)?,
        )),
    }
}

/// The delays of an item in ticks (IEEE 1364-2005, 7.14): none where there is no `#`, and of more than
/// three values the first three. None where one of them is 2^31 ticks or more.
pub fn delays_of(choice: Mtm, scale: DelayScale, spec: &Option<DelaySpec>) -> Option<Delays>
    ensures { result ≡ option_map delays_from
        (delays_of choice scale.unit scale.precision scale.tick spec.now) }
{
    match spec {
        None => Some(no_delays()),
        Some(spec) => match &spec.delay {
            Delay::Amount(amount) => Some(one_delay(amount_ticks(scale, amount)?)),
            Delay::Values(values) => values_delays(choice, scale, values.as_slice()),
        },
    }
}
