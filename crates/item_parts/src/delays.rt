//! How many delays stand behind a `#`.
ghost use Rattle.std.specs.Prelude.{◌≡◌};
ghost use Rattle.rule_places.specs.Places.{first_place};
ghost use Rattle.item_parts.specs.Delays.{delay_count, delay_places};

use v_tree::{Delay, DelaySpec, Location};

/// How many delays there are: one without parentheses, else as many as stand in them (IEEE 1364-2005,
/// 7.14).
pub fn delay_count(spec: &DelaySpec) -> usize
    ensures { result ≡ delay_count spec.now }
{
    match &spec.delay {
        Delay::Amount(_) => 1,
        Delay::Values(values) => values.len(),
    }
}

/// The location of the `#`, where there are more delays than so many.
pub fn delay_place(most: usize, delay: &Option<DelaySpec>) -> Option<Location>
    ensures { result ≡ first_place (delay_places most delay.now) }
{
    match delay {
        Some(spec) if most < delay_count(spec) => Some(spec.location),
        _ => None,
    }
}
