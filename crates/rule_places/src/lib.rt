//! Places of a text at which a rule is broken, and which of them is first.
#![tactic(auto)]

ghost use Rattle.std.specs.Prelude.{◌≡◌};
ghost use Rattle.rule_places.specs.Places.{earlier, earliest, precedes};

use v_tree::Location;

/// Of two places the one with the smaller token, and of two with the same token the first.
pub fn earlier(first: Location, second: Location) -> Location
    ensures { result ≡ earlier first second }
{
    if second.token < first.token {
        second
    } else {
        first
    }
}

/// The earlier of two places that may be there: of one alone that one, and of none none.
pub fn earliest(first: Option<Location>, second: Option<Location>) -> Option<Location>
    ensures { result ≡ earliest first second }
{
    match (first, second) {
        (Some(one), Some(other)) => Some(earlier(one, other)),
        (None, place) | (place, None) => place,
    }
}

/// Whether a place is there and isn't behind another, so that it is the earlier of the two.
pub fn precedes(first: Option<Location>, second: Location) -> bool
    ensures { result ≡ precedes first second }
{
    match first {
        Some(place) => place.token <= second.token,
        None => false,
    }
}

#[cfg(test)]
mod tests;
