//! The rules on the names of modules, over the modules that are reached.
ghost use Rattle.std.specs.Prelude.{◌≡◌, length};
ghost use Rattle.netlist_scopes.specs.Walks.{earliest_places, no_places, places_among, with_scope};

use module_scope::{Scope, ScopePlaces};
use rule_places::earliest;

/// The places where no rule is broken.
fn no_places() -> ScopePlaces
    ensures { result ≡ no_places }
{
    ScopePlaces {
        ports: None,
        repeated: None,
        undeclared: None,
        selects: None,
        ranges: None,
        implicit: None,
    }
}

/// For each rule the earlier of two places that may be there.
fn earliest_places(first: ScopePlaces, second: ScopePlaces) -> ScopePlaces
    ensures { result ≡ earliest_places first second }
{
    ScopePlaces {
        ports: earliest(first.ports, second.ports),
        repeated: earliest(first.repeated, second.repeated),
        undeclared: earliest(first.undeclared, second.undeclared),
        selects: earliest(first.selects, second.selects),
        ranges: earliest(first.ranges, second.ranges),
        implicit: earliest(first.implicit, second.implicit),
    }
}

/// For each rule the earlier of a place and of that in a scope, where its module is reached.
fn with_scope(places: ScopePlaces, is_reached: bool, scope: &Scope) -> ScopePlaces
    ensures { result ≡ with_scope places is_reached scope.now }
{
    if is_reached {
        earliest_places(places, scope.places())
    } else {
        places
    }
}

/// The first place of each rule in the scopes of the modules that are reached.
pub fn places_among(reached: &[bool], scopes: &[Scope]) -> ScopePlaces
    requires { length reached.now ≡ length scopes.now }
    ensures { result ≡ places_among no_places reached.now scopes.now }
{
    let mut places = no_places();
    for i in 0..scopes.len() {
        places = with_scope(places, reached[i], &scopes[i]);
    }
    places
}
