//! References to neither a module nor a primitive.
ghost use Rattle.std.specs.Prelude.{◌≡◌};
ghost use Rattle.module_graph.specs.Rules.{is_unknown, places_in, reached_places};
ghost use Rattle.rule_places.specs.Places.{first_place, places_where};

use crate::reach::is_reached;
use crate::references::{Master, Reference, ReferenceList};
use rule_places::earliest;
use v_tree::Location;

/// Whether a master is neither a module nor a primitive.
fn is_unknown(master: Master) -> bool
    ensures { result ≡ is_unknown master }
{
    matches!(master, Master::Unknown)
}

/// The first of references to neither a module nor a primitive.
fn unknown_in(references: &[Reference]) -> Option<Location>
    ensures { result ≡
        first_place (places_where (λ r. is_unknown r.master) (λ r. r.location) references.now) }
{
    let mut first = None;
    for reference in references {
        if is_unknown(reference.master) {
            first = earliest(first, Some(reference.location));
        }
    }
    first
}

/// The first of those of a module, where the module is reached.
fn unknown_of(reached: &[bool], module: usize, references: &[Reference]) -> Option<Location>
    ensures { result ≡
        first_place (places_in (λ index r. is_unknown r.master) reached.now («module», references.now)) }
{
    if is_reached(reached, module) {
        unknown_in(references)
    } else {
        None
    }
}

/// The first of those of all modules.
pub(crate) fn first_unknown(references: &[ReferenceList], reached: &[bool]) -> Option<Location>
    ensures { result ≡
        first_place (reached_places (λ index r. is_unknown r.master) references.now reached.now) }
{
    let mut first = None;
    for (module, list) in references.iter().enumerate() {
        first = earliest(first, unknown_of(reached, module, list.as_slice()));
    }
    first
}
