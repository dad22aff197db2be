//! The first places of the rules.
ghost use Rattle.std.specs.Prelude.{◌≡◌, ◌<◌, length, IfOk};
ghost use Rattle.std.specs.List.{All};
ghost use Rattle.module_scope.specs.Occurrences.{occurrences_places};
ghost use Rattle.module_scope.specs.Summaries.{summaries_of, summary_breaks, first_more, places_more};

use crate::mentions::Occurrence;
use crate::rules::{NameRule, breaks};
use crate::summaries::{Summary, no_summaries};
use rule_places::earliest;
use std::alloc::{AllocError, Global};
use v_tree::Location;

/// The first place of each rule on the names of a module, where it is broken. Each is the location of
/// a name.
#[derive(Clone, Copy, Debug, PartialEq, Eq)]
pub struct ScopePlaces {
    /// A header name that stands twice, at its second entry; a header name without a direction or with
    /// several; a direction that names no header name.
    pub ports: Option<Location>,
    /// The later of two declarations of a name among nets, implicit nets and instances. A direction
    /// without a net type and a declaration of its net together are one.
    pub repeated: Option<Location>,
    /// The right side of an assignment, or a select, of a name that is neither declared nor an
    /// implicit net made before.
    pub undeclared: Option<Location>,
    /// A select of a scalar, outside the range, or against its direction.
    pub selects: Option<Location>,
    /// The later of a port's direction and its declaration as a net, where their ranges differ.
    pub ranges: Option<Location>,
    /// Where no implicit nets are made, a terminal, a connection or a target of a name that isn't
    /// declared.
    pub implicit: Option<Location>,
}

/// The first place of a rule, when one more occurrence has come: by the summary of all the roles of
/// its name, and by that of those before it.
fn first_more(
    rule: NameRule,
    makes: bool,
    all: &Summary,
    before: &Summary,
    occurrence: &Occurrence,
    first: Option<Location>,
) -> Option<Location>
    ensures { result ≡ first_more (summary_breaks rule makes all.now before.now occurrence.now.role)
        first occurrence.now.location }
{
    if breaks(rule, makes, all, before, occurrence.role) {
        earliest(first, Some(occurrence.location))
    } else {
        first
    }
}

/// The first place of each rule, when one more occurrence has come.
fn places_more(
    makes: bool,
    all: &Summary,
    before: &Summary,
    occurrence: &Occurrence,
    places: ScopePlaces,
) -> ScopePlaces
    ensures { result ≡ places_more makes all.now before.now occurrence.now places }
{
    let more = |rule: NameRule, first: Option<Location>| {
        first_more(rule, makes, all, before, occurrence, first)
    };
    ScopePlaces {
        ports: more(NameRule::Ports, places.ports),
        repeated: more(NameRule::Repeated, places.repeated),
        undeclared: more(NameRule::Undeclared, places.undeclared),
        selects: more(NameRule::Selects, places.selects),
        ranges: more(NameRule::Ranges, places.ranges),
        implicit: more(NameRule::Implicit, places.implicit),
    }
}

/// The first place of each rule. `all` are the summaries of all roles, by the index of the name, and
/// `makes` says whether implicit nets are made.
pub fn first_places(
    alloc: Global,
    makes: bool,
    all: &[Summary],
    occurrences: &[Occurrence],
) -> Result<ScopePlaces, AllocError>
    requires within { All (λ o. o.name < length all.now) occurrences.now }
    requires all { all.now ≡ summaries_of (length all.now) occurrences.now }
    ensures { IfOk result (λ places. places ≡ occurrences_places makes occurrences.now) }
{
    let mut before = no_summaries(alloc, all.len())?;
    let mut places = ScopePlaces {
        ports: None,
        repeated: None,
        undeclared: None,
        selects: None,
        ranges: None,
        implicit: None,
    };
    for occurrence in occurrences {
        let seen = before[occurrence.name];
        places = places_more(makes, &all[occurrence.name], &seen, occurrence, places);
        before[occurrence.name] = seen.with_role(occurrence.role);
    }
    Ok(places)
}
