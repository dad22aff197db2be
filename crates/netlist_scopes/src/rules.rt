//! The rules, and the first of them that is broken.
ghost use Rattle.std.specs.Prelude.{◌≡◌};
ghost use Rattle.std.specs.List.{find};
ghost use Rattle.std.specs.Option.{is_some};
ghost use Rattle.netlist_scopes.specs.Rules.{number_of, broken_of, first_broken};

use v_tree::Location;

/// A rule on netlists.
#[derive(Clone, Copy, Debug, PartialEq, Eq)]
pub enum NetlistRule {
    /// A module or a primitive has the name of an earlier one.
    RepeatedNames,
    /// There is no top.
    AbsentTop,
    /// An instance names neither a module nor a primitive.
    UnknownMasters,
    /// A module contains itself.
    CircularReferences,
    /// The names of a header and the directions don't fit.
    Ports,
    /// A name is declared twice in a module.
    RepeatedDeclarations,
    /// A right side or a select names no net.
    UndeclaredNets,
    /// A select isn't a part of the range of its net.
    Selects,
    /// A terminal or a connection hasn't the width of its place, or a literal without size stands in a
    /// concatenation.
    Widths,
    /// A gate has a wrong number of terminals, or an instance a wrong number or form of connections.
    Counts,
    /// There are more delays than allowed.
    Delays,
    /// A drive isn't right.
    Drives,
    /// A connection is to no port, or to one that is connected already.
    Connections,
    /// A literal stands at an output or at a bidirectional terminal.
    Literals,
    /// The number of inputs or the rows of a primitive aren't right.
    Tables,
    /// The header of a primitive is wrong.
    Headers,
    /// The direction and the net of a port have different ranges.
    Ranges,
    /// The precision of a time scale is greater than its unit.
    CoarsePrecisions,
    /// A name isn't declared where no implicit nets are made.
    ImplicitNets,
}

/// A rule, and the first of the places that break it.
#[derive(Clone, Copy, Debug, PartialEq, Eq)]
pub struct RulePlace {
    pub rule: NetlistRule,
    pub place: Option<Location>,
}

/// A broken rule, and the line of its first place, counted from 1.
#[derive(Clone, Copy, Debug, PartialEq, Eq)]
pub struct BrokenRule {
    pub rule: NetlistRule,
    pub line: u32,
}

impl NetlistRule {
    /// The number of the rule in its message, by which rules are judged in order.
    pub fn number(self) -> u8
        ensures { result ≡ number_of self }
    {
        match self {
            NetlistRule::RepeatedNames => 1,
            NetlistRule::AbsentTop => 2,
            NetlistRule::UnknownMasters => 3,
            NetlistRule::CircularReferences => 4,
            NetlistRule::Ports => 5,
            NetlistRule::RepeatedDeclarations => 6,
            NetlistRule::UndeclaredNets => 7,
            NetlistRule::Selects => 8,
            NetlistRule::Widths => 9,
            NetlistRule::Counts => 10,
            NetlistRule::Delays => 11,
            NetlistRule::Drives => 12,
            NetlistRule::Connections => 13,
            NetlistRule::Literals => 14,
            NetlistRule::Tables => 16,
            NetlistRule::Headers => 17,
            NetlistRule::Ranges => 18,
            NetlistRule::CoarsePrecisions => 19,
            NetlistRule::ImplicitNets => 20,
        }
    }
}

/// The rule with the line of its first place, where it is broken.
fn broken_of(entry: RulePlace) -> Option<BrokenRule>
    ensures { result ≡ broken_of entry }
{
    match entry.place {
        Some(place) => Some(BrokenRule {
            rule: entry.rule,
            line: place.line,
        }),
        None => None,
    }
}

/// The first of these rules that has a place.
fn first_with_place(rules: &[RulePlace]) -> Option<RulePlace>
    ensures { result ≡ find (λ r. is_some r.place) rules.now }
{
    rules.iter().copied().find(|entry| entry.place.is_some())
}

/// The first of these rules that is broken, None where none is.
pub fn first_broken(rules: &[RulePlace]) -> Option<BrokenRule>
    ensures { result ≡ first_broken rules.now }
{
    match first_with_place(rules) {
        Some(entry) => broken_of(entry),
        None => None,
    }
}
