//! The first places of the rules on items.
ghost use Rattle.std.specs.Prelude.{◌≡◌};
ghost use Rattle.instance_rules.specs.Walks.{earliest_places, no_places};

use rule_places::earliest;
use v_tree::Location;

/// The first place of each rule on gates, assignments, declarations and instances, where it is broken;
/// of a module's instances alone, or of all its items.
#[derive(Clone, Copy, Debug, PartialEq, Eq)]
pub struct ItemPlaces {
    /// The first token, the `.` where it is named, of a terminal or connection that hasn't the width of
    /// its place; a literal without size in a concatenation (IEEE 1364-2005, 12.3.9.2 and 5.1.14).
    pub widths: Option<Location>,
    /// The name, else the `(`, of a gate with a wrong number of terminals or of a primitive's instance
    /// that hasn't one connection by place for each port; the `(` of a module's instance without a name
    /// (IEEE 1364-2005, 7.1, 8.6 and 12.1.2).
    pub counts: Option<Location>,
    /// The `#` of too many delays; of a module's instances the `(` of a drive, else the `#` (IEEE
    /// 1364-2005, 7.14 and 8.6).
    pub delays: Option<Location>,
    /// The `(` of a drive that isn't right (IEEE 1364-2005, 7.1.2).
    pub drives: Option<Location>,
    /// The `.` of a named connection of no port, or of a port that an earlier one of its instance
    /// connects; the `(` of more connections by place than ports (IEEE 1364-2005, 12.3.6).
    pub connections: Option<Location>,
    /// The first token, the `.` where it is named, of an output or bidirectional terminal, or of a
    /// connection to an output or inout port, with a literal in it (IEEE 1364-2005, 12.3.9.2).
    pub literals: Option<Location>,
}

/// The places where no rule is broken.
pub fn no_places() -> ItemPlaces
    ensures { result ≡ no_places }
{
    ItemPlaces {
        widths: None,
        counts: None,
        delays: None,
        drives: None,
        connections: None,
        literals: None,
    }
}

/// For each rule the earlier of two places that may be there.
pub fn earliest_places(first: ItemPlaces, second: ItemPlaces) -> ItemPlaces
    ensures { result ≡ earliest_places first second }
{
    ItemPlaces {
        widths: earliest(first.widths, second.widths),
        counts: earliest(first.counts, second.counts),
        delays: earliest(first.delays, second.delays),
        drives: earliest(first.drives, second.drives),
        connections: earliest(first.connections, second.connections),
        literals: earliest(first.literals, second.literals),
    }
}
