//! The first places of the rules on a netlist.
ghost use Rattle.std.specs.Prelude.{◌≡◌};
ghost use Rattle.netlist_scopes.specs.Rules.{early_rules, late_rules, broken_rule};

use crate::rules::{BrokenRule, NetlistRule, RulePlace, first_broken};
use v_tree::Location;

/// The first place of each rule on a netlist under a choice of its top, where it is broken.
#[derive(Clone, Copy, Debug, PartialEq, Eq)]
pub struct NetlistPlaces {
    /// The name of a module or a primitive that an earlier one has (IEEE 1364-2005, 12.1).
    pub repeated_names: Option<Location>,
    /// The beginning of the text, where there is no top.
    pub absent_top: Option<Location>,
    /// In an instance, a name that is neither a module's nor a primitive's.
    pub unknown_masters: Option<Location>,
    /// In an instance, the name of a module from which the instance's own module is reached again.
    pub circular_references: Option<Location>,
    /// A name of a header, or one in a direction, that don't fit (IEEE 1364-2005, 12.3).
    pub ports: Option<Location>,
    /// The later name, where one is declared twice in a module.
    pub repeated: Option<Location>,
    /// The name in a right side or a select that names no net (IEEE 1364-2005, 4.5).
    pub undeclared: Option<Location>,
    /// The name before a select that isn't a part of the net's range (IEEE 1364-2005, 5.2.1).
    pub selects: Option<Location>,
    /// The name in the later of a port's direction and net, where their ranges differ.
    pub ranges: Option<Location>,
    /// A `` `timescale `` whose precision is greater than its unit (IEEE 1364-2005, 19.8).
    pub coarse_precisions: Option<Location>,
    /// The name of no net where no implicit nets are made (IEEE 1364-2005, 19.2).
    pub implicit: Option<Location>,
}

/// A rule with its first place.
fn rule_place(rule: NetlistRule, place: Option<Location>) -> RulePlace
    ensures { result ≡ record { rule = rule; place = place } }
{
    RulePlace { rule, place }
}

impl NetlistPlaces {
    /// The rules with the numbers 1 to 8, in this order.
    pub fn early_rules(&self) -> [RulePlace; 8]
        ensures { result ≡ early_rules self.now }
    {
        [
            rule_place(NetlistRule::RepeatedNames, self.repeated_names),
            rule_place(NetlistRule::AbsentTop, self.absent_top),
            rule_place(NetlistRule::UnknownMasters, self.unknown_masters),
            rule_place(NetlistRule::CircularReferences, self.circular_references),
            rule_place(NetlistRule::Ports, self.ports),
            rule_place(NetlistRule::RepeatedDeclarations, self.repeated),
            rule_place(NetlistRule::UndeclaredNets, self.undeclared),
            rule_place(NetlistRule::Selects, self.selects),
        ]
    }

    /// The rules with the numbers 18 to 20, in this order.
    pub fn late_rules(&self) -> [RulePlace; 3]
        ensures { result ≡ late_rules self.now }
    {
        [
            rule_place(NetlistRule::Ranges, self.ranges),
            rule_place(NetlistRule::CoarsePrecisions, self.coarse_precisions),
            rule_place(NetlistRule::ImplicitNets, self.implicit),
        ]
    }

    /// The broken rule with the lowest number, with the line of its first place. None comes exactly
    /// where no rule is broken.
    pub fn broken_rule(&self) -> Option<BrokenRule>
        ensures { result ≡ broken_rule self.now }
    {
        match first_broken(&self.early_rules()) {
            Some(broken) => Some(broken),
            None => first_broken(&self.late_rules()),
        }
    }
}
