//! All rules on a file that are judged before the limits.
ghost use Rattle.std.specs.Prelude.{◌≡◌, length, map, IfOk, ◌++◌};
ghost use Rattle.std.specs.Option.{option_copied};
ghost use Rattle.module_graph.specs.Graph.{graph_of};
ghost use Rattle.netlist_scopes.specs.Reached.{scope_under};
ghost use Rattle.netlist_scopes.specs.Rules.{first_broken};
ghost use Rattle.netlist_rules.specs.Rules.{IsAnswer, all_rules, broken_rule, middle_rules, rules_of, rules_with, udps_reached};
ghost use Rattle.primitive_rules.specs.Places.{primitive_places};

use crate::reached::item_places;
use crate::tables::{PortTableList, port_counts, port_tables};
use instance_rules::ItemPlaces;
use netlist_scopes::{BrokenRule, NetlistRule, RulePlace, Scopes, first_broken};
use primitive_rules::PrimitivePlaces;
use std::alloc::{AllocError, Global};
use v_tree::{File, Location};

/// What was made of a netlist text to judge it: its scopes under a choice of the top, the ports of its
/// modules, and the first places of the rules on items and on primitives, over what the top reaches.
#[derive(Drop)]
pub struct Rules {
    pub scopes: Scopes,
    pub tables: PortTableList,
    pub items: ItemPlaces,
    pub primitives: PrimitivePlaces,
}

/// A rule with its first place.
fn rule_place(rule: NetlistRule, place: Option<Location>) -> RulePlace
    ensures { result ≡ record { rule = rule; place = place } }
{
    RulePlace { rule, place }
}

/// The first place of each rule on the primitives that are reached.
fn primitive_places(
    alloc: Global,
    file: &File,
    scopes: &Scopes,
) -> Result<PrimitivePlaces, AllocError>
    ensures { IfOk result (λ places. places ≡ primitive_places
        (udps_reached file.now scopes.now.graph scopes.now.reached) file.now.udps) }
{
    let udps = file.udps.as_slice();
    let reached = scopes
        .graph
        .reached_udps(alloc, scopes.reached.as_slice(), udps.len())?;
    PrimitivePlaces::new(alloc, reached.as_slice(), udps)
}

/// The rules, given the scopes.
fn rules_with(alloc: Global, file: &File, scopes: Scopes) -> Result<Rules, AllocError>
    requires scopes { scopes.scopes ≡ map (scope_under file.now.directives) file.now.modules }
    requires graph { scopes.graph ≡ graph_of file.now.modules file.now.udps }
    requires reached { length scopes.reached ≡ length file.now.modules }
    ensures { IfOk result (λ rules. rules ≡ rules_with file.now scopes) }
{
    let (modules, directives) = (file.modules.as_slice(), file.directives.as_slice());
    let tables = port_tables(alloc, directives, modules, scopes.scopes.as_slice())?;
    let counts = port_counts(alloc, file.udps.as_slice())?;
    let items = item_places(alloc, file, &scopes, tables.as_slice(), &counts)?;
    let primitives = primitive_places(alloc, file, &scopes)?;
    Ok(Rules {
        scopes,
        tables,
        items,
        primitives,
    })
}

impl Rules {
    /// The rules on a file under a choice of its top, by the top's name as a module has it; without a
    /// choice the top is the last module in the text that no module instantiates.
    pub fn new(alloc: Global, file: &File, choice: Option<&[u8]>) -> Result<Rules, AllocError>
        ensures rules { IfOk result (λ rules.
            rules ≡ rules_of file.now (option_copied choice.entry)) }
        ensures answer { IfOk result (λ rules.
            IsAnswer (all_rules file.now (option_copied choice.entry)) (broken_rule rules)) }
    {
        let scopes = Scopes::new(alloc, file, choice)?;
        rules_with(alloc, file, scopes)
    }

    /// The rules with the numbers 9 to 17, in this order; 15 is judged of the flat netlist.
    fn middle_rules(&self) -> [RulePlace; 8]
        ensures { result ≡ middle_rules self.now }
    {
        [
            rule_place(NetlistRule::Widths, self.items.widths),
            rule_place(NetlistRule::Counts, self.items.counts),
            rule_place(NetlistRule::Delays, self.items.delays),
            rule_place(NetlistRule::Drives, self.items.drives),
            rule_place(NetlistRule::Connections, self.items.connections),
            rule_place(NetlistRule::Literals, self.items.literals),
            rule_place(NetlistRule::Tables, self.primitives.tables),
            rule_place(NetlistRule::Headers, self.primitives.headers),
        ]
    }

    /// The broken rule with the lowest number, with the line of its first place. None comes exactly
    /// where no rule is broken.
    pub fn broken_rule(&self) -> Option<BrokenRule>
        ensures { result ≡ broken_rule self.now }
    {
        let places = self.scopes.places();
        let early = first_broken(&places.early_rules());
        let middle = first_broken(&self.middle_rules());
        let late = first_broken(&places.late_rules());
        early.or(middle).or(late)
    }
}
