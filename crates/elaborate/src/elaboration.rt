//! Elaboration.
ghost use Rattle.std.specs.Prelude.{◌≡◌, IfErr, IfOk};
ghost use Rattle.elaborate.specs.Refusals.{IsNetlist, IsRefusal};

use crate::choice::Choice;
use crate::fault::{NetFault, rule_fault};
use crate::netlist::netlist_of;
use flat_net::Flat;
use netlist_rules::Rules;
use std::alloc::Global;
use v_tree::File;

/// The flat netlist of a file under a choice of its top and of delays, each cell whole (IEEE 1364-2005, 12).
///
/// Rules 1 to 20 but 15 are judged first, by number, then the limits in their order, then rule 15 on wired
/// nets at bidirectional switches. The first of these that is broken or passed is answered, a rule with
/// the line of its first place in the text. Want of memory may come instead.
///
/// It takes time and memory in proportion to the tokens of the file and to the nets, elements, pins and
/// bytes of names of the netlist.
pub fn elaborate(alloc: Global, file: &File, choice: &Choice) -> Result<Flat, NetFault>
    ensures netlist { IfOk result (λ flat. IsNetlist file.now choice.now flat) }
    ensures refusal { IfErr result (λ fault. IsRefusal file.now choice.now fault) }
{
    let rules = Rules::new(alloc, file, choice.top_name())?;
    match (rules.broken_rule(), rules.scopes.top) {
        (Some(broken), _) => Err(rule_fault(broken)),
        (None, Some(top)) => netlist_of(alloc, file, &rules, choice.delays, top),
        (None, None) => unreachable!(),
    }
}
