//! The flat netlist of a top, or the first limit that it passes.
ghost use Rattle.std.specs.Prelude.{◌≡◌, ◌≢◌, ◌≤◌, ◌<◌, length, IfErr, IfOk, Some, None};
ghost use Rattle.std.specs.List.{All};
ghost use Rattle.chosen_delays.specs.Made.{no_delays};
ghost use Rattle.flat_assembly.specs.Assembly.{flat_parts};
ghost use Rattle.flat_net.specs.Patches.{whole};
ghost use Rattle.flat_net.specs.Soundness.{IsSound, greatest_count};
ghost use Rattle.flattening.specs.Lists.{all_in};
ghost use Rattle.net_islands.specs.Islands.{HasNets};
ghost use Rattle.netlist_laws.specs.Unbroken.{AreUnbroken};
ghost use Rattle.netlist_meaning.specs.Netlist.{first_wired, netlist_parts};
ghost use Rattle.elaborate.specs.declared.fault.NetFault.TheVariants.{Memory};
ghost use Rattle.elaborate.specs.Refusals.{limit_refusal};
ghost use Rattle.elaborate.specs.Rules.{AreRulesOf};
ghost use Rattle.elaborate.specs.Steps.{size_refusal};

use crate::counts::{counts_of, passed_limit};
use crate::fault::{NetFault, wired_fault};
use crate::written::{Written, write_out};
use chosen_delays::{Mtm, no_delays};
use flat_net::Flat;
use hierarchy_plans::part_lists;
use netlist_assembly::Assembly;
use netlist_meaning::NetlistLimit;
use netlist_rules::Rules;
use reached_parts::has_wide_range;
use std::alloc::Global;
use v_tree::File;

/// The refusal of what an assembly adds, by its islands, its delays and its bidirectional switches in this
/// order, where it is refused.
fn refusal_of(assembly: &Assembly, is_long: bool) -> Option<NetFault>
    ensures { result ≡ size_refusal assembly.now is_long }
{
    if assembly.has_large_island() {
        Some(NetFault::Limit(NetlistLimit::Island))
    } else if is_long {
        Some(NetFault::Limit(NetlistLimit::Delay))
    } else {
        assembly.first_wired().map(wired_fault)
    }
}

/// The flat netlist of a hierarchy that is written out, where no island is large, no delay long and no
/// wired net at a bidirectional switch.
fn netlist_with(alloc: Global, written: Written) -> Result<Flat, NetFault>
    requires few_nets { length written.flat.net_names ≤ greatest_count }
    requires few_elements { length written.flat.elements ≤ greatest_count }
    requires elements { All (HasNets (length written.flat.net_names)) written.flat.elements }
    requires resistive { length written.flat.resistive ≡ length written.flat.elements }
    requires sound { first_wired (all_in written.flat) ≡ None → IsSound
        (flat_parts no_delays written.udps written.inputs written.outputs (all_in written.flat)) }
    ensures accepted { IfOk result
        (λ flat. size_refusal (all_in written.flat) written.is_long ≡ None) }
    ensures same { IfOk result (λ flat. flat ≡ whole
        (flat_parts no_delays written.udps written.inputs written.outputs (all_in written.flat))) }
    ensures refusal { IfErr result (λ fault. fault ≢ Memory
        → size_refusal (all_in written.flat) written.is_long ≡ Some fault) }
{
    let Written {
        flat,
        is_long,
        udps,
        inputs,
        outputs,
    } = written;
    let assembly = Assembly::new(alloc, flat)?;
    match refusal_of(&assembly, is_long) {
        Some(fault) => Err(fault),
        None => {
            let parts = assembly.into_parts(alloc, no_delays(), udps, inputs, outputs)?;
            Ok(Flat::new(alloc, parts)?)
        }
    }
}

/// The flat netlist of a top, by the rules on its file, none of which is broken, and the choice of delays;
/// or the first limit that it passes, or else the first wired net at a bidirectional switch. The hierarchy
/// is counted before it is written out.
pub fn netlist_of(
    alloc: Global,
    file: &File,
    rules: &Rules,
    choice: Mtm,
    top: usize,
) -> Result<Flat, NetFault>
    requires rules { AreRulesOf file.now top rules.now }
    requires unbroken { AreUnbroken file.now top }
    requires top { top < length file.now.modules }
    ensures accepted { IfOk result (λ flat. limit_refusal choice file.now top ≡ None) }
    ensures same { IfOk result (λ flat. flat ≡ whole (netlist_parts choice file.now top)) }
    ensures refusal { IfErr result (λ fault. fault ≢ Memory
        → limit_refusal choice file.now top ≡ Some fault) }
{
    if has_wide_range(file.modules.as_slice(), rules.scopes.reached.as_slice()) {
        return Err(NetFault::Limit(NetlistLimit::Width));
    }
    let parts = part_lists(alloc, file, rules)?;
    let counts = counts_of(alloc, file, rules, parts.as_slice(), top)?;
    match passed_limit(counts) {
        Some(limit) => Err(NetFault::Limit(limit)),
        None => {
            let written = write_out(alloc, file, rules, parts.as_slice(), choice, top)?;
            netlist_with(alloc, written)
        }
    }
}
