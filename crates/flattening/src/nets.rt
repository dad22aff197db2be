//! What the nets of an instance add.
ghost use Rattle.std.specs.Prelude.{◌≡◌, ◌<◌, ◌++◌, map, OnOk};
ghost use Rattle.std.specs.List.{flat_map};
ghost use Rattle.item_parts.specs.Widths.{range_width};
ghost use Rattle.netlist_plan.specs.Additions.{joined};
ghost use Rattle.flattening.specs.Lists.{so_far};
ghost use Rattle.flattening.specs.Spelled.{net_claim, net_claims, net_finds, nets_additions, new_name, new_names, terminal_number};

use crate::delays::ItemDelays;
use crate::finds::push_all_finds;
use crate::lists::Growth;
use crate::names::{bit_index, flat_name};
use crate::places::{Place, is_bound, net_width, number_at, number_of};
use byte_lists::Bytes;
use netlist_plan::{ModulePlan, NetClaim, PlanNet, SwitchTerminal};
use std::alloc::{AllocError, Global};
use v_lexer::ReservedWords;
use v_tree::Location;

/// Adds the name of a bit of a net, by its place from the left, where it isn't connected outside.
fn push_new_name(
    alloc: Global,
    words: &ReservedWords,
    at: &Place,
    net: &PlanNet,
    place: u32,
    names: &mut Vec<Bytes>,
) -> Result<(), AllocError>
    requires { place < range_width net.now.range }
    ensures { OnOk result (names.new.items ≡ names.old.items ++ new_name at.now net.now place) }
{
    if is_bound(at.bound.as_slice(), net, place) {
        return Ok(());
    }
    let index = bit_index(net.range, place);
    names.push(flat_name(alloc, words, at.prefix.as_slice(), &net.name, index)?)?;
    Ok(())
}

/// Adds the names of the bits of a net that aren't connected outside.
fn push_new_names(
    alloc: Global,
    words: &ReservedWords,
    at: &Place,
    net: &PlanNet,
    names: &mut Vec<Bytes>,
) -> Result<(), AllocError>
    ensures { OnOk result (names.new.items ≡ names.old.items ++ new_names at.now net.now) }
{
    for place in 0..net_width(net) {
        push_new_name(alloc, words, at, net, place as u32, names)?;
    }
    Ok(())
}

/// What the declaration of a net says of its bits.
fn net_claim(delays: &ItemDelays, at: &Place, net: &PlanNet) -> NetClaim
    ensures { result ≡ net_claim delays.now at.now net.now }
{
    let of_item = match net.delay {
        Some(item) => Some(delays.of(at.master, Some(item))),
        None => None,
    };
    NetClaim {
        class: net.class,
        delays: of_item,
    }
}

/// Adds what the declaration of a net says of its bits, from the left.
fn push_claims(
    delays: &ItemDelays,
    at: &Place,
    net: &PlanNet,
    claims: &mut Vec<(u32, NetClaim)>,
) -> Result<(), AllocError>
    ensures { OnOk result
        (claims.new.items ≡ claims.old.items ++ net_claims delays.now at.now net.now) }
{
    let claim = net_claim(delays, at, net);
    for place in 0..net_width(net) {
        let number = number_at(at.numbers.as_slice(), net, place as u32);
        claims.push((number, claim))?;
    }
    Ok(())
}

/// Adds the names of new nets of an instance.
fn push_all_names(
    alloc: Global,
    words: &ReservedWords,
    at: &Place,
    nets: &[PlanNet],
    names: &mut Vec<Bytes>,
) -> Result<(), AllocError>
    ensures { OnOk result
        (names.new.items ≡ names.old.items ++ flat_map (new_names at.now) nets.now) }
{
    for net in nets {
        push_new_names(alloc, words, at, net, names)?;
    }
    Ok(())
}

/// Adds what the declarations of the nets of an instance say.
fn push_all_claims(
    delays: &ItemDelays,
    at: &Place,
    nets: &[PlanNet],
    claims: &mut Vec<(u32, NetClaim)>,
) -> Result<(), AllocError>
    ensures { OnOk result
        (claims.new.items ≡ claims.old.items ++ flat_map (net_claims delays.now at.now) nets.now) }
{
    for net in nets {
        push_claims(delays, at, net, claims)?;
    }
    Ok(())
}

/// Adds the nets at the terminals of bidirectional switches of an instance.
fn push_terminals(
    at: &Place,
    terminals: &[SwitchTerminal],
    list: &mut Vec<(u32, Location)>,
) -> Result<(), AllocError>
    ensures { OnOk result
        (list.new.items ≡ list.old.items ++ map (terminal_number at.now) terminals.now) }
{
    for terminal in terminals {
        let number = number_of(at.numbers.as_slice(), u64::from(terminal.bit));
        list.push((number, terminal.location))?;
    }
    Ok(())
}

/// Adds what the nets of an instance add.
pub fn push_nets(
    alloc: Global,
    words: &ReservedWords,
    delays: &ItemDelays,
    at: &Place,
    plan: &ModulePlan,
    to: &mut Growth,
) -> Result<(), AllocError>
    ensures { OnOk result
        (so_far to.new ≡ joined (so_far to.old) (nets_additions delays.now at.now plan.now)) }
{
    let nets = plan.nets.as_slice();
    push_all_names(alloc, words, at, nets, &mut to.net_names)?;
    push_all_claims(delays, at, nets, &mut to.claims)?;
    push_all_finds(alloc, words, at, nets, &mut to.finds)?;
    push_terminals(at, plan.terminals.as_slice(), &mut to.terminals)
}
