//! The delays of the items of a module.
ghost use Rattle.std.specs.Prelude.{◌≡◌, map, IfOk};
ghost use Rattle.std.specs.Option.{option_map};
ghost use Rattle.chosen_delays.specs.Chosen.{delays_of};
ghost use Rattle.chosen_delays.specs.Made.{delays_from};
ghost use Rattle.item_delays.specs.Scaled.{has_long_item, scaled_delays, scaled_ticks};
ghost use Rattle.netlist_meaning.specs.Delays.{gate_delay};

use chosen_delays::{DelayScale, Mtm, delays_of, no_delays};
use delay_rule::Delays;
use flattening::DelayList;
use list_of::ListOf;
use std::alloc::{AllocError, Global};
use v_tree::{GateKind, Item};

/// The delays of gates, None where one of them is past the greatest.
fn gate_ticks(choice: Mtm, scale: DelayScale, kind: &GateKind) -> Option<Delays>
    ensures { result ≡ option_map delays_from
        (delays_of choice scale.unit scale.precision scale.tick (gate_delay kind.now)) }
{
    match kind {
        GateKind::Logic(_, _, delay) | GateKind::Switch(_, delay) => {
            delays_of(choice, scale, delay)
        }
        GateKind::Tran(_) | GateKind::Pull(_, _) => Some(no_delays()),
    }
}

/// The delays of an item, None where one of them is past the greatest.
fn item_ticks(choice: Mtm, scale: DelayScale, item: &Item) -> Option<Delays>
    ensures { result ≡ option_map delays_from (scaled_ticks choice scale item.now) }
{
    match item {
        Item::Nets(nets) => delays_of(choice, scale, &nets.delay),
        Item::Trireg(nets) => delays_of(choice, scale, &nets.delay),
        Item::Assign(assign) => delays_of(choice, scale, &assign.delay),
        Item::Gates(gates) => gate_ticks(choice, scale, &gates.kind),
        Item::Instances(instances) => delays_of(choice, scale, &instances.delay),
        Item::Ports(_) | Item::Cell(_) | Item::Specify(_) => Some(no_delays()),
    }
}

/// The delays of a module's items by their indexes, where an item one of whose delays is past the
/// greatest has none, and whether there is such an item.
pub fn module_delays(
    alloc: Global,
    choice: Mtm,
    scale: DelayScale,
    items: &[Item],
) -> Result<(DelayList, bool), AllocError>
    ensures delays { IfOk result (λ made. made.0 ≡ map (scaled_delays choice scale) items.now) }
    ensures is_long { IfOk result (λ made. made.1 ≡ has_long_item choice scale items.now) }
{
    let mut delays = Vec::new(alloc);
    let mut is_long = false;
    for item in items {
        let ticks = item_ticks(choice, scale, item);
        delays.push(ticks.unwrap_or(no_delays()))?;
        is_long = is_long || ticks.is_none();
    }
    Ok((ListOf::from_vec(delays), is_long))
}
