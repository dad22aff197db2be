//! Gates, assignments and declarations with too many delays.
ghost use Rattle.std.specs.Prelude.{◌≡◌};
ghost use Rattle.std.specs.List.{flat_map};
ghost use Rattle.rule_places.specs.Places.{first_place};
ghost use Rattle.gate_rules.specs.Rules.{kind_delays, item_delays};

use crate::classes::{logic_class, switch_class};
use item_parts::delay_place;
use rule_places::earliest;
use v_tree::{GateKind, Item, Location};

/// The place before gates.
fn kind_delay(kind: &GateKind) -> Option<Location>
    ensures { result ≡ first_place (kind_delays kind.now) }
{
    match kind {
        GateKind::Logic(gate, _, delay) => delay_place(logic_class(*gate).most_delays(), delay),
        GateKind::Switch(gate, delay) => delay_place(switch_class(*gate).most_delays(), delay),
        GateKind::Tran(_) | GateKind::Pull(_, _) => None,
    }
}

/// The place in an item: nets and assignments may have three delays (IEEE 1364-2005, 7.14).
fn item_delay(item: &Item) -> Option<Location>
    ensures { result ≡ first_place (item_delays item.now) }
{
    match item {
        Item::Nets(decl) => delay_place(3, &decl.delay),
        Item::Trireg(decl) => delay_place(3, &decl.delay),
        Item::Assign(assign) => delay_place(3, &assign.delay),
        Item::Gates(gates) => kind_delay(&gates.kind),
        _ => None,
    }
}

/// The first place among items.
pub fn items_delay(items: &[Item]) -> Option<Location>
    ensures { result ≡ first_place (flat_map item_delays items.now) }
{
    let mut first = None;
    for item in items {
        first = earliest(first, item_delay(item));
    }
    first
}
