//! Gates with a wrong number of terminals.
ghost use Rattle.std.specs.Prelude.{◌≡◌};
ghost use Rattle.std.specs.List.{flat_map};
ghost use Rattle.rule_places.specs.Places.{first_place};
ghost use Rattle.gate_rules.specs.Rules.{name_or_paren, terms_counts, item_counts};

use crate::classes::{GateClass, gate_class};
use rule_places::earliest;
use v_tree::{Item, Location, Name, Terms};

/// The name of a gate, or its `(` where it has none.
fn name_or_paren(name: &Option<Name>, paren: Location) -> Location
    ensures { result ≡ name_or_paren name.now paren }
{
    match name {
        Some(name) => name.location,
        None => paren,
    }
}

/// The place of a gate, where its number of terminals is wrong.
fn terms_count(class: GateClass, terms: &Terms) -> Option<Location>
    ensures { result ≡ first_place (terms_counts class terms.now) }
{
    if class.is_terminal_count(terms.terminals.len()) {
        None
    } else {
        Some(name_or_paren(&terms.name, terms.paren))
    }
}

/// The first place among gates of a class.
fn gates_count(class: GateClass, gates: &[Terms]) -> Option<Location>
    ensures { result ≡ first_place (flat_map (terms_counts class) gates.now) }
{
    let mut first = None;
    for terms in gates {
        first = earliest(first, terms_count(class, terms));
    }
    first
}

/// The first place in an item.
fn item_count(item: &Item) -> Option<Location>
    ensures { result ≡ first_place (item_counts item.now) }
{
    match item {
        Item::Gates(gates) => gates_count(gate_class(&gates.kind), gates.gates.as_slice()),
        _ => None,
    }
}

/// The first place among items.
pub fn items_count(items: &[Item]) -> Option<Location>
    ensures { result ≡ first_place (flat_map item_counts items.now) }
{
    let mut first = None;
    for item in items {
        first = earliest(first, item_count(item));
    }
    first
}
