//! Outputs and bidirectional terminals with a literal.
ghost use Rattle.std.specs.Prelude.{◌≡◌, take};
ghost use Rattle.std.specs.List.{flat_map};
ghost use Rattle.rule_places.specs.Places.{first_place};
ghost use Rattle.gate_rules.specs.Rules.{literal_places, terms_literals, item_literals};

use crate::classes::{GateClass, gate_class};
use item_parts::{has_literal, location_of};
use rule_places::earliest;
use v_tree::{Expr, Item, Location, Terms};

/// The first token of a terminal, where it has a literal.
fn literal_place(terminal: &Expr) -> Option<Location>
    ensures { result ≡ first_place (literal_places terminal.now) }
{
    if has_literal(terminal) {
        Some(location_of(terminal))
    } else {
        None
    }
}

/// The first place among terminals.
fn outputs_literal(terminals: &[Expr]) -> Option<Location>
    ensures { result ≡ first_place (flat_map literal_places terminals.now) }
{
    let mut first = None;
    for terminal in terminals {
        first = earliest(first, literal_place(terminal));
    }
    first
}

/// So many terminals at the beginning, or all where there are fewer.
fn beginning(terminals: &[Expr], count: usize) -> &[Expr]
    ensures { result.now ≡ take count terminals.now }
{
    if count < terminals.len() {
        &terminals[..count]
    } else {
        terminals
    }
}

/// The first place among the outputs and bidirectional terminals of a gate.
fn terms_literal(class: GateClass, terms: &Terms) -> Option<Location>
    ensures { result ≡ first_place (terms_literals class terms.now) }
{
    let terminals = terms.terminals.as_slice();
    outputs_literal(beginning(terminals, class.output_count(terminals.len())))
}

/// The first place among gates of a class.
fn gates_literal(class: GateClass, gates: &[Terms]) -> Option<Location>
    ensures { result ≡ first_place (flat_map (terms_literals class) gates.now) }
{
    let mut first = None;
    for terms in gates {
        first = earliest(first, terms_literal(class, terms));
    }
    first
}

/// The first place in an item.
fn item_literal(item: &Item) -> Option<Location>
    ensures { result ≡ first_place (item_literals item.now) }
{
    match item {
        Item::Gates(gates) => gates_literal(gate_class(&gates.kind), gates.gates.as_slice()),
        _ => None,
    }
}

/// The first place among items.
pub fn items_literal(items: &[Item]) -> Option<Location>
    ensures { result ≡ first_place (flat_map item_literals items.now) }
{
    let mut first = None;
    for item in items {
        first = earliest(first, item_literal(item));
    }
    first
}
