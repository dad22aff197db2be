//! Terminals and values that break the rule on widths.
ghost use Rattle.std.specs.Prelude.{◌≡◌};
ghost use Rattle.std.specs.List.{flat_map};
ghost use Rattle.rule_places.specs.Places.{first_place};
ghost use Rattle.gate_rules.specs.Rules.{terminal_widths, terms_widths, value_widths, pair_widths, declared_widths, item_widths};

use item_parts::{location_of, unsized_in_concatenation, width_place};
use module_scope::Scope;
use rule_places::earliest;
use v_tree::{DeclaredNames, Expr, Item, Location, Pair, Terms, ValuedName};

/// The place of a terminal, which has to have one bit (IEEE 1364-2005, 7.1.6).
fn terminal_width(scope: &Scope, terminal: &Expr) -> Option<Location>
    ensures { result ≡ first_place (terminal_widths scope.now terminal.now) }
{
    width_place(scope, Some(1), location_of(terminal), terminal)
}

/// The first place among the terminals of a gate, superfluous ones too.
fn terminals_width(scope: &Scope, terminals: &[Expr]) -> Option<Location>
    ensures { result ≡ first_place (flat_map (terminal_widths scope.now) terminals.now) }
{
    let mut first = None;
    for terminal in terminals {
        first = earliest(first, terminal_width(scope, terminal));
    }
    first
}

/// The first place of a gate.
fn terms_width(scope: &Scope, terms: &Terms) -> Option<Location>
    ensures { result ≡ first_place (terms_widths scope.now terms.now) }
{
    terminals_width(scope, terms.terminals.as_slice())
}

/// The first place among gates.
fn gates_width(scope: &Scope, gates: &[Terms]) -> Option<Location>
    ensures { result ≡ first_place (flat_map (terms_widths scope.now) gates.now) }
{
    let mut first = None;
    for terms in gates {
        first = earliest(first, terms_width(scope, terms));
    }
    first
}

/// The first place among values that are assigned to declared names.
fn valued_width(names: &[ValuedName]) -> Option<Location>
    ensures { result ≡ first_place (flat_map value_widths names.now) }
{
    let mut first = None;
    for valued in names {
        first = earliest(first, unsized_in_concatenation(&valued.value));
    }
    first
}

/// The first place among values that are assigned.
fn pairs_width(pairs: &[Pair]) -> Option<Location>
    ensures { result ≡ first_place (flat_map pair_widths pairs.now) }
{
    let mut first = None;
    for pair in pairs {
        first = earliest(first, unsized_in_concatenation(&pair.value));
    }
    first
}

/// The first place in a declaration of nets.
fn declared_width(names: &DeclaredNames) -> Option<Location>
    ensures { result ≡ first_place (declared_widths names.now) }
{
    match names {
        DeclaredNames::Names(_) => None,
        DeclaredNames::Valued(names) => valued_width(names.as_slice()),
    }
}

/// The first place in an item.
fn item_width(scope: &Scope, item: &Item) -> Option<Location>
    ensures { result ≡ first_place (item_widths scope.now item.now) }
{
    match item {
        Item::Nets(decl) => declared_width(&decl.declared_names),
        Item::Assign(assign) => pairs_width(assign.pairs.as_slice()),
        Item::Gates(gates) => gates_width(scope, gates.gates.as_slice()),
        _ => None,
    }
}

/// The first place among items.
pub fn items_width(scope: &Scope, items: &[Item]) -> Option<Location>
    ensures { result ≡ first_place (flat_map (item_widths scope.now) items.now) }
{
    let mut first = None;
    for item in items {
        first = earliest(first, item_width(scope, item));
    }
    first
}
