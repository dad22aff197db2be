//! Expressions that don't fit the width of their place.
ghost use Rattle.std.specs.Prelude.{◌≡◌};
ghost use Rattle.rule_places.specs.Places.{first_place};
ghost use Rattle.item_parts.specs.Widths.{expr_width};
ghost use Rattle.item_parts.specs.Misfits.{misfits, width_places};

use crate::literals::unsized_in_concatenation;
use crate::widths::expr_width;
use module_scope::Scope;
use v_tree::{Expr, Location};

/// The given location, where a place has a width to keep and the expression has another width.
fn misfit(scope: &Scope, wanted: Option<u64>, location: Location, expr: &Expr) -> Option<Location>
    ensures { result ≡ first_place (misfits wanted location (expr_width scope.now expr.now)) }
{
    match (wanted, expr_width(scope, expr)) {
        (Some(wanted), Some(width)) if width != u128::from(wanted) => Some(location),
        _ => None,
    }
}

/// The first place at which an expression breaks the rule on widths in a place of this width, or of
/// none to keep: a literal without size in a concatenation, else the given location where the width is
/// another (IEEE 1364-2005, 5.4.1).
pub fn width_place(
    scope: &Scope,
    wanted: Option<u64>,
    location: Location,
    expr: &Expr,
) -> Option<Location>
    ensures { result ≡ first_place (width_places scope.now wanted location expr.now) }
{
    match unsized_in_concatenation(expr) {
        Some(place) => Some(place),
        None => misfit(scope, wanted, location, expr),
    }
}
