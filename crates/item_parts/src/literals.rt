//! The literals in expressions.
ghost use Rattle.std.specs.Prelude.{◌≡◌};
ghost use Rattle.rule_places.specs.Places.{first_place};
ghost use Rattle.item_parts.specs.Literals.{location_of, has_literal, unsized_literals, unsized_in_concatenations};

use rule_places::earliest;
use v_tree::{Expr, Location};

/// The first token of an expression.
pub fn location_of(expr: &Expr) -> Location
    ensures { result ≡ location_of expr.now }
{
    match expr {
        Expr::Pick(pick) => pick.name.location,
        Expr::Number(location, _) | Expr::Based(location, _) | Expr::Concat(location, _) => {
            *location
        }
    }
}

/// Whether a literal stands in an expression, at any depth.
pub fn has_literal(expr: &Expr) -> bool
    ensures { result ≡ has_literal expr.now }
{
    match expr {
        Expr::Pick(_) => false,
        Expr::Number(_, _) | Expr::Based(_, _) => true,
        Expr::Concat(_, parts) => {
            for part in parts.as_slice() {
                if has_literal(part) {
                    return true;
                }
            }
            false
        }
    }
}

/// The first literal without size in an expression, at any depth.
fn unsized_literal(expr: &Expr) -> Option<Location>
    ensures { result ≡ first_place (unsized_literals expr.now) }
{
    match expr {
        Expr::Pick(_) => None,
        Expr::Number(location, _) => Some(*location),
        Expr::Based(location, literal) => {
            if literal.size.is_none() {
                Some(*location)
            } else {
                None
            }
        }
        Expr::Concat(_, parts) => {
            let mut first = None;
            for part in parts.as_slice() {
                first = earliest(first, unsized_literal(part));
            }
            first
        }
    }
}

/// The first literal without size that stands in a concatenation, where none may stand (IEEE 1364-2005,
/// 5.1.14).
pub fn unsized_in_concatenation(expr: &Expr) -> Option<Location>
    ensures { result ≡ first_place (unsized_in_concatenations expr.now) }
{
    match expr {
        Expr::Pick(_) | Expr::Number(_, _) | Expr::Based(_, _) => None,
        Expr::Concat(_, _) => unsized_literal(expr),
    }
}
