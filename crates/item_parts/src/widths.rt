//! The widths of nets, selects and expressions.
ghost use Rattle.std.specs.Prelude.{◌≡◌, ◌≤◌, ◌+◌, ◌^◌, min};
ghost use Rattle.std.specs.Option.{option_map};
ghost use Rattle.item_parts.specs.Widths.{bounds_width, range_width, select_width, net_range, pick_width, expr_width, width_in};
ghost use Rattle.module_scope.specs.Scopes.{scope_net};

use module_scope::{Scope, ScopeNet};
use v_tree::{Expr, Pick, RangeBounds, Select};

/// A width from which on all count as this one. It is more than any `u64`, so that a comparison with
/// one is exact.
const WIDEST: u128 = 18446744073709551616;

/// How many numbers there are from one bound to the other.
fn bounds_width(left: u32, right: u32) -> u64
    ensures { result ≡ bounds_width left right }
{
    u64::from(left.abs_diff(right)) + 1
}

/// The width of a net by its range: one bit for a scalar, at most 2^32 bits.
pub fn range_width(range: Option<RangeBounds>) -> u64
    ensures { result ≡ range_width range }
{
    match range {
        Some(range) => bounds_width(range.left, range.right),
        None => 1,
    }
}

/// The width of a select, at most 2^32 bits.
pub fn select_width(select: Select) -> u64
    ensures { result ≡ select_width select }
{
    bounds_width(select.left, select.right.unwrap_or(select.left))
}

/// The range of a net, where there is one and it is a vector.
fn net_range(net: Option<ScopeNet>) -> Option<RangeBounds>
    ensures { result ≡ net_range net }
{
    match net {
        Some(net) => net.range,
        None => None,
    }
}

/// The width of a net by its range: one bit for a scalar and where there is no net.
pub fn net_width(net: Option<ScopeNet>) -> u64
    ensures { result ≡ range_width (net_range net) }
{
    range_width(net_range(net))
}

/// The width of the net of a name or of bits of it, at most 2^32 bits. A name without a net counts as
/// a scalar.
pub fn name_width(scope: &Scope, name: &[u8], select: Option<Select>) -> u64
    ensures { result ≡ width_in (net_range (scope_net scope.now name.now)) select }
{
    match select {
        Some(select) => select_width(select),
        None => net_width(scope.net_of(name)),
    }
}

/// The width of a pick, at most 2^32 bits. A name without a net counts as a scalar.
pub fn pick_width(scope: &Scope, pick: &Pick) -> u64
    ensures { result ≡ pick_width scope.now pick.now }
{
    name_width(scope, pick.name.text.as_slice(), pick.select)
}

/// The size of a literal, where it has one.
fn size_width(size: Option<u32>) -> Option<u128>
    ensures { result ≡ option_map (λ width. min width (2 ^ 64)) size }
{
    match size {
        Some(size) => Some(u128::from(size)),
        None => None,
    }
}

/// One width more, up to the widest.
fn wider(width: u128, more: u128) -> u128
    requires width { width ≤ 2 ^ 64 }
    requires more { more ≤ 2 ^ 64 }
    ensures { result ≡ min (width + more) (2 ^ 64) }
{
    (width + more).min(WIDEST)
}

/// The width of an expression, None for a literal without size, which takes the width of its place. A
/// width of more than 2^64 bits counts as 2^64.
pub fn expr_width(scope: &Scope, expr: &Expr) -> Option<u128>
    ensures { result ≡ option_map (λ width. min width (2 ^ 64)) (expr_width scope.now expr.now) }
{
    match expr {
        Expr::Pick(pick) => Some(u128::from(pick_width(scope, pick))),
        Expr::Number(_, _) => None,
        Expr::Based(_, literal) => size_width(literal.size),
        Expr::Concat(_, parts) => {
            let mut width: u128 = 0;
            for part in parts.as_slice() {
                width = wider(width, expr_width(scope, part).unwrap_or(0));
            }
            Some(width)
        }
    }
}
