ghost use Rattle.std.specs.Prelude.{◌≡◌, [], ◌∷◌};
ghost use Rattle.level_range.specs.Combine.{better_low as low_of, better_high as high_of, lower_of, upper_of, join_of, IsCombination};

use crate::range::{Kind, Range};

/// The better of two lower bounds: the stronger one, and at equal levels the negative one.
#[tactic(auto, unfolding(crate::specs::Combine::better_low))]
fn better_low(x: i8, y: i8) -> i8
    ensures { result ≡ low_of x y }
{
    if x.unsigned_abs() < y.unsigned_abs() {
        y
    } else if y.unsigned_abs() < x.unsigned_abs() {
        x
    } else {
        x.min(y)
    }
}

/// The better of two upper bounds: the stronger one, and at equal levels the positive one.
#[tactic(auto, unfolding(crate::specs::Combine::better_high))]
fn better_high(x: i8, y: i8) -> i8
    ensures { result ≡ high_of x y }
{
    if x.unsigned_abs() < y.unsigned_abs() {
        y
    } else if y.unsigned_abs() < x.unsigned_abs() {
        x
    } else {
        x.max(y)
    }
}

/// The better of two lower bounds on a net of a kind.
fn lower_bound(x: i8, y: i8, kind: Kind) -> i8
    ensures { result ≡ lower_of kind x y }
{
    match kind {
        Kind::Plain | Kind::And => better_low(x, y),
        Kind::Or => better_high(x, y),
    }
}

/// The better of two upper bounds on a net of a kind.
fn upper_bound(x: i8, y: i8, kind: Kind) -> i8
    ensures { result ≡ upper_of kind x y }
{
    match kind {
        Kind::And => better_low(x, y),
        Kind::Plain | Kind::Or => better_high(x, y),
    }
}

/// The signal of a net with two drivers (IEEE 1364-2005, 7.10).
///
/// By the law of combinations (`CombinationLaw`), joining the signals of a list pair by pair, in any
/// order and grouping, gives the one combination of the list. What an ambiguous strength gives
/// against an equal or another ambiguous one is this project's own.
pub fn join(a: Range, b: Range, kind: Kind) -> Range
    ensures bounds { result ≡ join_of kind a b }
    ensures combination { IsCombination kind (a ∷ b ∷ []) result }
{
    Range::new(lower_bound(a.lo, b.lo, kind), upper_bound(a.hi, b.hi, kind))
}
