ghost use Rattle.std.specs.Prelude.{◌≡◌, ◌≢◌, ◌<◌, ◌≤◌, ◌-◌, ℕ, suc, pos, length, zip, All, List, ℤ, Contains, MatchBool};
ghost use Rattle.level_range.specs.Signal.{IsSignal};
ghost use Rattle.net_settle.specs.Bounds.{Switch, at, bounds_of, carried_bound as carried_of};
ghost use Rattle.net_settle.specs.ByLevels.{take_level};
ghost use Rattle.net_settle.specs.OneSide.{bounds_on, AreBoundsOn};
ghost use Rattle.net_settle.specs.Conditions.{EndsWithin};
ghost use Rattle.net_settle.specs.Progress.{rank, IsDone, OwnRests, LinkRests, LinksRest, Spreads, Moves};

use crate::level::Level;
use crate::shape::Link;
use crate::side::{Side, bound, carried_bound, favoured_level, opposed_level};
use level_range::{Conduct, Range};

/// Gives the level to a net that has no bound yet, where it is what comes to the net. Answers whether
/// it was given.
fn take(bounds: &mut [Level], net: usize, comes: Level, level: Level) -> bool
    requires { net < length bounds.old }
    ensures bounds { bounds.new ≡ take_level level net comes bounds.old }
    ensures given { MatchBool result
        ((at bounds.old net ≡ pos 0) × (comes ≡ level))
        (at bounds.old net ≡ pos 0 → comes ≢ level) }
{
    if bounds[net] != Level::zero(0) {
        return false;
    }
    if comes != level {
        return false;
    }
    bounds[net] = level;
    true
}

/// Gives the level to the nets that have it as their own bound.
fn take_own(bounds: &mut [Level], own: &[Range], level: Level, side: Side)
    requires nets { length own.now ≡ length bounds.old }
    requires some { level ≢ pos 0 }
    ensures spreads { (switches : List Switch) (r : ℕ) → rank side level ≡ suc r
        → IsDone side switches (bounds_of side own.now) (suc r) bounds.old
        → IsDone side switches (bounds_of side own.now) (suc r) bounds.new }
    ensures rests { OwnRests (bounds_of side own.now) bounds.new level }
{
    for net in 0..bounds.len() {
        take(bounds, net, bound(own[net], side), level);
    }
}

/// Gives the level to the nets at the ends of a link, where the link carries it. Answers whether one
/// took it.
fn take_carried(
    bounds: &mut [Level],
    link: Link,
    conduct: Conduct,
    level: Level,
    side: Side,
) -> bool
    requires first { link.a < length bounds.old }
    requires second { link.b < length bounds.old }
    requires some { level ≢ pos 0 }
    ensures spreads { (switches : List Switch) → Contains switches (link, conduct)
        → Spreads side switches level bounds.old bounds.new }
    ensures moves { Moves result
        (LinkRests side link conduct bounds.old level) bounds.old bounds.new }
{
    let a = link.a as usize;
    let b = link.b as usize;
    let comes = carried_bound(bounds[a], link, conduct, side);
    let there = take(bounds, b, comes, level);
    let comes_back = carried_bound(bounds[b], link, conduct, side);
    let back = take(bounds, a, comes_back, level);
    there || back
}

/// Goes once over the links, from the first to the last or back, and gives the level to the nets to
/// which one carries it. Answers whether a net took it.
fn walk(
    bounds: &mut [Level],
    links: &[Link],
    on: &[Conduct],
    level: Level,
    side: Side,
    backwards: bool,
) -> bool
    requires conduction { length on.now ≡ length links.now }
    requires ends { EndsWithin (length bounds.old) links.now }
    requires some { level ≢ pos 0 }
    ensures spreads { Spreads side (zip links.now on.now) level bounds.old bounds.new }
    ensures moves { Moves result
        (LinksRest side (zip links.now on.now) bounds.old level) bounds.old bounds.new }
{
    let mut changed = false;
    let count = links.len();
    for passed in 0..count {
        let at = if backwards {
            count - 1 - passed
        } else {
            passed
        };
        let took = take_carried(bounds, links[at], on[at], level, side);
        if took {
            changed = true;
        }
    }
    changed
}

/// Gives the level to the nets without a bound to which it comes, until it comes to none.
fn spread(
    bounds: &mut [Level],
    links: &[Link],
    on: &[Conduct],
    own: &[Range],
    level: Level,
    side: Side,
)
    requires nets { length own.now ≡ length bounds.old }
    requires conduction { length on.now ≡ length links.now }
    requires ends { EndsWithin (length bounds.old) links.now }
    requires some { level ≢ pos 0 }
    ensures finishes { (r : ℕ) → rank side level ≡ suc r
        → IsDone side (zip links.now on.now) (bounds_of side own.now) (suc r) bounds.old
        → IsDone side (zip links.now on.now) (bounds_of side own.now) r bounds.new }
{
    take_own(bounds, own, level, side);
    let mut backwards = false;
    'walks: while walk(bounds, links, on, level, side, backwards) {
        backwards = !backwards;
    }
}

/// Takes all bounds away. On the way it learns that the own signals are signals.
fn clear(bounds: &mut [Level], own: &[Range])
    requires nets { length own.now ≡ length bounds.old }
    ensures none { (n : ℕ) → at bounds.new n ≡ pos 0 }
    ensures signals { All IsSignal own.now }
{
    for net in 0..bounds.len() {
        let _bound = bound(own[net], Side::Lower);
        bounds[net] = Level::zero(0);
    }
}

/// The finished bounds of nets whose own signals are given.
pub fn settle_bounds(
    bounds: &mut [Level],
    links: &[Link],
    on: &[Conduct],
    own: &[Range],
    side: Side,
)
    requires nets { length own.now ≡ length bounds.old }
    requires conduction { length on.now ≡ length links.now }
    requires ends { EndsWithin (length bounds.old) links.now }
    ensures settled { AreBoundsOn side links.now on.now own.now bounds.new }
    ensures value { bounds.new ≡ bounds_on side links.now on.now own.now }
    ensures signals { All IsSignal own.now }
{
    clear(bounds, own);
    for weaker in 0..7u8 {
        let strength = 7 - weaker;
        spread(bounds, links, on, own, favoured_level(strength, side), side);
        spread(bounds, links, on, own, opposed_level(strength, side), side);
    }
}
