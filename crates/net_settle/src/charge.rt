ghost use Rattle.std.specs.Prelude.{◌≡◌, ◌≢◌, ◌≤◌};
ghost use Rattle.level_range.specs.Reduce.{hull_of};
ghost use Rattle.net_settle.specs.Charges.{level as level_of, excludes_zero as excludes_zero_of, charge_with_zero as charge_with_zero_of, charge_with_signs as charge_with_signs_of, contribution as contribution_of, charge_bound as charge_bound_of, charge_left as charge_left_of};
ghost use Rattle.net_settle.specs.Conditions.{IsCharge};

use crate::level::{Level, signal};
use crate::side::{Side, bound};
use level_range::Range;

/// The least signal that contains both.
fn hull(a: Range, b: Range) -> Range
    ensures { result ≡ hull_of a b }
{
    Range::new(a.lo.min(b.lo), a.hi.max(b.hi))
}

/// The signal of one level.
fn level(value: Level) -> Range
    ensures { result ≡ level_of value }
{
    signal(value, value)
}

/// Whether all levels of a signal are below 0, or all above.
pub fn excludes_zero(signal: Range) -> bool
    ensures { result ≡ excludes_zero_of signal }
{
    signal.hi < 0 || signal.lo > 0
}

/// The charge with the level of its strength and value 0 where the driven signal has a level below 0.
fn charge_with_zero(strength: u8, charge: Range, driven: Range) -> Range
    requires { strength ≤ 7 }
    ensures { result ≡ charge_with_zero_of strength charge driven }
{
    if driven.lo < 0 {
        hull(charge, level(Level::zero(strength)))
    } else {
        charge
    }
}

/// The charge with a level of its strength for each sign that the driven signal has.
fn charge_with_signs(strength: u8, charge: Range, driven: Range) -> Range
    requires { strength ≤ 7 }
    ensures { result ≡ charge_with_signs_of strength charge driven }
{
    let down = charge_with_zero(strength, charge, driven);
    if driven.hi > 0 {
        hull(down, level(Level::one(strength)))
    } else {
        down
    }
}

/// What the charge of a net contributes to its signal: nothing at strength 0, which is none, or where
/// the driven signal excludes 0.
pub fn contribution(strength: u8, charge: Range, driven: Range) -> Range
    requires { strength ≤ 7 }
    ensures { result ≡ contribution_of strength charge driven }
{
    if strength == 0 || excludes_zero(driven) {
        Range::new(0, 0)
    } else {
        charge_with_signs(strength, charge, driven)
    }
}

/// The level of a charge of a strength by the sign of a bound.
fn charge_bound(strength: u8, bound: Level) -> Level
    requires { strength ≤ 7 }
    ensures { result ≡ charge_bound_of strength bound }
{
    if bound.get() < 0 {
        Level::zero(strength)
    } else {
        Level::one(strength)
    }
}

/// What becomes of a charge by the signal of its net; at strength 0, which is none, it stays.
pub fn charge_left(strength: u8, charge: Range, settled: Range) -> Range
    requires { strength ≤ 7 }
    ensures value { result ≡ charge_left_of strength charge settled }
    ensures charge { strength ≢ 0 → IsCharge strength result }
    ensures stays { strength ≡ 0 → result ≡ charge }
{
    if strength == 0 {
        return charge;
    }
    let lower = charge_bound(strength, bound(settled, Side::Lower));
    let upper = charge_bound(strength, bound(settled, Side::Upper));
    signal(lower, upper)
}
