ghost use Rattle.std.specs.Prelude.{◌≡◌, ◌≤◌};
ghost use Rattle.level_range.specs.Reduce.{reduced_level};
ghost use Rattle.level_range.specs.Signal.{IsSignal};
ghost use Rattle.net_settle.specs.Bounds.{bound_of, is_favoured as is_favoured_on, favoured_level as favoured_level_of, opposed_level as opposed_level_of, carried_bound as carried_of};

use crate::level::Level;
use crate::shape::Link;
use level_range::{Conduct, Range, reduce};

/// The lower or the upper bounds of signals.
#[derive(Clone, Copy, Debug, PartialEq, Eq)]
pub enum Side {
    Lower,
    Upper,
}

/// The bound of a signal.
pub fn bound(signal: Range, side: Side) -> Level
    ensures value { result ≡ bound_of side signal }
    ensures signal { IsSignal signal }
{
    match side {
        Side::Lower => Level::new(signal.lo),
        Side::Upper => Level::new(signal.hi),
    }
}

/// Whether a bound has the sign that is better at equal levels.
fn is_favoured(level: Level, side: Side) -> bool
    ensures { result ≡ is_favoured_on side level }
{
    match side {
        Side::Lower => level.get() < 0,
        Side::Upper => level.get() > 0,
    }
}

/// The level of a strength, at most 7, that is the better bound.
pub fn favoured_level(strength: u8, side: Side) -> Level
    requires { strength ≤ 7 }
    ensures { result ≡ favoured_level_of side strength }
{
    match side {
        Side::Lower => Level::zero(strength),
        Side::Upper => Level::one(strength),
    }
}

/// The other level of a strength, at most 7.
pub fn opposed_level(strength: u8, side: Side) -> Level
    requires { strength ≤ 7 }
    ensures { result ≡ opposed_level_of side strength }
{
    match side {
        Side::Lower => Level::one(strength),
        Side::Upper => Level::zero(strength),
    }
}

/// The level behind a switch that conducts.
fn reduction_of(level: Level, resistive: bool) -> Level
    ensures { result ≡ reduced_level resistive level }
{
    let value = level.get();
    Level::new(reduce(Range::new(value, value), resistive).lo)
}

/// What a link carries of the bound at its other end.
pub fn carried_bound(level: Level, link: Link, conduct: Conduct, side: Side) -> Level
    ensures { result ≡ carried_of side link conduct level }
{
    match conduct {
        Conduct::Off => Level::zero(0),
        Conduct::Unknown if !is_favoured(level, side) => Level::zero(0),
        Conduct::On | Conduct::Unknown => reduction_of(level, link.resistive),
    }
}
