ghost use Rattle.std.specs.Prelude.{◌≡◌, ◌≤◌, unsigned_abs};
ghost use Rattle.level_range.specs.Signal.{reads, undriven};
ghost use Rattle.level_range.specs.Reduce.{reduced_strength as strength_of, reduced_level as level_of, reduction_of, IsReduction, IncludesImages, IsHull, hull_of, hull_with_z};

use crate::range::Range;

/// A strength behind a switch (IEEE 1364-2005, 7.11 and 7.12).
fn reduced_strength(strength: u8, resistive: bool) -> u8
    ensures { result ≡ strength_of resistive strength }
{
    match (resistive, strength) {
        (false, 7) => 6,
        (true, 7) => 5,
        (true, 6) => 5,
        (true, 5) => 3,
        (true, 4) => 2,
        (true, 3) => 2,
        (true, 2) => 1,
        (_, other) => other,
    }
}

/// A level behind a switch, with its sign.
#[tactic(auto, unfolding(crate::specs::Reduce::reduced_level))]
fn reduced_level(level: i8, resistive: bool) -> i8
    requires { unsigned_abs level ≤ 7 }
    ensures { result ≡ level_of resistive level }
{
    let strength = reduced_strength(level.unsigned_abs(), resistive) as i8;
    if level < 0 { -strength } else { strength }
}

/// The signal behind a switch that conducts: each level reduced by its size, with its sign.
pub fn reduce(a: Range, resistive: bool) -> Range
    ensures bounds { result ≡ reduction_of resistive a }
    ensures levels { IsReduction resistive a result }
    ensures reading { reads result ≡ reads a }
    ensures weaker_lo { unsigned_abs result.lo ≤ unsigned_abs a.lo }
    ensures weaker_hi { unsigned_abs result.hi ≤ unsigned_abs a.hi }
    ensures monotone { IncludesImages result (reduction_of resistive) a }
{
    Range::new(
        reduced_level(a.lo, resistive),
        reduced_level(a.hi, resistive),
    )
}

/// The signal behind a switch of which it isn't known whether it conducts: the hull with z.
pub fn maybe(a: Range) -> Range
    ensures bounds { result ≡ hull_of a undriven }
    ensures hull { IsHull a undriven result }
    ensures monotone { IncludesImages result hull_with_z a }
{
    Range::new(a.lo.min(0), a.hi.max(0))
}
