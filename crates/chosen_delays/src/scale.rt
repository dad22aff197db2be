ghost use Rattle.std.specs.Prelude.{◌≤ℤ◌, negsuc, pos};

/// What the delays of a module are counted in: its unit, its precision and the tick of its file, all
/// exponents of ten of a second (IEEE 1364-2005, 19.8).
#[derive(Clone, Copy, Debug, PartialEq, Eq)]
pub struct DelayScale {
    pub unit: i8,
    pub precision: i8,
    pub tick: i8,
    ghost least: { negsuc 14 ≤ℤ tick },
    ghost fine: { tick ≤ℤ precision },
    ghost coarse: { precision ≤ℤ unit },
    ghost greatest: { unit ≤ℤ pos 2 },
}
