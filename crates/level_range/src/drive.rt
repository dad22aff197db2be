ghost use Rattle.std.specs.Prelude.{◌≡◌, ◌≤◌};
ghost use Rattle.level_range.specs.Signal.{span_of};

use crate::range::{Logic, Range};

/// What a result drives with the levels `s0` for 0 and `s1` for 1.
pub fn span(value: Logic, s0: u8, s1: u8) -> Range
    requires zero_level { s0 ≤ 7 }
    requires one_level { s1 ≤ 7 }
    ensures { result ≡ span_of value s0 s1 }
{
    let zero = -(s0 as i8);
    let one = s1 as i8;
    match value {
        Logic::Zero => Range::new(zero, zero),
        Logic::One => Range::new(one, one),
        Logic::X => Range::new(zero, one),
        Logic::Z => Range::new(0, 0),
    }
}
