ghost use Rattle.std.specs.Prelude.{◌≡◌, ◌≤◌, pos, negsuc, ◌≤ℤ◌};
ghost use Rattle.level_range.specs.Signal.{negative_level};

use level_range::Range;
use std::marker::Model;

/// A level: a strength, 0 to 7, with a sign. Contracts see the number.
#[derive(Clone, Copy, Debug, PartialEq, Eq)]
pub struct Level {
    value: i8,
}

impl Model for Level {
    ghost use Rattle.std.specs.Prelude.{ℤ, pos, negsuc, ◌≤ℤ◌};

    ghost Value = { ℤ };

    ghost view = { λ l. l.value };

    ghost invariant = { λ l. (negsuc 6 ≤ℤ l.value) × (l.value ≤ℤ pos 7) };

    ghost inverse = { λ v. record { value = v } };
}

impl Level {
    /// The level of a number from -7 to 7.
    pub fn new(value: i8) -> Level
        requires low { negsuc 6 ≤ℤ value }
        requires high { value ≤ℤ pos 7 }
        ensures { result ≡ value }
    {
        Level { value }
    }

    /// The number of the level.
    pub fn get(self) -> i8
        ensures value { result ≡ self }
        ensures low { negsuc 6 ≤ℤ result }
        ensures high { result ≤ℤ pos 7 }
    {
        self.value
    }

    /// The level of value 0 with a strength of at most 7.
    pub fn zero(strength: u8) -> Level
        requires { strength ≤ 7 }
        ensures { result ≡ negative_level strength }
    {
        Level {
            value: -(strength as i8),
        }
    }

    /// The level of value 1 with a strength of at most 7.
    pub fn one(strength: u8) -> Level
        requires { strength ≤ 7 }
        ensures { result ≡ pos strength }
    {
        Level {
            value: strength as i8,
        }
    }
}

/// The signal of all levels from one to another, which isn't below it.
#[tactic(auto, using(crate::proofs::SameSignal::same_signal))]
pub fn signal(lower: Level, upper: Level) -> Range
    requires { lower ≤ℤ upper }
    ensures { result ≡ record { lo = lower; hi = upper } }
{
    Range::new(lower.get(), upper.get())
}
