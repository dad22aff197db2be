ghost use Rattle.std.specs.Prelude.{◌≡◌, [], ◌∷◌, pos, negsuc, ◌≤ℤ◌};
ghost use Rattle.level_range.specs.Signal.{reads, undriven};
ghost use Rattle.level_range.specs.Levels.{IsReading};

use std::marker::Model;

/// How the drivers of one net are combined: on a plain net, a wired and or a wired or
/// (IEEE 1364-2005, 7.10).
#[derive(Clone, Copy, Debug, PartialEq, Eq)]
pub enum Kind {
    Plain,
    And,
    Or,
}

/// The four values that a signal reads as.
#[derive(Clone, Copy, Debug, PartialEq, Eq)]
pub enum Logic {
    Zero,
    One,
    X,
    Z,
}

/// What a switch does with its data.
#[derive(Clone, Copy, Debug, PartialEq, Eq)]
pub enum Conduct {
    On,
    Off,
    Unknown,
}

/// A signal: all levels from `lo` to `hi`.
///
/// A level is a strength, 0 to 7, with a sign: negative for the value 0, positive for the value 1.
#[derive(Clone, Copy, Debug, PartialEq, Eq)]
pub struct Range {
    pub lo: i8,
    pub hi: i8,
}

impl Model for Range {
    ghost use Rattle.level_range.specs.Signal.{Signal};

    ghost Value = { Signal };

    ghost use Rattle.level_range.specs.Bounds.{signal_of, range_of, AreBounds};

    ghost view = { signal_of };

    ghost invariant = { AreBounds };

    ghost inverse = { range_of };
}

impl Range {
    ghost use Rattle.level_range.specs.declared.range.Kind.{Kind};
    ghost use Rattle.level_range.specs.Combine.{IsCombination};

    /// The signal of all levels from `lo` to `hi`.
    ///
    /// It is the combination of itself alone, and at 0 that of no signals.
    pub fn new(lo: i8, hi: i8) -> Range
        requires low { negsuc 6 ≤ℤ lo }
        requires order { lo ≤ℤ hi }
        requires high { hi ≤ℤ pos 7 }
        ensures lo { result.lo ≡ lo }
        ensures hi { result.hi ≡ hi }
        ensures alone { (kind : Kind) → IsCombination kind (result ∷ []) result }
        ensures none { (kind : Kind) → result ≡ undriven → IsCombination kind [] result }
    {
        Range { lo, hi }
    }
}

/// What a signal reads as.
pub fn read(a: Range) -> Logic
    ensures value { result ≡ reads a }
    ensures levels { IsReading a result }
{
    if a.hi < 0 {
        Logic::Zero
    } else if a.lo > 0 {
        Logic::One
    } else if a.lo == 0 && a.hi == 0 {
        Logic::Z
    } else {
        Logic::X
    }
}
