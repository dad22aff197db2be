use crate::locations::Location;
use sqlite_items::Items;
use v_lexer::DecimalDigits;

/// The strength in the name of a level (IEEE 1364-2005, 7.10).
#[derive(Clone, Copy, Debug, PartialEq, Eq)]
pub enum Strength {
    Supply,
    Strong,
    Pull,
    Weak,
    Highz,
}

/// A word as `strong0`: a strength, and whether it is that of the value 1.
#[derive(Clone, Copy, Debug, PartialEq, Eq)]
pub struct Level {
    pub strength: Strength,
    pub of_one: bool,
}

/// `( level , level )`. The location is that of the `(`.
#[derive(Clone, Copy, Debug, PartialEq, Eq)]
pub struct DriveStrength {
    pub location: Location,
    pub first: Level,
    pub second: Level,
}

/// `( level )` or `( level , level )` of a pull gate. The location is that of the `(`.
#[derive(Clone, Copy, Debug, PartialEq, Eq)]
pub struct PullLevels {
    pub location: Location,
    pub first: Level,
    pub second: Option<Level>,
}

/// The charge of a trireg (IEEE 1364-2005, 4.4.1).
#[derive(Clone, Copy, Debug, PartialEq, Eq)]
pub enum Charge {
    Small,
    Medium,
    Large,
}

/// An amount of a delay, in the time unit of its module: a number below 2^31, or a decimal.
#[derive(Debug, Drop)]
pub enum Amount {
    Number(u32),
    Decimal(DecimalDigits),
}

/// A delay, or its least, typical and greatest one.
#[derive(Debug, Drop)]
pub enum DelayValue {
    One(Amount),
    Three(Amount, Amount, Amount),
}

/// Delays with commas between.
pub type DelayValueList = Items<DelayValue>;

/// What stands behind the `#`: an amount, or delays in parentheses.
#[derive(Debug, Drop)]
pub enum Delay {
    Amount(Amount),
    Values(DelayValueList),
}

/// `# amount` or `# ( value , .. )` (IEEE 1364-2005, 7.14). The location is that of the `#`.
#[derive(Debug, Drop)]
pub struct DelaySpec {
    pub location: Location,
    pub delay: Delay,
}
