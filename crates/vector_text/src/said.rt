use crate::stimulus::StimulusLine;

/// The version of a vector text.
#[derive(Clone, Copy, Debug, PartialEq, Eq)]
pub enum Version {
    First,
    Second,
}

/// How a block is repeated: the number of its turns, the time at which the first begins, and how many
/// ticks behind one turn the next begins.
#[derive(Clone, Copy, Debug, PartialEq, Eq)]
pub struct Repeat {
    pub count: u64,
    pub start: u64,
    pub period: u64,
}

/// What a line behind the head says. A number of 2^64 or more counts as 2^64 - 1.
#[derive(Debug, Drop)]
pub enum Said {
    /// A value line, a strobe or expected values.
    Timed(StimulusLine),
    /// `repeat`.
    Opens(Repeat),
    /// `endrepeat`.
    Closes,
    /// `end` with its time.
    Ends(u64),
}
