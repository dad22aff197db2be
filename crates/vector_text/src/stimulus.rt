ghost use Rattle.std.specs.Prelude.{◌≡◌, IfOk};

use byte_lists::NetList;
use level_range::Logic;
use list_of::ListOf;
use std::alloc::{AllocError, Global};

/// Values, one for each input.
pub type LogicList = ListOf<Logic>;

/// Expected values, one for each output. None isn't compared.
pub type WantedList = ListOf<Option<Logic>>;

/// What a line of a stimulus does at its time.
#[derive(Debug, Drop)]
pub enum StimulusWhat {
    /// The inputs take these values.
    Values(LogicList),
    /// The outputs are read.
    Strobe,
    /// The outputs are read and compared.
    Expect(WantedList),
}

impl StimulusWhat {
    /// The same once more.
    pub fn copied(&self, alloc: Global) -> Result<StimulusWhat, AllocError>
        ensures { IfOk result (λ what. what ≡ self.now) }
    {
        match self {
            StimulusWhat::Values(values) => Ok(StimulusWhat::Values(values.copied(alloc)?)),
            StimulusWhat::Strobe => Ok(StimulusWhat::Strobe),
            StimulusWhat::Expect(wanted) => Ok(StimulusWhat::Expect(wanted.copied(alloc)?)),
        }
    }
}

/// What is done at a time, in ticks.
#[derive(Debug, Drop)]
pub struct StimulusLine {
    pub time: u64,
    pub what: StimulusWhat,
}

/// Lines in the order of their times.
pub type StimulusLineList = ListOf<StimulusLine>;

/// What is done to a netlist: the numbers of its driven inputs and of its read outputs, the lines,
/// and the time of the end in ticks.
#[derive(Debug, Drop)]
pub struct Stimulus {
    pub inputs: NetList,
    pub outputs: NetList,
    pub lines: StimulusLineList,
    pub end: u64,
}
