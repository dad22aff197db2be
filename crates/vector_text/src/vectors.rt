ghost use Rattle.std.specs.Prelude.{◌≡◌, ◌+◌, ◌<◌, ◌^◌, IfOk};

use crate::stimulus::StimulusWhat;
use byte_lists::NameList;
use list_of::ListOf;
use std::alloc::{AllocError, Global};

/// A written-out line: the number of the text line that it comes from, counted from 1, its time in
/// ticks, and what is done then.
#[derive(Debug, Drop)]
pub struct VectorLine {
    pub line: u32,
    pub time: u64,
    pub what: StimulusWhat,
}

impl VectorLine {
    ghost use Rattle.vector_text.specs.Written.{later_line};

    /// The line once more, so many ticks later.
    pub fn later_line(&self, alloc: Global, by: u64) -> Result<VectorLine, AllocError>
        requires { self.now.time + by < 2 ^ 64 }
        ensures { IfOk result (λ line. line ≡ later_line by self.now) }
    {
        Ok(VectorLine {
            line: self.line,
            time: self.time + by,
            what: self.what.copied(alloc)?,
        })
    }
}

/// Written-out lines in their order.
pub type VectorLineList = ListOf<VectorLine>;

/// What a vector text means: the names of its inputs and outputs with the numbers of their lines, its
/// lines written out, and the time of its end in ticks. `outputs_line` is 0 where no line lists
/// outputs.
#[derive(Debug, Drop)]
pub struct Vectors {
    pub inputs: NameList,
    pub inputs_line: u32,
    pub outputs: Option<NameList>,
    pub outputs_line: u32,
    pub lines: VectorLineList,
    pub end: u64,
}
