ghost use Rattle.std.specs.Prelude.{◌≡◌, ◌+◌, ◌<◌, ◌^◌, true, false, is_some, Some, IfOk};
ghost use Rattle.line_text.specs.Numbers.{cap};
ghost use Rattle.vector_text.specs.Written.{no_lines, last_time, last_turn_time, timed_passes, turns_pass, passes_limit, may_stand, breaks_order, timed_breaks, with_timed, line_at, with_turns, with_block, with_end, with_said, said_fault, read_said, read_with, start_of, is_behind_period};
ghost use Rattle.vector_text.specs.Text.{body_end};
ghost use Rattle.vector_text.specs.Answers.{Reads};
ghost use Rattle.vector_text.specs.Inside.{IsTimeWithin, IsRepeatWithin, IsWithin, HasSmallTime, HasTurns};

use crate::fault::VecFault;
use crate::said::{Repeat, Said, Version};
use crate::sayings::said_in;
use crate::schedule::{Schedule, size_of};
use crate::stimulus::StimulusLine;
use crate::vectors::{VectorLine, VectorLineList};
use std::alloc::{AllocError, Global};
use std::marker::Model;

/// The greatest time of the first version, in ticks.
const LAST_TIME_FIRST: u64 = 1 << 40;

/// The greatest time of the second version, in ticks.
const LAST_TIME_SECOND: u64 = 1 << 48;

/// The greatest number of turns of a block.
const GREATEST_COUNT: u64 = 4_194_304;

/// The greatest size of what is written out.
const GREATEST_SIZE: u64 = 67_108_864;

/// An open block: its repetition, the index of the first line of its first turn, and the size of the
/// lines before it.
#[derive(Clone, Copy)]
struct Block {
    repeat: Repeat,
    first: usize,
    size: u64,
}

/// What the lines behind the head write out: the lines with the first turn of an open block, that
/// block, and the time of the end.
#[derive(Drop)]
pub struct Body {
    schedule: Schedule,
    block: Option<Block>,
    end: Option<u64>,
}

impl Model for Body {
    ghost use Rattle.vector_text.specs.Written.{Body};

    ghost Value = { Body };

    ghost use Rattle.vector_text.specs.BodyInside.{body_view, IsBody};

    ghost view = { body_view };

    ghost invariant = { IsBody };
}

/// The greatest time of a version, in ticks.
fn last_time(version: Version) -> u64
    ensures { result ≡ last_time version }
{
    match version {
        Version::First => LAST_TIME_FIRST,
        Version::Second => LAST_TIME_SECOND,
    }
}

/// The time that a time of a block has in the last turn.
fn last_turn_time(repeat: Repeat, time: u64) -> u64
    requires { 0 < repeat.count }
    ensures { result ≡ cap (last_turn_time repeat time) }
{
    (repeat.count - 1)
        .saturating_mul(repeat.period)
        .saturating_add(repeat.start)
        .saturating_add(time)
}

impl Body {
    pub fn new(alloc: Global) -> Body
        ensures { result ≡ no_lines }
    {
        Body {
            schedule: Schedule::new(alloc),
            block: None,
            end: None,
        }
    }

    /// The time at which the lines of the open block begin.
    fn start(&self) -> u64
        ensures { result ≡ start_of self.now.block }
    {
        match self.block {
            Some(block) => block.repeat.start,
            None => 0,
        }
    }

    /// Whether a time is none inside the open block.
    fn is_behind_period(&self, time: u64) -> bool
        ensures { result ≡ is_behind_period self.now.block time }
    {
        match self.block {
            Some(block) => time >= block.repeat.period,
            None => false,
        }
    }

    /// Whether a line may stand here, whatever its numbers.
    #[tactic(auto, unfolding(crate::specs::Written::may_stand))]
    fn may_stand(&self, said: &Said) -> bool
        ensures { result ≡ may_stand self.now said.now }
    {
        let inside = self.block.is_some();
        let open = self.end.is_none();
        match said {
            Said::Timed(_) => open,
            Said::Opens(_) | Said::Ends(_) => open && !inside,
            Said::Closes => open && inside,
        }
    }

    /// Whether a timed line passes a limit.
    fn timed_passes(&self, version: Version, line: &StimulusLine) -> bool
        ensures { result ≡ timed_passes version self.now line.now self.now.block }
    {
        let last = last_time(version);
        match self.block {
            Some(block) => last_turn_time(block.repeat, line.time) > last,
            None => {
                let size = self.schedule.size().saturating_add(size_of(&line.what));
                line.time > last || (version == Version::Second && size > GREATEST_SIZE)
            }
        }
    }

    /// Whether the turns of the open block pass the greatest size.
    fn turns_pass(&self) -> bool
        ensures { result ≡ turns_pass self.now self.now.block }
    {
        match self.block {
            Some(block) => {
                let turn = self.schedule.size() - block.size;
                let turns = block.repeat.count.saturating_mul(turn);
                block.size.saturating_add(turns) > GREATEST_SIZE
            }
            None => false,
        }
    }

    /// Whether a line passes a limit.
    #[tactic(auto, unfolding(crate::specs::Written::passes_limit))]
    fn passes_limit(&self, version: Version, said: &Said) -> bool
        ensures { result ≡ passes_limit version self.now said.now }
    {
        let last = last_time(version);
        match said {
            Said::Timed(line) => self.timed_passes(version, line),
            Said::Opens(repeat) => {
                repeat.count > GREATEST_COUNT || repeat.start > last || repeat.period > last
            }
            Said::Closes => self.turns_pass(),
            Said::Ends(time) => *time > last,
        }
    }

    /// Whether a timed line breaks the order.
    fn timed_breaks(&self, line: &StimulusLine) -> bool
        requires { start_of self.now.block + line.now.time < 2 ^ 64 }
        ensures { result ≡ timed_breaks self.now line.now }
    {
        let time = self.start() + line.time;
        self.is_behind_period(line.time) || !self.schedule.may_follow(time, &line.what)
    }

    /// Whether a line breaks the order.
    #[tactic(auto, unfolding(crate::specs::Written::breaks_order))]
    fn breaks_order(&self, said: &Said) -> bool
        requires { HasSmallTime self.now said.now }
        ensures { result ≡ breaks_order self.now said.now }
    {
        match said {
            Said::Timed(line) => self.timed_breaks(line),
            Said::Opens(repeat) => !self.schedule.none_later(repeat.start),
            Said::Closes => false,
            Said::Ends(time) => !self.schedule.none_later(*time),
        }
    }

    /// Writes out a timed line, inside a block in its first turn.
    fn push(self, number: u32, line: StimulusLine) -> Result<Body, AllocError>
        requires { IsTimeWithin self.block line.time }
        ensures { IfOk result
            (λ body. body ≡ with_timed self (line_at self number line) self.block) }
    {
        let start = self.start();
        let Body {
            mut schedule,
            block,
            end,
        } = self;
        schedule.push(VectorLine {
            line: number,
            time: start + line.time,
            what: line.what,
        })?;
        Ok(Body {
            schedule,
            block,
            end,
        })
    }

    /// Writes out the further turns of the open block, which ends.
    fn close(self, alloc: Global) -> Result<Body, AllocError>
        ensures { IfOk result (λ body. body ≡ with_turns self self.block) }
    {
        let Body {
            mut schedule,
            block,
            end,
        } = self;
        match block {
            Some(block) => {
                let repeat = block.repeat;
                schedule.push_turns(alloc, block.first, repeat.count, repeat.period)?;
            }
            None => {}
        }
        Ok(Body {
            schedule,
            block: None,
            end,
        })
    }

    /// Begins a block.
    fn open(self, repeat: Repeat) -> Body
        requires outside { is_some self.block ≡ false }
        requires before { is_some self.end ≡ false }
        requires within { IsRepeatWithin repeat }
        ensures { result ≡ with_block self repeat }
    {
        let block = Block {
            repeat,
            first: self.schedule.len(),
            size: self.schedule.size(),
        };
        let Body {
            schedule,
            block: _,
            end,
        } = self;
        Body {
            schedule,
            block: Some(block),
            end,
        }
    }

    /// Ends at a time.
    fn end_at(self, time: u64) -> Body
        requires { is_some self.block ≡ false }
        ensures { result ≡ with_end self time }
    {
        let Body {
            schedule,
            block,
            end: _,
        } = self;
        Body {
            schedule,
            block,
            end: Some(time),
        }
    }

    /// Writes out a line of a number by what it says.
    #[tactic(auto, unfolding(crate::specs::Written::with_said, crate::specs::Written::may_stand))]
    fn write(self, alloc: Global, number: u32, said: Said) -> Result<Body, AllocError>
        requires place { may_stand self said ≡ true }
        requires limit { IsWithin self said }
        ensures { IfOk result (λ body. body ≡ with_said self number said) }
    {
        match said {
            Said::Timed(line) => self.push(number, line),
            Said::Opens(repeat) => Ok(self.open(repeat)),
            Said::Closes => self.close(alloc),
            Said::Ends(time) => Ok(self.end_at(time)),
        }
    }

    /// What is wrong with a line of a number that says something.
    fn fault_of(&self, version: Version, number: u64, said: &Said) -> Option<VecFault>
        requires { HasTurns said.now }
        ensures { result ≡ said_fault version self.now number (Some said.now) }
    {
        if !self.may_stand(said) {
            return Some(VecFault::BadLine(number));
        }
        if self.passes_limit(version, said) {
            return Some(VecFault::Limit(number));
        }
        if self.breaks_order(said) {
            return Some(VecFault::Order(number));
        }
        None
    }

    /// Writes out a line of a number that says something, or says what is wrong with it.
    fn read_said(
        self,
        alloc: Global,
        version: Version,
        number: u32,
        said: Said,
    ) -> Result<Body, VecFault>
        requires { HasTurns said }
        ensures { Reads (λ body. body) result (read_said version self number said) }
    {
        match self.fault_of(version, u64::from(number), &said) {
            Some(fault) => Err(fault),
            None => Ok(self.write(alloc, number, said)?),
        }
    }

    /// Writes out a line of a number, or says what is wrong with it.
    pub fn read(
        self,
        alloc: Global,
        version: Version,
        number: u32,
        line: &[u8],
    ) -> Result<Body, VecFault>
        ensures { Reads (λ body. body) result (read_with version self (number, line.now)) }
    {
        match said_in(alloc, version, line)? {
            Some(said) => self.read_said(alloc, version, number, said),
            None => Err(VecFault::BadLine(u64::from(number))),
        }
    }

    /// The lines and the time of the end, where that was read.
    pub fn finish(self) -> Result<(VectorLineList, u64), VecFault>
        ensures { Reads (λ x. (x.0, x.1)) result (body_end self) }
    {
        match self.end {
            Some(end) => Ok((self.schedule.into_lines(), end)),
            None => Err(VecFault::NoEnd),
        }
    }
}
