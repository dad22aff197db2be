ghost use Rattle.std.specs.Prelude.{◌≡◌, ◌+◌, ◌-◌, ◌*◌, ◌<◌, ◌≤◌, ◌^◌, [], ◌∷◌, ◌++◌, length, map, flat_map, take, drop, slice_range, OnOk, All};
ghost use Rattle.std.specs.List.{range_with_len};
ghost use Rattle.line_text.specs.Numbers.{cap};
ghost use Rattle.vector_text.specs.Written.{size_of, is_strobe, total_size, none_later, may_strobe, may_follow, later_line};
ghost use Rattle.vector_text.specs.Inside.{strobes_with};

use crate::stimulus::StimulusWhat;
use crate::vectors::{VectorLine, VectorLineList};
use std::alloc::{AllocError, Global};
use std::marker::Model;

/// Written-out lines. Contracts see the list of them.
#[derive(Drop)]
pub struct Schedule {
    lines: Vec<VectorLine>,
    /// One more than the greatest time of a line, or 0.
    behind_lines: u64,
    /// One more than the greatest time of a strobe, or 0.
    behind_strobes: u64,
    /// The size of the lines.
    size: u64,
}

/// The size of a line: 1 and its values.
pub fn size_of(what: &StimulusWhat) -> u64
    ensures { result ≡ size_of what.now }
{
    match what {
        StimulusWhat::Values(values) => 1 + values.as_slice().len() as u64,
        StimulusWhat::Strobe => 1,
        StimulusWhat::Expect(wanted) => 1 + wanted.as_slice().len() as u64,
    }
}

/// Whether a line is a strobe, with or without expected values.
fn is_strobe(what: &StimulusWhat) -> bool
    ensures { result ≡ is_strobe what.now }
{
    match what {
        StimulusWhat::Values(_) => false,
        StimulusWhat::Strobe | StimulusWhat::Expect(_) => true,
    }
}

/// One more than the greatest time of lines, with one more at a time that counts or doesn't.
fn behind_with(counts: bool, behind: u64, time: u64) -> u64
    requires { time + 1 < 2 ^ 64 }
    ensures { result ≡ strobes_with counts behind time }
{
    if counts { behind.max(time + 1) } else { behind }
}

impl Model for Schedule {
    ghost use Rattle.std.specs.Prelude.{List};
    ghost use Rattle.vector_text.specs.declared.vectors.VectorLine.{VectorLine};
    ghost use Rattle.vector_text.specs.Inside.{AreCounts};

    ghost Value = { List VectorLine };

    ghost view = { λ s. s.lines.items };

    ghost invariant = { λ s. AreCounts s.lines.items s.behind_lines s.behind_strobes s.size };
}

impl Schedule {
    /// No lines. It allocates nothing.
    pub fn new(alloc: Global) -> Schedule
        ensures { result ≡ [] }
    {
        Schedule {
            lines: Vec::new(alloc),
            behind_lines: 0,
            behind_strobes: 0,
            size: 0,
        }
    }

    /// How many lines there are.
    pub fn len(&self) -> usize
        ensures { result ≡ length self.now }
    {
        self.lines.len()
    }

    /// The size of the lines, at most 2^64 - 1.
    pub fn size(&self) -> u64
        ensures { result ≡ cap (total_size self.now) }
    {
        self.size
    }

    /// Whether no line is later than a time.
    pub fn none_later(&self, time: u64) -> bool
        ensures { result ≡ none_later self.now time }
    {
        self.behind_lines <= time.saturating_add(1)
    }

    /// Whether a strobe may follow at a time.
    fn may_strobe(&self, time: u64) -> bool
        ensures { result ≡ may_strobe self.now time }
    {
        self.none_later(time) && self.behind_strobes <= time
    }

    /// Whether a line with a time may follow.
    pub fn may_follow(&self, time: u64, what: &StimulusWhat) -> bool
        ensures { result ≡ may_follow self.now time what.now }
    {
        match what {
            StimulusWhat::Values(_) => self.behind_lines <= time,
            StimulusWhat::Strobe | StimulusWhat::Expect(_) => self.may_strobe(time),
        }
    }

    /// Puts a line at the end.
    pub fn push(&mut self, line: VectorLine) -> Result<(), AllocError>
        requires { line.time + 1 < 2 ^ 64 }
        ensures { OnOk result (self.new ≡ self.old ++ line ∷ []) }
    {
        let behind_lines = behind_with(true, self.behind_lines, line.time);
        let strobe = is_strobe(&line.what);
        let behind_strobes = behind_with(strobe, self.behind_strobes, line.time);
        let size = self.size.saturating_add(size_of(&line.what));
        self.lines.push(line)?;
        self.behind_lines = behind_lines;
        self.behind_strobes = behind_strobes;
        self.size = size;
        Ok(())
    }

    /// Puts the lines from one index up to another at the end once more, so many ticks later.
    fn push_turn(
        &mut self,
        alloc: Global,
        first: usize,
        last: usize,
        by: u64,
    ) -> Result<(), AllocError>
        requires order { first ≤ last }
        requires within { last ≤ length self.old }
        requires times { All (λ line. line.time + by + 1 < 2 ^ 64) (slice_range self.old first last) }
        ensures { OnOk result
            (self.new ≡ self.old ++ map (later_line by) (slice_range self.old first last)) }
    {
        for k in first..last {
            let line = self.lines[k].later_line(alloc, by)?;
            self.push(line)?;
        }
        Ok(())
    }

    /// Puts the lines from an index on at the end as often as makes so many turns with them, each a
    /// period behind the one before.
    pub fn push_turns(
        &mut self,
        alloc: Global,
        first: usize,
        count: u64,
        period: u64,
    ) -> Result<(), AllocError>
        requires within { first ≤ length self.old }
        requires count { 0 < count }
        requires times { All (λ line. line.time + (count - 1) * period + 1 < 2 ^ 64)
            (drop first self.old) }
        ensures { OnOk result
            (self.new ≡ take first self.old
            ++ flat_map (λ turn. map (later_line (turn * period)) (drop first self.old))
            (range_with_len 0 count)) }
    {
        let last = self.len();
        if first == last {
            return Ok(());
        }
        let lines = (last - first).saturating_mul(count as usize - 1);
        self.lines.reserve_exact(lines)?;
        for turn in 1..count {
            self.push_turn(alloc, first, last, turn * period)?;
        }
        Ok(())
    }

    /// The lines.
    pub fn into_lines(self) -> VectorLineList
        ensures { result ≡ self }
    {
        VectorLineList::from_vec(self.lines)
    }
}
