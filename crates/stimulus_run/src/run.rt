ghost use Rattle.std.specs.Prelude.{◌≡◌, ◌<◌, ◌≤◌, IfOk, length};
ghost use Rattle.std.specs.Option.{option_map};
ghost use Rattle.vector_text.specs.Lawful.{IsLawful};
ghost use Rattle.machine.specs.Run.{netlist_run};

use crate::inputs::{drive_inputs, gather_inputs, undriven_signals, unknown_values};
use crate::lines::{strobe_line, take_lines};
use crate::step_end::StepEnd;
use crate::steps::step;
use crate::ticks::next_tick;
use cell_step::Steps;
use flat_net::Flat;
use level_range::Range;
use plain_sim::PlainRun;
use std::alloc::{AllocError, Global};
use std::marker::Model;
use std::sync::ledger::Ledger;
use vector_text::{Stimulus, StimulusWhat};

/// The run of a stimulus, step by step. Contracts see the netlist, the limit of passes, the stimulus
/// and the machine, the tick of the step that ended last, and that of the next step.
#[derive(Drop)]
pub struct StimulusRun<'a> {
    flat: &'a Flat,
    stimulus: &'a Stimulus,
    run: PlainRun<'a>,
    forced: Vec<Range>,
    inputs: Vec<Range>,
    line: usize,
    ended: Option<u64>,
    next: Option<u64>,
}

impl<'a> Model for StimulusRun<'a> {
    ghost use Rattle.stimulus_run.specs.Progress.{Progress};

    ghost Value = { Progress };

    ghost use Rattle.stimulus_run.specs.Inside.{progress_of, IsProgress};

    ghost view = { progress_of };

    ghost invariant = { IsProgress };
}

impl<'a> StimulusRun<'a> {
    ghost use Rattle.stimulus_run.specs.Inputs.{schedule_of};
    ghost use Rattle.stimulus_run.specs.Progress.{progress_start, progress_after, step_end, rest_of, run_with, strobe_of, seen_signal};

    /// The run of a stimulus that is lawful for the netlist, before its first step, which is at 0. At
    /// one time there are at most `limit` passes. All memory is taken here.
    pub fn new(
        alloc: Global,
        flat: &'a Flat,
        stimulus: &'a Stimulus,
        limit: u32,
    ) -> Result<StimulusRun<'a>, AllocError>
        requires lawful { IsLawful flat.now.parts stimulus.now }
        requires limit { 1 ≤ limit }
        ensures start { IfOk result (λ run. run ≡ progress_start flat.now limit stimulus.now) }
        // What is left of it is the whole run of the stimulus.
        ensures whole { IfOk result (λ run. rest_of run
            ≡ netlist_run flat.now limit (schedule_of flat.now.parts stimulus.now)) }
    {
        let mut forced = undriven_signals(alloc, flat.net_count() as usize)?;
        let nets = stimulus.inputs.as_slice();
        let first = unknown_values(alloc, nets.len())?;
        drive_inputs(nets, first.as_slice(), forced.as_mut_slice());
        let inputs = undriven_signals(alloc, flat.inputs().as_slice().len())?;
        let run = PlainRun::new(alloc, flat, limit)?;
        Ok(StimulusRun {
            flat,
            stimulus,
            run,
            forced,
            inputs,
            line: 0,
            ended: None,
            next: Some(0),
        })
    }

    /// Makes the next step, if there is one. After one that oscillated there is none.
    pub fn next_step<L: Ledger>(&mut self, steps: &mut Steps<L>) -> StepEnd
        ensures progress { self.new ≡ progress_after self.old }
        ensures end { result ≡ step_end self.old }
        // What was left of the run is this step, and what is left then.
        ensures run { rest_of self.old ≡ run_with result self.new }
    {
        let tick = match self.next {
            Some(tick) => tick,
            None => return StepEnd::Over,
        };
        let _nets = self.flat.net_count();
        self.line = take_lines(self.stimulus, self.line, tick, self.forced.as_mut_slice());
        let nets = self.flat.inputs().as_slice();
        gather_inputs(nets, self.forced.as_slice(), self.inputs.as_mut_slice());
        self.run.begin_time(tick, self.inputs.as_slice());
        if step(&mut self.run, steps) {
            self.ended = None;
            self.next = None;
            return StepEnd::Oscillates(tick);
        }
        let lines = self.stimulus.lines.as_slice();
        let due = self.run.next_time();
        self.ended = Some(tick);
        self.next = next_tick(lines, self.line, tick, due, self.stimulus.end);
        StepEnd::Ended(tick)
    }

    /// The signal that is seen of a net after the last step.
    pub fn seen(&self, net: u32) -> Range
        requires { net < length self.now.netlist.parts.nets }
        ensures { result ≡ seen_signal self.now net }
    {
        self.run.seen(net)
    }

    /// What is read of the outputs after the step that ended last: a strobe, or a comparison with
    /// expected values, where a line of the stimulus stands at its tick.
    pub fn strobe(&self) -> Option<&StimulusWhat>
        ensures { option_map (λ what. what.now) result ≡ strobe_of self.now }
    {
        let tick = self.ended?;
        strobe_line(self.stimulus.lines.as_slice(), self.line, tick)
    }
}
