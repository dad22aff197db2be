//! The run of a netlist under a stimulus, with its trace.

ghost use Rattle.std.specs.Prelude.{◌≡◌, ◌+◌, ◌<◌, ◌≤◌, ℕ, [], length, map, replicate, take, slice_index, slice_index_or, IfOk, None};
ghost use Rattle.gate_net.specs.Sound.{AreNets, AreApart, IsSound, IsLawful, times_of};
ghost use Rattle.first_machine.specs.Run.{last_values, run};
ghost use Rattle.first_machine.specs.Shown.{HaveSizes};
ghost use Rattle.first_machine.specs.StateValues.{values_of};
ghost use Rattle.first_machine.specs.Progress.{IsAt};
ghost use Rattle.first_machine.specs.Trace.{trace};
ghost use Rattle.first_machine.specs.Clauses.{ArePlaces};
ghost use Rattle.first_machine.specs.Places.{FindsValues, AreEarlier, AreUpTo, DoTimesRise, tick_after};

use crate::state::State;
use crate::trace::push_step;
use byte_lists::Bytes;
use gate_net::{Netlist, Stimulus, ValueLine};
use level_range::Logic;
use std::alloc::{AllocError, Global};

/// What a run gave: the trace of the steps that ended, and the tick at which it oscillated, if it did.
#[derive(Drop)]
pub struct Simulated {
    pub trace: Bytes,
    pub oscillated: Option<u64>,
}

/// For each of `count` nets its place among the listed ones, if it is there.
fn places_by_net(
    alloc: Global,
    count: usize,
    listed: &[u32],
) -> Result<Vec<Option<usize>>, AllocError>
    requires { AreNets count listed.now }
    ensures size { IfOk result (λ places. length places.items ≡ count) }
    ensures places { IfOk result (λ places. ArePlaces listed.now count places.items) }
{
    let mut places = vec![in alloc; None; count]?;
    for (k, net) in listed.iter().enumerate() {
        places[*net as usize] = Some(k);
    }
    Ok(places)
}

/// For each input of the netlist its place among the listed ones, if it is there.
fn places_of_inputs(
    alloc: Global,
    inputs: &[u32],
    by_net: &[Option<usize>],
) -> Result<Vec<Option<usize>>, AllocError>
    requires { AreNets (length by_net.now) inputs.now }
    ensures { IfOk result (λ places. places.items ≡ map (λ n. slice_index_or by_net.now n None) inputs.now) }
{
    let mut places = Vec::new(alloc);
    for net in inputs {
        places.push(by_net[*net as usize])?;
    }
    Ok(places)
}

/// For each input of the netlist its place in the stimulus, if it is listed.
fn listed_places(
    alloc: Global,
    netlist: &Netlist,
    stimulus: &Stimulus,
) -> Result<Vec<Option<usize>>, AllocError>
    requires sound { IsSound netlist.now }
    requires lawful { IsLawful netlist.now stimulus.now }
    ensures size { IfOk result (λ places. length places.items ≡ length netlist.now.inputs) }
    ensures places { IfOk result (λ places. FindsValues netlist.now stimulus.now places.items) }
{
    let nets = netlist.names.as_slice().len();
    let by_net = places_by_net(alloc, nets, stimulus.inputs.as_slice())?;
    let places = places_of_inputs(alloc, netlist.inputs.as_slice(), by_net.as_slice())?;
    Ok(places)
}

/// The values of the last of the first `at` lines; none before the first.
fn values_before(lines: &[ValueLine], at: usize) -> &[Logic]
    requires { at ≤ length lines.now }
    ensures { result.now ≡ last_values [] (take at lines.now) }
{
    if at == 0 {
        &[]
    } else {
        lines[at - 1].values.as_slice()
    }
}

/// How many lines have a time up to the tick, where the first `at` lines have an earlier one.
fn lines_up_to(lines: &[ValueLine], at: usize, tick: u64) -> usize
    requires earlier { AreEarlier lines.now tick at }
    requires rising { DoTimesRise lines.now }
    ensures { AreUpTo lines.now tick result }
{
    if at < lines.len() && lines[at].time == tick {
        at + 1
    } else {
        at
    }
}

/// The time of the next step: that of the line after the first `at` lines, or the end.
fn next_tick(lines: &[ValueLine], at: usize, end: u64) -> u64
    ensures { result ≡ tick_after lines.now at end }
{
    if at < lines.len() {
        lines[at].time
    } else {
        end
    }
}

/// No place of the outputs showed anything yet.
fn nothing_printed(alloc: Global, count: usize) -> Result<Vec<Option<Logic>>, AllocError>
    ensures { IfOk result (λ printed. printed.items ≡ replicate count None) }
{
    vec![in alloc; None; count]
}

/// The steps of a run from its start, whose trace is written at the end of the text. The answer is the tick at which
/// it oscillates, if it does.
fn run_steps(
    text: &mut Vec<u8>,
    netlist: &Netlist,
    stimulus: &Stimulus,
    limit: u32,
    places: &[Option<usize>],
    state: &mut State,
    printed: &mut [Option<Logic>],
) -> Result<Option<u64>, AllocError>
    requires sound { IsSound netlist.now }
    requires lawful { IsLawful netlist.now stimulus.now }
    requires limit { 0 < limit }
    requires places { FindsValues netlist.now stimulus.now places.now }
    requires places_size { length places.now ≡ length netlist.now.inputs }
    requires sizes { HaveSizes netlist.now (values_of state.old) }
    requires printed_size { length printed.old ≡ length netlist.now.outputs }
    requires start { IsAt limit netlist.now stimulus.now
        state.old.outs.items state.old.targets.items state.old.seen.items
        printed.old text.old.items 0 }
    ensures trace { IfOk result (λ oscillated.
        text.new.items ≡ trace netlist.now (run limit netlist.now stimulus.now).ended) }
    ensures oscillated { IfOk result (λ oscillated. oscillated ≡ (run limit netlist.now stimulus.now).oscillated) }
{
    let lines = stimulus.lines.as_slice();
    let mut tick = 0;
    let mut at = 0;
    'steps: loop {
        at = lines_up_to(lines, at, tick);
        let due = state.step_with(netlist, places, values_before(lines, at), limit)?;
        if due {
            return Ok(Some(tick));
        }
        push_step(text, netlist, state.seen.as_slice(), tick, printed)?;
        if tick == stimulus.end {
            return Ok(None);
        }
        tick = next_tick(lines, at, stimulus.end);
    }
}

/// The whole run, with at most `limit` passes in a step, and the trace of the steps that ended.
pub fn simulate(
    alloc: Global,
    netlist: &Netlist,
    stimulus: &Stimulus,
    limit: u32,
) -> Result<Simulated, AllocError>
    requires sound { IsSound netlist.now }
    requires lawful { IsLawful netlist.now stimulus.now }
    requires limit { 0 < limit }
    ensures trace { IfOk result (λ s. s.trace ≡ trace netlist.now (run limit netlist.now stimulus.now).ended) }
    ensures oscillated { IfOk result (λ s. s.oscillated ≡ (run limit netlist.now stimulus.now).oscillated) }
{
    let places = listed_places(alloc, netlist, stimulus)?;
    let mut state = State::start(alloc, netlist)?;
    let mut shown = nothing_printed(alloc, netlist.outputs.as_slice().len())?;
    let mut text = Vec::new(alloc);
    let oscillated = run_steps(
        &mut text,
        netlist,
        stimulus,
        limit,
        places.as_slice(),
        &mut state,
        shown.as_mut_slice(),
    )?;
    let trace = Bytes::from_vec(text);
    Ok(Simulated { trace, oscillated })
}
