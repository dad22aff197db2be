ghost use Rattle.std.specs.Prelude.{◌≡◌, ◌+◌, ◌<◌, ◌≤◌, ◌^◌, IfOk, length};
ghost use Rattle.level_range.specs.Signal.{undriven};
ghost use Rattle.machine.specs.Machine.{start, begin, cell_count};
ghost use Rattle.machine.specs.Pass.{pass as pass_of, pass_end as pass_end_of, is_machine_due, machine_end, due_times};
ghost use Rattle.machine.specs.Run.{least};

use crate::due::{follow, wheel_for};
use crate::forces::{force_inputs, undriven_signals};
use crate::phases::pass_over;
use crate::starts::{bench_for, start_elements, start_islands};
use crate::views::net_of;
use cell_step::{Bench, CellState, PassEnd, Steps};
use flat_net::Flat;
use level_range::Range;
use std::alloc::{AllocError, Global};
use std::marker::Model;
use std::sync::ledger::Ledger;
use timing_wheel::Wheel;

/// The run of one netlist, pass by pass. Contracts see the netlist, the limit of passes at one time,
/// and the machine.
#[derive(Drop)]
pub struct PlainRun<'a> {
    flat: &'a Flat,
    limit: u32,
    time: u64,
    passes: u32,
    has_passed: bool,
    inputs: Vec<Range>,
    last_inputs: Vec<Range>,
    forced: Vec<Range>,
    elements: Vec<CellState>,
    islands: Vec<CellState>,
    bench: Bench,
    due: Wheel,
}

impl<'a> Model for PlainRun<'a> {
    ghost use Rattle.plain_sim.specs.Plain.{PlainMachine};

    ghost Value = { PlainMachine };

    ghost use Rattle.plain_sim.specs.Inside.{plain_of, IsPlain};

    ghost view = { plain_of };

    ghost invariant = { IsPlain };
}

/// What a pass leaves, by whether something is due, by how many passes were made at the time, and by
/// their limit.
fn pass_end(is_due: bool, passes: u32, limit: u32) -> PassEnd
    ensures { result ≡ pass_end_of is_due passes limit }
{
    if !is_due {
        PassEnd::Quiet
    } else if limit <= passes {
        PassEnd::Oscillates
    } else {
        PassEnd::More
    }
}

impl<'a> PlainRun<'a> {
    ghost use Rattle.plain_sim.specs.Plain.{with_machine, seen_signal};

    /// The run of a netlist at its start: the time is 0, no pass was made, and all inputs are z. At
    /// one time there are at most `limit` passes, at least 1. All memory is taken here.
    pub fn new(alloc: Global, flat: &'a Flat, limit: u32) -> Result<PlainRun<'a>, AllocError>
        ensures netlist { IfOk result (λ run. run.netlist ≡ flat.now) }
        ensures limit { IfOk result (λ run. run.limit ≡ limit) }
        ensures start { IfOk result (λ run. run.machine ≡ start flat.now) }
    {
        let count = flat.inputs().as_slice().len();
        let inputs = undriven_signals(alloc, count)?;
        let last_inputs = undriven_signals(alloc, count)?;
        let forced = undriven_signals(alloc, flat.net_count() as usize)?;
        let elements = start_elements(alloc, flat)?;
        let islands = start_islands(alloc, flat)?;
        let bench = bench_for(alloc, flat)?;
        let due = wheel_for(alloc, flat)?;
        Ok(PlainRun {
            flat,
            limit,
            time: 0,
            passes: 0,
            has_passed: false,
            inputs,
            last_inputs,
            forced,
            elements,
            islands,
            bench,
            due,
        })
    }

    /// Begins a time, in ticks, with these inputs in force, one for each net of `inputs()` of the
    /// netlist. No pass was made at it yet, also where it is the last time.
    pub fn begin_time(&mut self, t: u64, inputs: &[Range])
        requires time { t ≤ 2 ^ 48 }
        requires inputs { length inputs.now ≡ length self.old.netlist.parts.inputs }
        ensures { self.new ≡ with_machine self.old (begin t inputs.now self.old.machine) }
    {
        let _nets = self.flat.net_count();
        let nets = self.flat.inputs().as_slice();
        force_inputs(nets, inputs, self.forced.as_mut_slice());
        self.inputs.copy_from_slice(inputs);
        self.time = t;
        self.passes = 0;
    }

    /// Makes a pass. The answer says whether something is due then at the present time, and whether
    /// the limit of passes was reached. A step is counted for each cell.
    pub fn pass<L: Ledger>(&mut self, steps: &mut Steps<L>) -> PassEnd
        ensures machine { self.new
            ≡ with_machine self.old (pass_of self.old.netlist self.old.machine) }
        ensures end { result ≡ machine_end self.old.limit self.new.machine }
        ensures counted { steps.new ≡ steps.old + cell_count self.old.netlist.parts }
    {
        let _nets = self.flat.net_count();
        pass_over(
            self.flat,
            self.elements.as_mut_slice(),
            self.islands.as_mut_slice(),
            self.forced.as_slice(),
            self.time,
            &mut self.bench,
            steps,
        );
        follow(
            self.flat,
            self.elements.as_slice(),
            self.islands.as_slice(),
            &mut self.due,
        );
        self.last_inputs.copy_from_slice(self.inputs.as_slice());
        self.has_passed = true;
        self.passes = self.passes.saturating_add(1);
        pass_end(self.is_due(), self.passes, self.limit)
    }

    /// Whether something is due at the present time.
    fn is_due(&self) -> bool
        ensures { result ≡ is_machine_due self.now.machine }
    {
        match self.next_time() {
            Some(at) => at <= self.time,
            None => false,
        }
    }

    /// The least time for which something is pending, if anything is.
    pub fn next_time(&self) -> Option<u64>
        ensures { result ≡ least (due_times self.now.machine) }
    {
        let _nets = self.flat.net_count();
        self.due.next_time()
    }

    /// The signal that is seen of a net.
    pub fn seen(&self, net: u32) -> Range
        requires { net < length self.now.netlist.parts.nets }
        ensures { result ≡ seen_signal self.now net }
    {
        let _nets = self.flat.net_count();
        net_of(self.flat, self.islands.as_slice(), net).seen
    }
}
