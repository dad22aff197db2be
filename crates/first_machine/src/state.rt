//! The machine of a plain run.

ghost use Rattle.std.specs.Prelude.{◌≡◌, ◌<◌, replicate, length, map, IfOk};
ghost use Rattle.level_range.specs.declared.range.Logic.TheVariants.{X, Z};
ghost use Rattle.gate_net.specs.Sound.{IsSound};
ghost use Rattle.first_machine.specs.Pass.{pass};
ghost use Rattle.first_machine.specs.Run.{step};
ghost use Rattle.first_machine.specs.Shown.{HaveSizes, with_forced};
ghost use Rattle.first_machine.specs.Clauses.{ShowsAfter, TellsDue};
ghost use Rattle.first_machine.specs.Places.{placed_value};
ghost use Rattle.first_machine.specs.StateValues.{values_of};

use crate::force::force;
use crate::phases::pass_over;
use gate_net::Netlist;
use level_range::Logic;
use std::alloc::{AllocError, Global};

/// The values of a machine between two passes.
#[derive(Drop)]
pub struct State {
    /// The present output of each gate.
    pub outs: Vec<Logic>,
    /// What each gate is to give: the pending value where one is pending, else the present output.
    pub targets: Vec<Logic>,
    /// What is seen of each net.
    pub seen: Vec<Logic>,
    /// The value in force of each input of the netlist.
    pub forced: Vec<Logic>,
    /// A list to work in.
    pub pins: Vec<Logic>,
}

impl State {
    /// The machine before its first pass.
    pub fn start(alloc: Global, netlist: &Netlist) -> Result<State, AllocError>
        ensures outs { IfOk result (λ s. s.outs.items ≡ replicate (length netlist.now.gates) X) }
        ensures targets { IfOk result (λ s. s.targets.items ≡ replicate (length netlist.now.gates) X) }
        ensures seen { IfOk result (λ s. s.seen.items ≡ replicate (length netlist.now.names) Z) }
        ensures forced { IfOk result (λ s. s.forced.items ≡ replicate (length netlist.now.inputs) Z) }
    {
        let gates = netlist.gates.as_slice().len();
        let nets = netlist.names.as_slice().len();
        let inputs = netlist.inputs.as_slice().len();
        Ok(State {
            outs: vec![in alloc; Logic::X; gates]?,
            targets: vec![in alloc; Logic::X; gates]?,
            seen: vec![in alloc; Logic::Z; nets]?,
            forced: vec![in alloc; Logic::Z; inputs]?,
            pins: Vec::new(alloc),
        })
    }

    /// One pass. The answer says whether something is due then.
    pub fn pass(&mut self, netlist: &Netlist) -> Result<bool, AllocError>
        requires sound { IsSound netlist.now }
        requires sizes { HaveSizes netlist.now (values_of self.old) }
        ensures sizes { IfOk result (λ due. HaveSizes netlist.now (values_of self.new)) }
        ensures forced { self.new.forced.items ≡ self.old.forced.items }
        ensures shown { IfOk result (λ due.
            ShowsAfter netlist.now (values_of self.old) (values_of self.new) (pass netlist.now)) }
        ensures due { IfOk result (λ due. TellsDue netlist.now (values_of self.old) due (pass netlist.now)) }
    {
        let due = pass_over(
            netlist,
            self.outs.as_mut_slice(),
            self.targets.as_mut_slice(),
            self.seen.as_mut_slice(),
            self.forced.as_slice(),
            &mut self.pins,
        )?;
        Ok(due)
    }

    /// A time step: passes while something is due, up to the limit. The answer says whether something is due then.
    pub fn step(&mut self, netlist: &Netlist, limit: u32) -> Result<bool, AllocError>
        requires sound { IsSound netlist.now }
        requires sizes { HaveSizes netlist.now (values_of self.old) }
        requires limit { 0 < limit }
        ensures sizes { IfOk result (λ due. HaveSizes netlist.now (values_of self.new)) }
        ensures forced { self.new.forced.items ≡ self.old.forced.items }
        ensures shown { IfOk result (λ due.
            ShowsAfter netlist.now (values_of self.old) (values_of self.new) (step limit netlist.now)) }
        ensures due { IfOk result (λ due. TellsDue netlist.now (values_of self.old) due (step limit netlist.now)) }
    {
        let mut due = self.pass(netlist)?;
        let mut left = limit - 1;
        while due && left > 0 {
            due = self.pass(netlist)?;
            left -= 1;
        }
        Ok(due)
    }

    /// A time step with other values in force, one for each input of the netlist: z where it has no place, x where
    /// no value came yet.
    pub fn step_with(
        &mut self,
        netlist: &Netlist,
        places: &[Option<usize>],
        values: &[Logic],
        limit: u32,
    ) -> Result<bool, AllocError>
        requires sound { IsSound netlist.now }
        requires sizes { HaveSizes netlist.now (values_of self.old) }
        requires places { length places.now ≡ length netlist.now.inputs }
        requires limit { 0 < limit }
        ensures sizes { IfOk result (λ due. HaveSizes netlist.now (values_of self.new)) }
        ensures shown { IfOk result (λ due. ShowsAfter netlist.now
            (with_forced (values_of self.old) (map (placed_value values.now) places.now))
            (values_of self.new) (step limit netlist.now)) }
        ensures due { IfOk result (λ due. TellsDue netlist.now
            (with_forced (values_of self.old) (map (placed_value values.now) places.now)) due
            (step limit netlist.now)) }
    {
        force(places, values, self.forced.as_mut_slice());
        let due = self.step(netlist, limit)?;
        Ok(due)
    }
}
