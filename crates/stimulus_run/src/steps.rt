//! One time step.
ghost use Rattle.std.specs.Prelude.{◌≡◌, ◌≤◌, ◌^◌, ◌-◌};
ghost use Rattle.machine.specs.Pass.{is_machine_due};
ghost use Rattle.machine.specs.System.{machines, step as step_of};
ghost use Rattle.plain_sim.specs.Plain.{with_machine};

use cell_step::{PassEnd, Steps};
use plain_sim::PlainRun;
use std::sync::ledger::Ledger;

/// Makes a time step: a first pass, and further ones while something is due, up to the limit. The
/// answer says whether something is due then.
pub(crate) fn step<L: Ledger>(run: &mut PlainRun<'_>, steps: &mut Steps<L>) -> bool
    requires fresh { run.old.machine.passes ≡ 0 }
    requires some { 1 ≤ run.old.limit }
    requires few { run.old.limit ≤ 2 ^ 32 - 1 }
    ensures machine { run.new ≡ with_machine run.old
        (step_of (machines run.old.netlist) run.old.limit run.old.machine) }
    ensures due { result ≡ is_machine_due run.new.machine }
{
    'passes: loop {
        match run.pass(steps) {
            PassEnd::Quiet => return false,
            PassEnd::Oscillates => return true,
            PassEnd::More => {}
        }
    }
}
