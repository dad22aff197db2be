//! The two phases of a pass, over lists of logic values.

ghost use Rattle.std.specs.Prelude.{◌≡◌, not, length, IfOk, All};
ghost use Rattle.gate_net.specs.Sound.{IsSound, AreNets, AreApart, IsGate, driven_nets};
ghost use Rattle.first_machine.specs.Clauses.{HaveValues, OthersKeep, HaveOutputs, UndrivenKeep, AreTargets};
ghost use Rattle.first_machine.specs.Shown.{values_from, HaveSizes, ArePassed, next_value, same_logic, SaysDue};

use gate_net::{Gate, Netlist};
use level_range::Logic;
use logic_tables::{FoldKind, fold_gate};
use std::alloc::AllocError;

/// Each input in force drives its net.
pub fn drive_inputs(nets: &[u32], forced: &[Logic], seen: &mut [Logic])
    requires in_range { AreNets (length seen.old) nets.now }
    requires apart { AreApart nets.now }
    requires sizes { length forced.now ≡ length nets.now }
    ensures entered { HaveValues nets.now forced.now seen.new }
    ensures others { OthersKeep nets.now seen.old seen.new }
{
    for (k, net) in nets.iter().enumerate() {
        seen[*net as usize] = forced[k];
    }
}

/// Each gate's target takes effect, and is seen on the net that it drives.
pub fn drive_outputs(gates: &[Gate], outs: &mut [Logic], targets: &[Logic], seen: &mut [Logic])
    requires in_range { All (IsGate (length seen.old)) gates.now }
    requires apart { AreApart (driven_nets gates.now) }
    requires outs { length outs.old ≡ length gates.now }
    requires targets { length targets.now ≡ length gates.now }
    ensures outs { outs.new ≡ targets.now }
    ensures driven { HaveOutputs gates.now targets.now seen.new }
    ensures others { UndrivenKeep gates.now seen.old seen.new }
{
    for (k, gate) in gates.iter().enumerate() {
        let value = targets[k];
        outs[k] = value;
        seen[gate.output as usize] = value;
    }
}

/// What a gate gives for the values that it sees. The pins are a list to work in.
pub fn target_of(gate: &Gate, seen: &[Logic], pins: &mut Vec<Logic>) -> Result<Logic, AllocError>
    requires { IsGate (length seen.now) gate.now }
    ensures { IfOk result (λ value. value ≡ next_value gate.now seen.now) }
{
    pins.clear();
    for net in gate.inputs.as_slice() {
        pins.push(seen[*net as usize])?;
    }
    Ok(fold_gate(FoldKind::Nand, pins.as_slice()))
}

/// Whether two values differ.
pub fn differ(a: Logic, b: Logic) -> bool
    ensures { result ≡ not (same_logic a b) }
{
    a != b
}

/// Each gate computes its target. The answer says whether one differs from the present output.
pub fn evaluate(
    gates: &[Gate],
    outs: &[Logic],
    seen: &[Logic],
    targets: &mut [Logic],
    pins: &mut Vec<Logic>,
) -> Result<bool, AllocError>
    requires in_range { All (IsGate (length seen.now)) gates.now }
    requires outs { length outs.now ≡ length gates.now }
    requires targets { length targets.old ≡ length gates.now }
    ensures targets { IfOk result (λ due. AreTargets gates.now seen.now targets.new) }
    ensures due { IfOk result (λ due. SaysDue due outs.now targets.new (length gates.now)) }
{
    let mut due = false;
    for (k, gate) in gates.iter().enumerate() {
        let target = target_of(gate, seen, pins)?;
        targets[k] = target;
        if differ(outs[k], target) {
            due = true;
        }
    }
    Ok(due)
}

/// One pass over the values. The answer says whether something is due then.
pub fn pass_over(
    netlist: &Netlist,
    outs: &mut [Logic],
    targets: &mut [Logic],
    seen: &mut [Logic],
    forced: &[Logic],
    pins: &mut Vec<Logic>,
) -> Result<bool, AllocError>
    requires sound { IsSound netlist.now }
    requires sizes { HaveSizes netlist.now (values_from outs.old targets.old seen.old forced.now) }
    ensures passed { IfOk result (λ due. ArePassed netlist.now
        (values_from outs.old targets.old seen.old forced.now)
        (values_from outs.new targets.new seen.new forced.now)) }
    ensures due { IfOk result (λ due. SaysDue due outs.new targets.new (length netlist.now.gates)) }
{
    let gates = netlist.gates.as_slice();
    drive_inputs(netlist.inputs.as_slice(), forced, seen);
    drive_outputs(gates, outs, targets, seen);
    let due = evaluate(gates, outs, seen, targets, pins)?;
    Ok(due)
}
