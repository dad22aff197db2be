//! The classes of gates and switches.
ghost use Rattle.std.specs.Prelude.{◌≡◌};
ghost use Rattle.gate_rules.specs.Classes.{logic_class, switch_class, gate_class, is_terminal_count, most_delays, output_count};

use v_tree::{GateKind, LogicGate, Switch};

/// A class of gates and switches by their terminals (IEEE 1364-2005, A.3.1).
#[derive(Clone, Copy, Debug, PartialEq, Eq)]
pub enum GateClass {
    /// An output, and one or more inputs.
    NInput,
    /// One or more outputs, and an input.
    NOutput,
    /// Output, data and control.
    Enable,
    /// Output, data and control.
    Mos,
    /// Output, data, and a control of each half.
    Cmos,
    /// Two ends and a control.
    PassEnable,
    /// Two ends.
    Pass,
    /// An output.
    Pull,
}

/// The class of a gate that may have a drive.
pub fn logic_class(gate: LogicGate) -> GateClass
    ensures { result ≡ logic_class gate }
{
    match gate {
        LogicGate::And
        | LogicGate::Nand
        | LogicGate::Or
        | LogicGate::Nor
        | LogicGate::Xor
        | LogicGate::Xnor => GateClass::NInput,
        LogicGate::Buf | LogicGate::Not => GateClass::NOutput,
        LogicGate::Bufif0 | LogicGate::Bufif1 | LogicGate::Notif0 | LogicGate::Notif1 => {
            GateClass::Enable
        }
    }
}

/// The class of a switch that may have a delay.
pub fn switch_class(gate: Switch) -> GateClass
    ensures { result ≡ switch_class gate }
{
    match gate {
        Switch::Nmos | Switch::Pmos | Switch::Rnmos | Switch::Rpmos => GateClass::Mos,
        Switch::Cmos | Switch::Rcmos => GateClass::Cmos,
        Switch::Tranif0 | Switch::Tranif1 | Switch::Rtranif0 | Switch::Rtranif1 => {
            GateClass::PassEnable
        }
    }
}

/// The class of the gates of an item.
pub fn gate_class(kind: &GateKind) -> GateClass
    ensures { result ≡ gate_class kind.now }
{
    match kind {
        GateKind::Logic(gate, _, _) => logic_class(*gate),
        GateKind::Switch(gate, _) => switch_class(*gate),
        GateKind::Tran(_) => GateClass::Pass,
        GateKind::Pull(_, _) => GateClass::Pull,
    }
}

impl GateClass {
    /// Whether a gate may have so many terminals.
    pub fn is_terminal_count(self, count: usize) -> bool
        ensures { result ≡ is_terminal_count self count }
    {
        match self {
            GateClass::NInput | GateClass::NOutput => 2 <= count,
            GateClass::Enable | GateClass::Mos | GateClass::PassEnable => count == 3,
            GateClass::Cmos => count == 4,
            GateClass::Pass => count == 2,
            GateClass::Pull => count == 1,
        }
    }

    /// How many delays a gate may have at most (IEEE 1364-2005, 7.14).
    pub fn most_delays(self) -> usize
        ensures { result ≡ most_delays self }
    {
        match self {
            GateClass::NInput | GateClass::NOutput | GateClass::PassEnable => 2,
            GateClass::Enable | GateClass::Mos | GateClass::Cmos => 3,
            GateClass::Pass | GateClass::Pull => 0,
        }
    }

    /// Of so many terminals, how many at the beginning are outputs or bidirectional.
    pub fn output_count(self, count: usize) -> usize
        ensures { result ≡ output_count self count }
    {
        match self {
            GateClass::NInput
            | GateClass::Enable
            | GateClass::Mos
            | GateClass::Cmos
            | GateClass::Pull => 1,
            GateClass::NOutput => count.saturating_sub(1),
            GateClass::PassEnable | GateClass::Pass => 2,
        }
    }
}
