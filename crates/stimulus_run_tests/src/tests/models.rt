//! Netlists and stimuli as rows, and the steps of their runs.
use flat_net::ElementKind;
use stimulus_run::StepEnd;

/// A gate with the strengths 6: its kind, its delays in ticks, and the nets of its pins.
pub struct GateRow {
    pub kind: ElementKind,
    pub delays: &'static [u32],
    pub out: u32,
    pub ins: &'static [u32],
}

/// A call for the next step: how it ends, the bounds of the signals that are then seen at the outputs of
/// the netlist, and what the stimulus reads there: nothing, `?` for a strobe, or `?` and the expected
/// values.
pub struct StepRow {
    pub end: StepEnd,
    pub seen: &'static [(i8, i8)],
    pub read: &'static str,
}

/// A run: the names of the netlist's wires, its gates, the wires that are inputs and outputs, the limit
/// of passes, the vector text, and the steps.
pub struct RunRow {
    pub names: &'static [&'static str],
    pub gates: &'static [GateRow],
    pub inputs: &'static [u32],
    pub outputs: &'static [u32],
    pub limit: u32,
    pub text: &'static str,
    pub steps: &'static [StepRow],
}

pub const Z: (i8, i8) = (0, 0);

pub const STX: (i8, i8) = (-6, 6);

pub const ST0: (i8, i8) = (-6, -6);

pub const ST1: (i8, i8) = (6, 6);
