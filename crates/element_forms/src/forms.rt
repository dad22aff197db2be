//! The elements that gates become.
ghost use Rattle.std.specs.Prelude.{◌≡◌};
ghost use Rattle.element_forms.specs.Forms.{element_form, logic_form, switch_form, tran_form};
ghost use Rattle.item_parts.specs.Drives.{pulls_to_one};

use flat_net::ElementKind;
use logic_tables::{EnableKind, FoldKind};
use v_tree::{GateKind, LogicGate, PullGate, Switch, TranGate};

/// What a gate becomes.
#[derive(Clone, Copy, Debug, PartialEq, Eq)]
pub enum ElementForm {
    /// One element: the first terminal is its output and the others are its inputs; of `Buf` and `Not`
    /// the last is its input and the others are its outputs.
    Single(ElementKind),
    /// One bidirectional switch: two ends, and a control where it has one.
    Bidirectional { kind: ElementKind, resistive: bool },
    /// A complementary switch: the output and the data of two MOS switches, the control of the one that
    /// conducts for 1, and the control of the one that conducts for 0 (IEEE 1364-2005, 7.7).
    Complementary { resistive: bool },
}

/// What a logic gate becomes.
fn logic_form(gate: LogicGate) -> ElementForm
    ensures { result ≡ logic_form gate }
{
    ElementForm::Single(match gate {
        LogicGate::And => ElementKind::Fold(FoldKind::And),
        LogicGate::Nand => ElementKind::Fold(FoldKind::Nand),
        LogicGate::Or => ElementKind::Fold(FoldKind::Or),
        LogicGate::Nor => ElementKind::Fold(FoldKind::Nor),
        LogicGate::Xor => ElementKind::Fold(FoldKind::Xor),
        LogicGate::Xnor => ElementKind::Fold(FoldKind::Xnor),
        LogicGate::Buf => ElementKind::Fold(FoldKind::Buf),
        LogicGate::Not => ElementKind::Fold(FoldKind::Not),
        LogicGate::Bufif0 => ElementKind::Enable(EnableKind::Bufif0),
        LogicGate::Bufif1 => ElementKind::Enable(EnableKind::Bufif1),
        LogicGate::Notif0 => ElementKind::Enable(EnableKind::Notif0),
        LogicGate::Notif1 => ElementKind::Enable(EnableKind::Notif1),
    })
}

/// A MOS switch.
fn mos_form(on_one: bool, resistive: bool) -> ElementForm
    ensures { result ≡ ElementForm.Single (ElementKind.Mos on_one resistive) }
{
    ElementForm::Single(ElementKind::Mos { on_one, resistive })
}

/// A bidirectional switch with a control.
fn tranif_form(on_one: bool, resistive: bool) -> ElementForm
    ensures { result ≡ ElementForm.Bidirectional (ElementKind.Tranif on_one) resistive }
{
    ElementForm::Bidirectional {
        kind: ElementKind::Tranif { on_one },
        resistive,
    }
}

/// What a switch becomes.
fn switch_form(switch: Switch) -> ElementForm
    ensures { result ≡ switch_form «switch» }
{
    match switch {
        Switch::Nmos => mos_form(true, false),
        Switch::Pmos => mos_form(false, false),
        Switch::Rnmos => mos_form(true, true),
        Switch::Rpmos => mos_form(false, true),
        Switch::Cmos => ElementForm::Complementary { resistive: false },
        Switch::Rcmos => ElementForm::Complementary { resistive: true },
        Switch::Tranif0 => tranif_form(false, false),
        Switch::Tranif1 => tranif_form(true, false),
        Switch::Rtranif0 => tranif_form(false, true),
        Switch::Rtranif1 => tranif_form(true, true),
    }
}

/// What a switch that always conducts becomes.
fn tran_form(gate: TranGate) -> ElementForm
    ensures { result ≡ tran_form gate }
{
    ElementForm::Bidirectional {
        kind: ElementKind::Tran,
        resistive: match gate {
            TranGate::Tran => false,
            TranGate::Rtran => true,
        },
    }
}

/// Whether a pull gate's value is 1.
pub fn pulls_to_one(gate: PullGate) -> bool
    ensures { result ≡ pulls_to_one gate }
{
    match gate {
        PullGate::Pullup => true,
        PullGate::Pulldown => false,
    }
}

/// What a gate becomes (IEEE 1364-2005, 7.2 to 7.8).
pub fn element_form(kind: &GateKind) -> ElementForm
    ensures { result ≡ element_form kind.now }
{
    match kind {
        GateKind::Logic(gate, _, _) => logic_form(*gate),
        GateKind::Switch(switch, _) => switch_form(*switch),
        GateKind::Tran(gate) => tran_form(*gate),
        GateKind::Pull(gate, _) => ElementForm::Single(ElementKind::Pull(pulls_to_one(*gate))),
    }
}
