ghost use Rattle.std.specs.Prelude.{◌≡◌, ◌≤◌};
ghost use Rattle.logic_tables.specs.Enable.{opposite as opposite_of, bufif1_of, enable_of, enable_span_of, conduct_of};

use crate::kinds::{EnableKind, EnableOut};
use level_range::{Conduct, Logic, Range, span};

/// The inverted value.
fn opposite(value: Logic) -> Logic
    ensures { result ≡ opposite_of value }
{
    match value {
        Logic::Zero => Logic::One,
        Logic::One => Logic::Zero,
        other => other,
    }
}

/// What bufif1 gives.
fn bufif1(data: Logic, control: Logic) -> EnableOut
    ensures { result ≡ bufif1_of «data» control }
{
    match (control, data) {
        (Logic::Zero, _) => EnableOut::Z,
        (Logic::One, Logic::Zero) => EnableOut::Zero,
        (Logic::One, Logic::One) => EnableOut::One,
        (_, Logic::Zero) => EnableOut::L,
        (_, Logic::One) => EnableOut::H,
        (_, _) => EnableOut::X,
    }
}

/// What a three-state gate gives (IEEE 1364-2005, 7.4).
pub fn enable(kind: EnableKind, data: Logic, control: Logic) -> EnableOut
    ensures { result ≡ enable_of kind «data» control }
{
    match kind {
        EnableKind::Bufif1 => bufif1(data, control),
        EnableKind::Bufif0 => bufif1(data, opposite(control)),
        EnableKind::Notif1 => bufif1(opposite(data), control),
        EnableKind::Notif0 => bufif1(opposite(data), opposite(control)),
    }
}

/// What a three-state gate drives with the levels `s0` for 0 and `s1` for 1.
///
/// The signals for `L` and `H` are this project's own.
pub fn enable_span(out: EnableOut, s0: u8, s1: u8) -> Range
    requires zero_level { s0 ≤ 7 }
    requires one_level { s1 ≤ 7 }
    ensures { result ≡ enable_span_of out s0 s1 }
{
    match out {
        EnableOut::Zero => span(Logic::Zero, s0, s1),
        EnableOut::One => span(Logic::One, s0, s1),
        EnableOut::X => span(Logic::X, s0, s1),
        EnableOut::Z => span(Logic::Z, s0, s1),
        EnableOut::L => Range::new(-(s0 as i8), 0),
        EnableOut::H => Range::new(0, s1 as i8),
    }
}

/// Whether a switch conducts, on at control 1 or at control 0 (IEEE 1364-2005, 7.5 and 7.6).
pub fn conduct(on_one: bool, control: Logic) -> Conduct
    ensures { result ≡ conduct_of on_one control }
{
    match (control, on_one) {
        (Logic::Zero, false) | (Logic::One, true) => Conduct::On,
        (Logic::Zero, true) | (Logic::One, false) => Conduct::Off,
        (Logic::X | Logic::Z, _) => Conduct::Unknown,
    }
}
