//! The strengths of what gates drive.
ghost use Rattle.std.specs.Prelude.{◌≡◌};
ghost use Rattle.element_forms.specs.Strengths.{drive_level, drive_strengths, gate_strengths, pull_strength, pull_strengths, strength_level};

use crate::forms::pulls_to_one;
use item_parts::pull_level;
use v_tree::{DriveStrength, GateKind, PullGate, PullLevels, Strength};

/// The strengths for 0 and for 1, levels 0 to 7.
#[derive(Clone, Copy, Debug, PartialEq, Eq)]
pub struct Strengths {
    pub zero: u8,
    pub one: u8,
}

/// The level of a strength.
fn strength_level(strength: Strength) -> u8
    ensures { result ≡ strength_level strength }
{
    match strength {
        Strength::Supply => 7,
        Strength::Strong => 6,
        Strength::Pull => 5,
        Strength::Weak => 3,
        Strength::Highz => 0,
    }
}

/// The level of a drive for 1, or for 0.
fn drive_level(one: bool, drive: DriveStrength) -> u8
    ensures { result ≡ drive_level one drive }
{
    if drive.first.of_one == one {
        strength_level(drive.first.strength)
    } else {
        strength_level(drive.second.strength)
    }
}

/// The strengths of a drive, which are strong where none is written (IEEE 1364-2005, 7.1.2 and 6.1.4).
pub fn drive_strengths(drive: Option<DriveStrength>) -> Strengths
    ensures { result ≡ drive_strengths drive }
{
    match drive {
        Some(drive) => Strengths {
            zero: drive_level(false, drive),
            one: drive_level(true, drive),
        },
        None => Strengths { zero: 6, one: 6 },
    }
}

/// The level of a pull gate for its value.
fn pull_strength(gate: PullGate, levels: Option<PullLevels>) -> u8
    ensures { result ≡ pull_strength gate levels }
{
    match levels {
        Some(levels) => match pull_level(gate, levels) {
            Some(level) => strength_level(level.strength),
            None => 0,
        },
        None => 5,
    }
}

/// The strengths of a pull gate.
fn pull_strengths(gate: PullGate, levels: Option<PullLevels>) -> Strengths
    ensures { result ≡ pull_strengths gate levels }
{
    let level = pull_strength(gate, levels);
    if pulls_to_one(gate) {
        Strengths {
            zero: 0,
            one: level,
        }
    } else {
        Strengths {
            zero: level,
            one: 0,
        }
    }
}

/// The strengths of a gate (IEEE 1364-2005, 7.1.2 and 7.8). A switch has none of its own and stands as
/// strong.
pub fn gate_strengths(kind: &GateKind) -> Strengths
    ensures { result ≡ gate_strengths kind.now }
{
    match kind {
        GateKind::Logic(_, drive, _) => drive_strengths(*drive),
        GateKind::Switch(_, _) | GateKind::Tran(_) => drive_strengths(None),
        GateKind::Pull(gate, levels) => pull_strengths(*gate, *levels),
    }
}
