//! Which drives and levels of pull gates are right.
ghost use Rattle.std.specs.Prelude.{◌≡◌};
ghost use Rattle.rule_places.specs.Places.{first_place};
ghost use Rattle.item_parts.specs.Drives.{is_highz, is_level_of, are_of_both, is_drive, drive_places, pulls_to_one, level_among, pull_level, is_pull, pull_places};

use v_tree::{DriveStrength, Level, Location, PullGate, PullLevels, Strength};

fn is_highz(strength: Strength) -> bool
    ensures { result ≡ is_highz strength }
{
    matches!(strength, Strength::Highz)
}

/// Whether a level is that of 1, or that of 0.
fn is_level_of(one: bool, level: Level) -> bool
    ensures { result ≡ is_level_of one level }
{
    if one { level.of_one } else { !level.of_one }
}

/// Whether of two levels one is for 0 and one for 1.
fn are_of_both(first: Level, second: Level) -> bool
    ensures { result ≡ are_of_both first second }
{
    is_level_of(!first.of_one, second)
}

/// Whether a drive has one level for 0 and one for 1, not both highz (IEEE 1364-2005, 7.1.2).
pub fn is_drive(drive: DriveStrength) -> bool
    ensures { result ≡ is_drive drive }
{
    are_of_both(drive.first, drive.second)
        && !(is_highz(drive.first.strength) && is_highz(drive.second.strength))
}

/// The location of the `(` of a drive that isn't right.
pub fn drive_place(drive: Option<DriveStrength>) -> Option<Location>
    ensures { result ≡ first_place (drive_places drive) }
{
    match drive {
        Some(drive) if !is_drive(drive) => Some(drive.location),
        _ => None,
    }
}

/// Whether a pull gate's value is 1 (IEEE 1364-2005, 7.8).
fn pulls_to_one(gate: PullGate) -> bool
    ensures { result ≡ pulls_to_one gate }
{
    match gate {
        PullGate::Pullup => true,
        PullGate::Pulldown => false,
    }
}

/// The level for a value, among one or two. None comes where one is for the other value, or two are for
/// the same.
fn level_among(one: bool, first: Level, second: Option<Level>) -> Option<Level>
    ensures { result ≡ level_among one first second }
{
    match second {
        None if is_level_of(one, first) => Some(first),
        Some(second) if are_of_both(first, second) => {
            if is_level_of(one, first) {
                Some(first)
            } else {
                Some(second)
            }
        }
        _ => None,
    }
}

/// The level that a pull gate uses, that of its value. None comes where its levels aren't one for that
/// or one for each value.
pub fn pull_level(gate: PullGate, levels: PullLevels) -> Option<Level>
    ensures { result ≡ pull_level gate levels }
{
    level_among(pulls_to_one(gate), levels.first, levels.second)
}

/// Whether the levels of a pull gate are right: there is one that it uses, which isn't highz.
pub fn is_pull(gate: PullGate, levels: PullLevels) -> bool
    ensures { result ≡ is_pull gate levels }
{
    match pull_level(gate, levels) {
        Some(level) => !is_highz(level.strength),
        None => false,
    }
}

/// The location of the `(` of a pull gate's levels that aren't right.
pub fn pull_place(gate: PullGate, levels: Option<PullLevels>) -> Option<Location>
    ensures { result ≡ first_place (pull_places gate levels) }
{
    match levels {
        Some(levels) if !is_pull(gate, levels) => Some(levels.location),
        _ => None,
    }
}
